//! The journal of the calls that were answered: a receipt for each entry, and the whole journal at the end.
ghost use Rattle.std.specs.Prelude.{◌≡◌, [], None, Some, IfOk};
ghost use Rattle.cw_model.specs.Journal.{journal, MayJournal};
ghost use Rattle.cw_world.specs.Receipts.{numbered};
ghost use Rattle.cw_world.specs.World.{DoesOrWants};

use crate::name::WorldName;
use crate::world::World;
use cw_disk::Disk;
use cw_laws::journal_keeps_facts;
use cw_model::{JournalEntry, WorldFault};
use std::alloc::AllocError;
use std::marker::Model;

/// Shows that an entry was kept in a world's journal, and in which world's. It can't be copied, and only
/// [`World::journal`] makes one.
#[derive(Drop)]
pub struct Receipt {
    number: u64,
    entry: JournalEntry,
    name: WorldName,
}

impl Model for Receipt {
    ghost use Rattle.cw_world.specs.Receipts.{ReceiptState};

    ghost Value = { ReceiptState };

    ghost view = { λ r. record { number = r.number; entry = r.entry; name = r.name.book } };
}

impl Receipt {
    /// The entry's place in the journal.
    pub fn number(&self) -> u64
        ensures { result ≡ self.now.number }
    {
        self.number
    }

    /// A copy of the entry.
    pub fn entry(&self) -> &JournalEntry
        ensures { result.now ≡ self.now.entry }
    {
        &self.entry
    }
}

/// The whole journal of a world that was given back, or none. It can't be changed. Clauses see its entries, and the
/// name of the world that had them.
#[derive(Drop)]
pub struct Journal {
    kept: Option<Kept>,
}

// The entries, and the name of their world.
#[derive(Drop)]
struct Kept {
    entries: Vec<JournalEntry>,
    name: WorldName,
}

impl Model for Journal {
    ghost use Rattle.std.specs.Prelude.{[], option_map};
    ghost use Rattle.std.specs.Option.{option_map_or};
    ghost use Rattle.cw_world.specs.Receipts.{JournalState};

    ghost Value = { JournalState };

    ghost view = { λ j. record {
      entries = option_map_or (λ kept. kept.entries.items) j.kept [];
      name = option_map (λ kept. kept.name.book) j.kept;
    } };
}

impl Journal {
    /// No journal: it has no entry, and no world's name.
    pub fn none() -> Journal
        ensures { result ≡ record { entries = []; name = None } }
    {
        Journal { kept: None }
    }

    /// The journal of a world of this name.
    pub(crate) fn of(entries: Vec<JournalEntry>, name: WorldName) -> Journal
        ensures { result ≡ record { entries = entries.items; name = Some name.book } }
    {
        Journal {
            kept: Some(Kept { entries, name }),
        }
    }

    /// The entries.
    pub fn entries(&self) -> &[JournalEntry]
        ensures { result.now ≡ self.now.entries }
    {
        match &self.kept {
            Some(kept) => kept.entries.as_slice(),
            None => &[],
        }
    }
}

impl<D: Disk> World<D> {
    /// The journal gets an entry, also where writing has ended: the answer shows its place and the world.
    pub fn journal(&mut self, entry: JournalEntry) -> Result<Receipt, WorldFault>
        requires { MayJournal self.old.setting entry self.old.state }
        ensures done { DoesOrWants (journal entry) self.old self.new (numbered result) }
        ensures entry { IfOk result (λ receipt. receipt.entry ≡ entry) }
        ensures name { IfOk result (λ receipt. receipt.name ≡ self.old.name) }
    {
        journal_keeps_facts();
        let Ok(copy) = copy_of(&entry) else {
            return Err(WorldFault::Memory);
        };
        let kept = self.cluster.keep(entry);
        receipt_of(kept, copy, self.name.again())
    }
}

// The receipt of an entry that was kept.
fn receipt_of(
    kept: Result<u64, WorldFault>,
    entry: JournalEntry,
    name: WorldName,
) -> Result<Receipt, WorldFault>
    ensures number { numbered result ≡ kept }
    ensures entry { IfOk result (λ receipt. receipt.entry ≡ entry) }
    ensures name { IfOk result (λ receipt. receipt.name ≡ name.book) }
{
    let number = kept?;
    Ok(Receipt {
        number,
        entry,
        name,
    })
}

// A copy of an entry.
fn copy_of(entry: &JournalEntry) -> Result<JournalEntry, AllocError>
    ensures { IfOk result (λ copy. copy ≡ entry.now) }
{
    Ok(JournalEntry {
        worker: entry.worker,
        board: entry.board,
        prefix: entry.prefix,
        statuses: entry.statuses,
        entries: entry.entries,
        call: entry.call.copy()?,
        reply: entry.reply.copy()?,
    })
}
