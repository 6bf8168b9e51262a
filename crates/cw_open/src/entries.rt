//! What a list of entries says, whether or not it is legal.
ghost use Rattle.std.specs.Prelude.{◌≡◌, ◌<◌, ◌+◌, ◌^◌, ◌++◌, ◌∷◌, [], Some, OnOk, IfOk, length, unwrap_or};
ghost use Rattle.std.specs.Prelude.{if◌then◌else◌};
ghost use Rattle.std.specs.BTreeMap.{get, is_at};
ghost use Rattle.cw_types.specs.declared.ids.Tid.{Tid};
ghost use Rattle.cw_types.specs.Same.{tid_order};
ghost use Rattle.cw_bytes.specs.Frames.{joined};
ghost use Rattle.cw_txn.specs.Legal.{epoch_of, is_committed};
ghost use Rattle.cw_open.specs.Entries.{Notes};
ghost use Rattle.cw_txn.specs.Tables.{epoch_at};

use crate::tags::Tags;
use cw_tables::value_at;
use cw_txn::Entry;
use cw_types::{Listed, Past, Tag, Tid};
use std::alloc::{AllocError, Global};
use std::collections::BTreeMap;
use std::marker::Model;

/// A list of entries, each of any kind: by it the other logs are judged, before it is known to be legal. At run time it
/// keeps only what follows from them, no entry.
#[derive(Drop)]
pub struct EntryList {
    alloc: Global,
    epochs: BTreeMap<Tid, u64>,
    committed: Tags,
    entries: Past<Entry>,
    length: u64,
}

impl Model for EntryList {
    ghost use Rattle.std.specs.Prelude.{List};
    ghost use Rattle.cw_txn.specs.declared.entry.Entry.{Entry};

    ghost Value = { List Entry };

    ghost use Rattle.cw_open.specs.Entries.{AreListed};

    ghost view = { λ a. a.entries.items };

    ghost invariant = { λ a. AreListed a.epochs a.committed a.entries.items a.length };
}

impl EntryList {
    /// The entries of all frames of the transaction log.
    pub fn of(alloc: Global, frames: &[Listed<Entry>]) -> Result<EntryList, AllocError>
        ensures { IfOk result (λ list. list ≡ joined frames.now) }
    {
        let mut list = EntryList::new(alloc);
        for at in 0..frames.len() {
            list.put_all(frames[at].as_slice())?;
        }
        Ok(list)
    }

    /// With no entry.
    pub fn new(alloc: Global) -> EntryList
        ensures { result ≡ [] }
    {
        EntryList {
            alloc,
            epochs: BTreeMap::new(alloc),
            committed: Tags::new(alloc),
            entries: Past::new(),
            length: 0,
        }
    }

    /// How many entries there are.
    pub fn length(&self) -> u64
        ensures { result ≡ length self.now }
    {
        self.length
    }

    /// How often the producer's epoch was bumped.
    pub fn epoch_of(&self, tid: &Tid) -> u64
        ensures { result ≡ epoch_of tid.now self.now }
    {
        value_at(&self.epochs, tid, 0)
    }

    /// Whether some entry commits the transaction.
    pub fn is_committed(&self, tag: &Tag) -> bool
        ensures { result ≡ is_committed tag.now self.now }
    {
        self.committed.has(tag)
    }

    fn put_all(&mut self, frame: &[Entry]) -> Result<(), AllocError>
        ensures { OnOk result (self.new ≡ self.old ++ frame.now) }
    {
        for at in 0..frame.len() {
            self.put(&frame[at])?;
        }
        Ok(())
    }

    /// Puts an entry behind these. An `Err` comes for want of memory, or where there would be 2^64 entries; nothing is
    /// said of the list behind it.
    pub fn put(&mut self, entry: &Entry) -> Result<(), AllocError>
        ensures { OnOk result (self.new ≡ self.old ++ entry.now ∷ []) }
    {
        if self.length == u64::MAX {
            return Err(AllocError);
        }
        match note(&mut self.epochs, &mut self.committed, entry) {
            Ok(()) => {
                self.entries = self.entries.and(entry);
                self.length += 1;
                Ok(())
            }
            Err(fault) => {
                self.epochs = BTreeMap::new(self.alloc);
                self.committed = Tags::new(self.alloc);
                self.entries = Past::new();
                self.length = 0;
                Err(fault)
            }
        }
    }
}

// One entry more in the tables.
fn note(
    epochs: &mut BTreeMap<Tid, u64>,
    committed: &mut Tags,
    entry: &Entry,
) -> Result<(), AllocError>
    requires { (tid : Tid) → epoch_at epochs.old tid + 1 < 2 ^ 64 }
    ensures { OnOk result (Notes entry.now epochs.old committed.old epochs.new committed.new) }
{
    match entry {
        Entry::Bump(tid) => {
            raise(epochs, tid)?;
            Ok(())
        }
        Entry::Commit { tag, .. } => {
            committed.add(tag)?;
            Ok(())
        }
        Entry::Set { .. } => Ok(()),
    }
}

fn raise(epochs: &mut BTreeMap<Tid, u64>, tid: &Tid) -> Result<(), AllocError>
    requires { epoch_at epochs.old tid.now + 1 < 2 ^ 64 }
    ensures { OnOk result ((q : Tid) → get tid_order epochs.new q ≡
        (if is_at (tid_order tid.now) q then Some (epoch_at epochs.old tid.now + 1) else get tid_order epochs.old q)) }
{
    let bumps = value_at(epochs, tid, 0);
    epochs.insert(tid.copy()?, bumps + 1)?;
    Ok(())
}
