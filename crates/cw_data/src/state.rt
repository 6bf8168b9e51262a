//! The data log.
ghost use Rattle.std.specs.Prelude.{◌≡◌, ◌<◌, ◌+◌, ◌^◌, ◌≤◌, ◌++◌, ◌∷◌, [], ℕ, List, length, Contains, OnOk, OnErr};
ghost use Rattle.std.specs.Prelude.{IsOk, MatchOption, true, false, option_copied, vec_len, vec_capacity};
ghost use Rattle.std.specs.Option.{option_map};
ghost use Rattle.cw_data.specs.declared.entry.DataEntry.{DataEntry};
ghost use Rattle.cw_data.specs.Log.{records, stable, taken, first_unmarked};

use crate::entry::{Batch, DataEntry, EntryRef, value_at};
use crate::tables::Tables;
use crate::topic::push_made;
use crate::unmarked::first_ended;
use cw_types::{Decided, Name, Tag};
use std::alloc::{AllocError, Global};
use std::marker::Model;

/// The list of all batches and markers, and what follows from it.
/// Look-ups take no memory and never walk the list.
#[derive(Drop)]
pub struct DataState {
    alloc: Global,
    entries: Vec<DataEntry>,
    reserved: Vec<DataEntry>,
    tables: Tables,
}

impl Model for DataState {
    ghost use Rattle.std.specs.Prelude.{vec_capacity};
    ghost use Rattle.cw_data.specs.DataLog.{DataLog};

    ghost Value = { DataLog };

    ghost use Rattle.cw_data.specs.Tables.{IsDataLog};

    ghost view = { λ a. record { entries = a.entries.items; reserved = a.reserved.items } };

    ghost invariant = { λ a. IsDataLog a.tables a.entries.items a.reserved.items (vec_capacity a.entries) };
}

impl DataState {
    ghost use Rattle.cw_data.specs.DataLog.{DataLog, Adds};

    /// With no entry.
    pub fn new(alloc: Global) -> DataState
        ensures { result ≡ record { entries = []; reserved = [] } }
    {
        DataState {
            alloc,
            entries: Vec::new(alloc),
            reserved: Vec::new(alloc),
            tables: Tables::new(alloc),
        }
    }

    /// The batches and markers, the oldest first.
    pub fn entries(&self) -> &[DataEntry]
        ensures { result.now ≡ self.now.entries }
    {
        self.entries.as_slice()
    }

    /// The log end offset of a topic: how many records it has, committed or not.
    pub fn end(&self, topic: &Name) -> u64
        ensures { result ≡ length (records topic.now self.now.entries) }
    {
        match self.tables.topic(topic) {
            Some(kept) => kept.end,
            None => 0,
        }
    }

    /// The last stable offset of a topic: the place of its first record without marker, else its end
    /// (KIP-98, read_committed).
    pub fn stable(&self, topic: &Name) -> u64
        ensures { result ≡ stable topic.now self.now.entries }
    {
        match self.tables.topic(topic) {
            Some(kept) => kept.stable(),
            None => 0,
        }
    }

    /// The first committed record of a topic from an offset on and below the last stable offset, with its
    /// offset (KIP-98, read_committed).
    pub fn take(&self, topic: &Name, from: u64) -> Option<(u64, &[u8])>
        ensures { option_map {U = ℕ × List ℕ} (λ p. (p.0, p.1.now)) result ≡ taken topic.now from self.now.entries }
    {
        let row = self.tables.topic(topic)?.find(from)?;
        let offset = row.first.max(from);
        let value = value_at(&self.entries, row.place, (offset - row.first) as usize)?;
        Some((offset, value))
    }

    /// The first transaction of the log that has ended and has no marker.
    pub fn first_unmarked<T: Decided>(&self, txn: &T) -> Option<&Tag>
        ensures { option_copied result ≡ first_unmarked (T.verdict_of txn.now) self.now.entries }
    {
        first_ended(&self.tables.unmarked.order, &self.entries, txn)
    }

    /// Makes room for a batch, so that adding it once can't want memory.
    pub fn reserve_batch(&mut self, batch: &Batch) -> Result<(), AllocError>
        ensures ok { OnOk result (self.new ≡ record self.old {
          reserved =
              self.old.reserved ++ DataEntry.Batch batch.now ∷ [];
        }) }
        ensures err { OnErr result (self.new ≡ self.old) }
    {
        self.reserve(&EntryRef::Batch(batch))
    }

    /// Makes room for a marker, so that adding it once can't want memory.
    pub fn reserve_mark(&mut self, tag: &Tag, committed: bool) -> Result<(), AllocError>
        ensures ok { OnOk result (self.new ≡ record self.old {
          reserved =
              self.old.reserved ++ DataEntry.Mark tag.now committed ∷ [];
        }) }
        ensures err { OnErr result (self.new ≡ self.old) }
    {
        self.reserve(&EntryRef::Mark { tag, committed })
    }

    /// Gives up all that is reserved.
    pub fn unreserve(&mut self)
        ensures { self.new ≡ record self.old { reserved = [] } }
    {
        self.reserved.clear();
    }

    /// Adds a batch behind all others.
    pub fn batch(&mut self, batch: Batch) -> Result<(), AllocError>
        requires { length (records batch.topic self.old.entries) + length batch.values < 2 ^ 64 }
        ensures ok { OnOk result (Adds (DataEntry.Batch batch) self.old self.new) }
        ensures err { OnErr result (self.new ≡ self.old) }
        ensures reserved { Contains self.old.reserved (DataEntry.Batch batch) → IsOk result }
    {
        if self.add_reserved(&EntryRef::Batch(&batch)) {
            return Ok(());
        }
        self.add_new(DataEntry::Batch(batch))
    }

    /// Adds a marker of a transaction behind all entries. A transaction's first marker counts.
    pub fn mark(&mut self, tag: &Tag, committed: bool) -> Result<(), AllocError>
        ensures ok { OnOk result (Adds (DataEntry.Mark tag.now committed) self.old self.new) }
        ensures err { OnErr result (self.new ≡ self.old) }
        ensures reserved { Contains self.old.reserved (DataEntry.Mark tag.now committed) → IsOk result }
    {
        if self.add_reserved(&EntryRef::Mark { tag, committed }) {
            return Ok(());
        }
        let tag = tag.copy()?;
        self.add_new(DataEntry::Mark { tag, committed })
    }

    ghost use Rattle.cw_data.specs.Tables.{entry_of, FitsBehind};

    // Adds an entry from the room that was reserved for it, if there is any.
    fn add_reserved(&mut self, entry: &EntryRef<'_>) -> bool
        requires { FitsBehind self.old.entries (entry_of entry.now) }
        ensures done { result ≡ true → Adds (entry_of entry.now) self.old self.new }
        ensures absent { result ≡ false → ¬ Contains self.old.reserved (entry_of entry.now) }
        ensures same { result ≡ false → self.new ≡ self.old }
    {
        match place_of(&self.reserved, entry) {
            Some(at) => {
                let reserved = self.reserved.remove(at);
                settle(&mut self.tables, &mut self.entries, reserved);
                true
            }
            None => false,
        }
    }

    // Adds an entry that isn't reserved.
    fn add_new(&mut self, entry: DataEntry) -> Result<(), AllocError>
        requires absent { ¬ Contains self.old.reserved entry }
        requires fits { FitsBehind self.old.entries entry }
        ensures ok { OnOk result (Adds entry self.old self.new) }
        ensures err { OnErr result (self.new ≡ self.old) }
    {
        make_room(
            self.alloc,
            &mut self.tables,
            &mut self.entries,
            &self.reserved,
            &EntryRef::of(&entry),
        )?;
        settle(&mut self.tables, &mut self.entries, entry);
        Ok(())
    }

    fn reserve(&mut self, entry: &EntryRef<'_>) -> Result<(), AllocError>
        ensures ok { OnOk result (self.new ≡ record self.old {
          reserved =
              self.old.reserved ++ entry_of entry.now ∷ [];
        }) }
        ensures err { OnErr result (self.new ≡ self.old) }
    {
        make_room(
            self.alloc,
            &mut self.tables,
            &mut self.entries,
            &self.reserved,
            entry,
        )?;
        self.reserved.push(entry.to_entry(self.alloc)?)?;
        Ok(())
    }
}

ghost use Rattle.cw_data.specs.Tables.{entry_of, IsFirstAt, Keeps, HasRoom, FitsBehind};

// The first place of an entry in a list.
fn place_of(entries: &[DataEntry], entry: &EntryRef<'_>) -> Option<usize>
    ensures { MatchOption result (¬ Contains entries.now (entry_of entry.now))
        (λ at. IsFirstAt (entry_of entry.now) entries.now at) }
{
    for at in 0..entries.len() {
        if entry.is(&entries[at]) {
            return Some(at);
        }
    }
    None
}

// Rows for an entry, which change no meaning, and places for it beside those that are reserved.
fn make_room(
    alloc: Global,
    tables: &mut Tables,
    entries: &mut Vec<DataEntry>,
    reserved: &[DataEntry],
    entry: &EntryRef<'_>,
) -> Result<(), AllocError>
    requires { HasRoom tables.old reserved.now }
    ensures entries { entries.new.items ≡ entries.old.items }
    ensures room { vec_capacity entries.old ≤ vec_capacity entries.new }
    ensures more { OnOk result (vec_len entries.new + length reserved.now + 1 ≤ vec_capacity entries.new) }
    ensures kept { (list : List DataEntry) → Keeps tables.old list → Keeps tables.new list }
    ensures has { HasRoom tables.new reserved.now }
    ensures there { OnOk result (HasRoom tables.new (reserved.now ++ entry_of entry.now ∷ [])) }
{
    tables.make_rows(alloc, reserved, entry)?;
    entries.reserve(reserved.len() + 1)
}

// Adds an entry for which there is room.
fn settle(tables: &mut Tables, entries: &mut Vec<DataEntry>, entry: DataEntry)
    requires room { vec_len entries.old < vec_capacity entries.old }
    requires has { HasRoom tables.old (entry ∷ []) }
    requires kept { Keeps tables.old entries.old.items }
    requires fits { FitsBehind entries.old.items entry }
    ensures pushed { entries.new.items ≡ entries.old.items ++ entry ∷ [] }
    ensures room { vec_capacity entries.old ≤ vec_capacity entries.new }
    ensures kept { Keeps tables.new entries.new.items }
    ensures has { (front back : List DataEntry) → HasRoom tables.old (front ++ entry ∷ back) →
        HasRoom tables.new (front ++ back) }
{
    let place = entries.len();
    push_made(entries, entry);
    tables.add(entries.as_slice(), place);
}
