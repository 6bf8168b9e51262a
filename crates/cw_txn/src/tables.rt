//! What the coordinator keeps of its list, so that no look-up walks it: one ordered map for each of its questions.
ghost use Rattle.std.specs.Prelude.{◌≡◌, ◌<◌, ◌+◌, ◌^◌, ◌++◌, ◌∷◌, [], IfOk, OnOk, Some, All, List, if◌then◌else◌};
ghost use Rattle.std.specs.BTreeMap.{get, is_at, BTreeMap};
ghost use Rattle.cw_types.specs.declared.ids.Tid.{Tid};
ghost use Rattle.cw_types.specs.declared.ids.Tag.{Tag};
ghost use Rattle.cw_txn.specs.declared.entry.Entry.{Entry};

use crate::entry::{Entry, EntryRef};
use crate::epochs::{make_epoch, put_bump, raise_row};
use crate::history::History;
use crate::parts::{is_of, make_set_parts, make_span_parts, move_ends, put_ends, set_histories};
use cw_tables::{has_row, make_row, set_row, value_at};
use cw_types::{Name, PartKey, Tag, Tid};
use std::alloc::{AllocError, Global};
use std::collections::BTreeMap;

/// Whose epoch is this, is this committed, where does a part end?
#[derive(Drop)]
pub struct Tables {
    /// The last epoch of each producer.
    pub epochs: BTreeMap<Tid, u64>,
    /// Whether a transaction is committed. One for which room was made may have a row that says no.
    pub committed: BTreeMap<Tag, bool>,
    /// Where each part begins and ends.
    pub parts: BTreeMap<PartKey, History>,
}

impl Tables {
    ghost use Rattle.cw_txn.specs.Tables.{epoch_at, committed_at, history_at, entry_of, rows_from, first_parts, Keeps};
    ghost use Rattle.cw_txn.specs.Tables.{HasRows, KeepsRows, SameRows};
    ghost use Rattle.cw_types.specs.Same.{part_order};
    ghost use Rattle.cw_txn.specs.Walk.{IsChainTest};
    ghost use Rattle.std.specs.BTreeMap.{IsOrdered};

    /// Those of no entry.
    pub fn new(alloc: Global) -> Tables
        ensures { Keeps result [] }
    {
        Tables {
            epochs: BTreeMap::new(alloc),
            committed: BTreeMap::new(alloc),
            parts: BTreeMap::new(alloc),
        }
    }

    /// The producer's last epoch.
    pub fn epoch(&self, tid: &Tid) -> u64
        ensures { result ≡ epoch_at self.now.epochs tid.now }
    {
        value_at(&self.epochs, tid, 0)
    }

    /// Whether the transaction is committed.
    pub fn is_committed(&self, tag: &Tag) -> bool
        ensures { result ≡ committed_at self.now.committed tag.now }
    {
        value_at(&self.committed, tag, false)
    }

    /// Where the part begins and ends.
    pub fn history(&self, part: &PartKey) -> History
        ensures { result ≡ history_at self.now.parts part.now }
    {
        value_at(&self.parts, part, History::UNSET)
    }

    /// The parts of a connector that have an end, which stand side by side.
    pub fn parts_of(&self, alloc: Global, connector: &Name) -> Result<Vec<PartKey>, AllocError>
        ensures listed { IfOk result (λ parts.
            parts.items ≡ first_parts connector.now (rows_from connector.now self.now.parts.entries)) }
        ensures ordered { OnOk result (IsOrdered part_order self.now.parts) }
    {
        let mut parts = Vec::new(alloc);
        let first = PartKey::Seq {
            connector: connector.copy()?,
            index: 0,
        };
        for (part, history) in self.parts.range(first..) {
            if !is_of(part, connector) {
                return Ok(parts);
            }
            if history.end.is_some() {
                parts.push(part.copy()?)?;
            }
        }
        Ok(parts)
    }

    /// The rows that an entry changes, reading as before.
    pub fn make_rows(&mut self, entry: &EntryRef<'_>) -> Result<(), AllocError>
        ensures same { SameRows self.old self.new }
        ensures kept { KeepsRows self.old self.new }
        ensures there { OnOk result (HasRows self.new (entry_of entry.now)) }
    {
        match entry {
            EntryRef::Bump(tid) => make_epoch(&mut self.epochs, tid),
            EntryRef::Commit { tag, spans, .. } => {
                make_tag(&mut self.committed, tag)?;
                make_span_parts(&mut self.parts, spans)?;
                Ok(())
            }
            EntryRef::Set { list, .. } => {
                make_set_parts(&mut self.parts, list)?;
                Ok(())
            }
        }
    }

    /// One entry more, and the rows that it changes. It says whether every part chains at the entry, which is found on
    /// the way, so that each part is looked up once. An `Err` may leave a part of it.
    pub fn put(&mut self, entry: &Entry) -> Result<bool, AllocError>
        requires { (tid : Tid) → epoch_at self.old.epochs tid + 1 < 2 ^ 64 }
        ensures kept { OnOk result ((entries : List Entry) → Keeps self.old entries →
            Keeps self.new (entries ++ entry.now ∷ [])) }
        ensures chains { IfOk result (λ chains. (entries : List Entry) → Keeps self.old entries →
            IsChainTest entries entry.now chains) }
    {
        match entry {
            Entry::Bump(tid) => {
                put_bump(&mut self.epochs, tid)?;
                Ok(true)
            }
            Entry::Commit { tag, spans, .. } => {
                self.committed.insert(tag.copy()?, true)?;
                let chains = put_ends(&mut self.parts, spans.as_slice())?;
                Ok(chains)
            }
            Entry::Set { .. } => {
                let set = EntryRef::of(entry);
                self.make_rows(&set)?;
                self.add(&set);
                Ok(true)
            }
        }
    }

    /// One entry more, whose rows are there.
    pub fn add(&mut self, entry: &EntryRef<'_>)
        requires rows { HasRows self.old (entry_of entry.now) }
        requires small { (tid : Tid) → epoch_at self.old.epochs tid + 1 < 2 ^ 64 }
        ensures kept { (entries : List Entry) → Keeps self.old entries →
            Keeps self.new (entries ++ entry_of entry.now ∷ []) }
        ensures rows { KeepsRows self.old self.new }
    {
        match entry {
            EntryRef::Bump(tid) => {
                let _ = raise_row(&mut self.epochs, tid);
            }
            EntryRef::Commit { tag, spans, .. } => {
                set_row(&mut self.committed, tag, true);
                move_ends(&mut self.parts, spans);
            }
            EntryRef::Set { list, .. } => set_histories(&mut self.parts, list),
        }
    }
}

ghost use Rattle.cw_txn.specs.Tables.{HasTag, KeepsTags, SameTags};

// A row for a transaction, which reads as before.
fn make_tag(committed: &mut BTreeMap<Tag, bool>, tag: &Tag) -> Result<(), AllocError>
    ensures same { SameTags committed.old committed.new }
    ensures kept { KeepsTags committed.old committed.new }
    ensures there { OnOk result (HasTag committed.new tag.now) }
{
    if has_row(committed, tag) {
        return Ok(());
    }
    make_row(committed, tag.copy()?, false)
}
