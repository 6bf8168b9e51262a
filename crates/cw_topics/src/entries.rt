//! Entries of the transaction list: their memory is taken first, and they are put in once their frame stands in the
//! log.
ghost use Rattle.std.specs.Prelude.{◌≡◌, ◌<◌, ◌+◌, ◌^◌, ◌++◌, ◌∷◌, [], length, IfOk, OnOk};
ghost use Rattle.cw_types.specs.declared.ids.PartKey.{PartKey};
ghost use Rattle.cw_types.specs.declared.ids.Tid.{Tid as TidValue};
ghost use Rattle.cw_model.specs.Updates.{tid_of};
ghost use Rattle.cw_topics.specs.Entries.{IsReadied, with_readied};
ghost use Rattle.cw_txn.specs.Allowed.{IsAllowedBehind, IsAllowedCommit};
ghost use Rattle.cw_txn.specs.Body.{IsShort, AreShort};
ghost use Rattle.cw_txn.specs.declared.entry.Entry.TheVariants as entry;
ghost use Rattle.cw_txn.specs.History.{history, SpansChain};
ghost use Rattle.cw_txn.specs.Legal.{EachFrom, ChainsBehind, epoch_of};

use crate::frame::EntryFrame;
use crate::topics::Topics;
use cw_compact::hang;
use cw_txn::{Coordinator, Entry, SetOffset};
use cw_types::{Epoch, Item, Listed, Span, Tag, TaskId, Tid};
use std::alloc::{AllocError, Global};

impl Topics {
    /// Takes the memory of entries, and writes their frame.
    pub fn ready_entries(
        &mut self,
        alloc: Global,
        entries: Vec<Entry>,
    ) -> Result<EntryFrame, AllocError>
        requires { AreShort entries.items }
        ensures same { self.new ≡ record self.old {
          entries = record self.old.entries { reserved = self.new.entries.reserved };
        } }
        ensures frame { IfOk result (λ frame. frame ≡ entries.items) }
        ensures ready { OnOk result (self.new.entries.reserved ≡ entries.items) }
    {
        self.coordinator.release();
        reserve_each(&mut self.coordinator, entries.as_slice())?;
        EntryFrame::new(alloc, entries)
    }

    /// Takes the memory of one entry, and writes its frame.
    pub fn ready_entry(&mut self, alloc: Global, entry: Entry) -> Result<EntryFrame, AllocError>
        requires { IsShort entry }
        ensures same { self.new ≡ record self.old {
          entries = record self.old.entries { reserved = self.new.entries.reserved };
        } }
        ensures frame { IfOk result (λ frame. frame ≡ entry ∷ []) }
        ensures ready { OnOk result (self.new.entries.reserved ≡ entry ∷ []) }
    {
        let mut entries = Vec::new(alloc);
        entries.push(entry)?;
        self.ready_entries(alloc, entries)
    }

    /// Takes the memory of the bump of a task's producer, and writes its frame.
    pub fn ready_task_bump(&mut self, alloc: Global, item: &Item) -> Result<EntryFrame, AllocError>
        ensures same { self.new ≡ record self.old {
          entries = record self.old.entries { reserved = self.new.entries.reserved };
        } }
        ensures frame { IfOk result (λ frame. frame ≡ entry.Bump (tid_of item.now) ∷ []) }
        ensures ready { OnOk result (self.new.entries.reserved ≡ entry.Bump (tid_of item.now) ∷ []) }
    {
        let tid = tid_of(item)?;
        self.ready_entry(alloc, Entry::Bump(tid))
    }

    /// Puts in a bump that stands in the log. Its answer is the new epoch.
    pub fn put_bump(&mut self, frame: EntryFrame) -> Epoch
        requires bump { (tid : TidValue) × (frame ≡ entry.Bump tid ∷ []) }
        requires ready { self.old.entries.reserved ≡ frame }
        requires few { length self.old.txn < 2 ^ 62 }
        ensures put { self.new ≡ record self.old {
          txn = self.old.txn ++ frame ∷ [];
          entries = record { entries = self.old.entries.entries ++ frame; reserved = [] };
        } }
        ensures epoch { (tid : TidValue) → frame ≡ entry.Bump tid ∷ [] →
            result ≡ record { 0 = epoch_of tid self.old.entries.entries + 1 } }
    {
        let entries = self.put_entries(frame);
        self.epoch_given(entries.as_slice())
    }

    // The epoch that a bump gave.
    fn epoch_given(&self, entries: &[Entry]) -> Epoch
        ensures { (tid : TidValue) → entries.now ≡ entry.Bump tid ∷ [] →
            result.0 ≡ epoch_of tid self.now.entries.entries }
    {
        match entries {
            [Entry::Bump(tid)] => Epoch(self.coordinator.epoch_of(tid)),
            _ => Epoch(0),
        }
    }

    /// Puts in a frame that stands in the log. Each entry may stand behind those before it. It takes no memory, and
    /// gives the entries back.
    pub fn put_entries(&mut self, frame: EntryFrame) -> Listed<Entry>
        requires ready { self.old.entries.reserved ≡ frame }
        requires allowed { EachFrom IsAllowedBehind self.old.entries.entries frame }
        requires chains { (part : PartKey) → EachFrom (ChainsBehind part) self.old.entries.entries frame }
        requires few { length self.old.txn < 2 ^ 62 }
        ensures put { self.new ≡ record self.old {
          txn = self.old.txn ++ frame ∷ [];
          entries = record { entries = self.old.entries.entries ++ frame; reserved = [] };
        } }
        ensures entries { result ≡ frame }
    {
        let (entries, list) = frame.into_parts();
        hang(&mut self.txn, list);
        put_each(&mut self.coordinator, entries.as_slice());
        entries
    }
}

// Takes the memory of each entry.
fn reserve_each(coordinator: &mut Coordinator, entries: &[Entry]) -> Result<(), AllocError>
    requires { coordinator.old.reserved ≡ [] }
    ensures same { coordinator.new.entries ≡ coordinator.old.entries }
    ensures ok { OnOk result (coordinator.new.reserved ≡ entries.now) }
{
    for entry in entries {
        coordinator.reserve(entry)?;
    }
    Ok(())
}

// Puts in entries for which memory was taken.
fn put_each(coordinator: &mut Coordinator, entries: &[Entry])
    requires ready { coordinator.old.reserved ≡ entries.now }
    requires allowed { EachFrom IsAllowedBehind coordinator.old.entries entries.now }
    requires chains { (part : PartKey) → EachFrom (ChainsBehind part) coordinator.old.entries entries.now }
    ensures { coordinator.new ≡ record { entries = coordinator.old.entries ++ entries.now; reserved = [] } }
{
    for entry in entries {
        put_entry(coordinator, entry);
    }
}

// Puts in the entry for which memory was taken first.
fn put_entry(coordinator: &mut Coordinator, entry: &Entry)
    requires ready { IsReadied entry.now coordinator.old }
    requires allowed { IsAllowedBehind coordinator.old.entries entry.now }
    requires chains { (part : PartKey) → ChainsBehind part coordinator.old.entries entry.now }
    ensures { coordinator.new ≡ with_readied entry.now coordinator.old }
{
    match entry {
        Entry::Bump(tid) => put_bump(coordinator, tid),
        Entry::Commit {
            tag,
            generation,
            spans,
        } => put_commit(coordinator, tag, *generation, spans.as_slice()),
        Entry::Set { tid, epoch, list } => put_set(coordinator, tid, *epoch, list.as_slice()),
    }
}

// Bumps an epoch.
fn put_bump(coordinator: &mut Coordinator, tid: &Tid)
    requires { IsReadied (entry.Bump tid.now) coordinator.old }
    ensures { coordinator.new ≡ with_readied (entry.Bump tid.now) coordinator.old }
{
    match coordinator.bump(tid) {
        Ok(_) => {}
        Err(_) => unreachable!(),
    }
}

// Commits a transaction.
fn put_commit(coordinator: &mut Coordinator, tag: &Tag, generation: u64, spans: &[Span])
    requires ready { IsReadied (entry.Commit tag.now generation spans.now) coordinator.old }
    requires allowed { IsAllowedCommit coordinator.old.entries tag.now generation spans.now }
    requires chains { (part : PartKey) → SpansChain part (history part coordinator.old.entries) spans.now }
    ensures { coordinator.new ≡ with_readied (entry.Commit tag.now generation spans.now) coordinator.old }
{
    match coordinator.commit(tag, generation, spans) {
        Ok(()) => {}
        Err(_) => unreachable!(),
    }
}

// Sets offsets.
fn put_set(coordinator: &mut Coordinator, tid: &Tid, epoch: Epoch, list: &[SetOffset])
    requires ready { IsReadied (entry.Set tid.now epoch list.now) coordinator.old }
    requires epoch { epoch.0 ≡ epoch_of tid.now coordinator.old.entries }
    ensures { coordinator.new ≡ with_readied (entry.Set tid.now epoch list.now) coordinator.old }
{
    match coordinator.set(tid, epoch, list) {
        Ok(()) => {}
        Err(_) => unreachable!(),
    }
}

/// The producer of a task. A connector is none, and stands for its first one.
pub fn tid_of(item: &Item) -> Result<Tid, AllocError>
    ensures { IfOk result (λ tid. tid ≡ tid_of item.now) }
{
    match item {
        Item::Connector(name) => Ok(Tid::Task(TaskId {
            connector: name.copy()?,
            index: 0,
        })),
        Item::Task(id) => Ok(Tid::Task(id.copy()?)),
    }
}
