//! The offset log as it is kept in memory: what is told of its frames, and its next offset.
ghost use Rattle.std.specs.Prelude.{◌≡◌, ◌<◌, ◌+◌, ◌^◌, ◌++◌, ◌∷◌, [], ℕ, max, length, Some, false, IfOk, OnOk, OnErr};
ghost use Rattle.std.specs.Prelude.{option_copied};
ghost use Rattle.std.specs.List.{AllByRecursion, flat_map};
ghost use Rattle.cw_types.specs.declared.ids.Tag.{Tag as TagValue};
ghost use Rattle.cw_bytes.specs.Frames.{joined, next_after};
ghost use Rattle.cw_txn.specs.Legal.{verdict_of};
ghost use Rattle.cw_offset.specs.declared.call.OffsetCall.TheVariants as call;
ghost use Rattle.cw_offset.specs.Log.{offset_tag, offset_records, is_marked, first_unmarked};
ghost use Rattle.cw_offset.specs.Body.{HasRecords};
ghost use Rattle.cw_offset.specs.Compaction.{compact_offsets};
ghost use Rattle.cw_offset.specs.Replay.{replayed, told_in};
ghost use Rattle.cw_topics.specs.Left.{IsLeftLog};
ghost use Rattle.cw_topics.specs.Offsets.{IsNext, IsFirst, with_call, raised};

use crate::left_offsets::LeftOffsetLog;
use crate::offset_frame::OffsetFrame;
use crate::replaying::replay;
use cw_bytes::Applied;
use cw_compact::{copy_txn, hang, left_offsets, list_of, list_offsets};
use cw_offset::{OffsetCall, OffsetEntry, OffsetState};
use cw_txn::{Coordinator, Entry};
use cw_types::{Listed, PartKey, Tag};
use std::alloc::{AllocError, Global};
use std::collections::LinkedList;
use std::marker::Model;

/// The offset log.
#[derive(Drop)]
pub struct OffsetLog {
    frames: LinkedList<OffsetEntry>,
    side: u64,
    next: Option<u64>,
    state: OffsetState,
}

impl Model for OffsetLog {
    ghost use Rattle.cw_topics.specs.Offsets.{OffsetLogState, IsOffsetLog};

    ghost Value = { OffsetLogState };

    ghost view = { λ l. record { frames = l.frames; side = l.side; told = l.state } };

    ghost invariant = { λ l. IsOffsetLog l.frames l.next l.state.calls };
}

impl OffsetLog {
    /// Empty, of a side with the number 1.
    pub(crate) fn new(alloc: Global) -> OffsetLog
        ensures { result ≡ record { frames = []; side = 1; told = record { calls = []; reserved = [] } } }
    {
        OffsetLog {
            frames: LinkedList::new(alloc),
            side: 1,
            next: Some(0),
            state: OffsetState::new(alloc),
        }
    }

    /// Of a side with this number, with the frames that a log is opened with, behind the entries of the transaction
    /// log's frames.
    pub(crate) fn opened(
        alloc: Global,
        frames: &[OffsetEntry],
        side: u64,
        txn: &[Listed<Entry>],
        coordinator: &Coordinator,
    ) -> Result<OffsetLog, AllocError>
        requires { coordinator.now.entries ≡ joined txn.now }
        ensures { IfOk result (λ log. log ≡ record {
          frames = frames.now;
          side = side;
          told = record { calls = replayed (joined txn.now) frames.now; reserved = [] };
        }) }
    {
        let state = replay(alloc, frames, txn, coordinator)?;
        let next = next_of(frames);
        let frames = list_offsets(alloc, frames)?;
        Ok(OffsetLog {
            frames,
            side,
            next,
            state,
        })
    }

    /// The next offset; none where all are used.
    pub(crate) fn next(&self) -> Option<u64>
        ensures { IsNext (next_after (flat_map offset_records self.now.frames)) result }
    {
        self.next
    }

    /// The first transaction, by its place in the log, that has ended and waits for its marker.
    pub fn first_unmarked(&self, txn: &Coordinator) -> Option<&Tag>
        ensures { option_copied result ≡ first_unmarked (verdict_of txn.now.entries) self.now.frames }
    {
        self.state.first_unmarked(txn)
    }

    /// Takes the memory of calls.
    pub(crate) fn reserve(&mut self, calls: &[OffsetCall]) -> Result<(), AllocError>
        ensures same { self.new ≡ record self.old {
          told = record self.old.told { reserved = self.new.told.reserved };
        } }
        ensures ready { OnOk result (self.new.told.reserved ≡ calls.now) }
    {
        self.state.unreserve();
        reserve_each(&mut self.state, calls)
    }

    /// Puts in a frame that stands in the log, and gives its entry back. It takes no memory.
    pub(crate) fn put(&mut self, frame: OffsetFrame) -> OffsetEntry
        requires ready { self.old.told.reserved ≡ told_in frame }
        requires unmarked { (tag : TagValue) → offset_tag frame ≡ Some tag →
            is_marked tag self.old.frames ≡ false }
        requires few { length self.old.frames < 2 ^ 62 }
        ensures put { self.new ≡ record self.old {
          frames = self.old.frames ++ frame ∷ [];
          told = record { calls = self.old.told.calls ++ told_in frame; reserved = [] };
        } }
        ensures entry { result ≡ frame }
    {
        let (entry, list, calls) = frame.into_parts();
        self.next = next_behind(self.next, &entry);
        tell_each(&mut self.state, calls.as_slice());
        hang(&mut self.frames, list);
        entry
    }

    /// What a compaction leaves of it, beside the frames of the transaction log.
    pub(crate) fn left(
        &self,
        alloc: Global,
        txn: &LinkedList<Listed<Entry>>,
        coordinator: &Coordinator,
    ) -> Result<LeftOffsetLog, AllocError>
        requires whole { coordinator.now.entries ≡ joined txn.now }
        requires written { AllByRecursion HasRecords (compact_offsets (joined txn.now) self.now.frames) }
        ensures { IfOk result (IsLeftLog self.now.frames (compact_offsets (joined txn.now) self.now.frames)) }
    {
        let txn = copy_txn(alloc, txn)?;
        let left = left_offsets(alloc, txn.as_slice(), &self.frames)?;
        let log = log_of(alloc, left.frames, self.side, txn.as_slice(), coordinator)?;
        Ok(LeftOffsetLog {
            log,
            bodies: left.bodies,
            before: left.before,
            after: left.after,
        })
    }

    /// The same on the side of this number.
    pub(crate) fn on_side(self, side: u64) -> OffsetLog
        ensures { result ≡ record self { side = side } }
    {
        OffsetLog {
            frames: self.frames,
            side,
            next: self.next,
            state: self.state,
        }
    }
}

// The log of frames that a compaction has left, behind the entries of the transaction log's frames.
fn log_of(
    alloc: Global,
    frames: Vec<OffsetEntry>,
    side: u64,
    txn: &[Listed<Entry>],
    coordinator: &Coordinator,
) -> Result<OffsetLog, AllocError>
    requires { coordinator.now.entries ≡ joined txn.now }
    ensures { IfOk result (λ log. log ≡ record {
      frames = frames.items;
      side = side;
      told = record { calls = replayed (joined txn.now) frames.items; reserved = [] };
    }) }
{
    let state = replay(alloc, frames.as_slice(), txn, coordinator)?;
    let next = next_of(frames.as_slice());
    let frames = list_of(alloc, frames)?;
    Ok(OffsetLog {
        frames,
        side,
        next,
        state,
    })
}

// The next offset behind entries.
fn next_of(frames: &[OffsetEntry]) -> Option<u64>
    ensures { IsNext (next_after (flat_map offset_records frames.now)) result }
{
    let mut next = Some(0);
    for frame in frames {
        next = next_behind(next, frame);
    }
    next
}

// The next offset behind an entry.
fn next_behind(next: Option<u64>, entry: &OffsetEntry) -> Option<u64>
    ensures { (n : ℕ) → IsNext n next → IsNext (raised n (offset_records entry.now)) result }
{
    match entry {
        OffsetEntry::Records { records, .. } => raised(next, records.as_slice()),
        OffsetEntry::Mark(_) => next,
    }
}

// The next offset behind records.
fn raised(next: Option<u64>, records: &[Applied]) -> Option<u64>
    ensures { (n : ℕ) → IsNext n next → IsNext (raised n records.now) result }
{
    let mut end = next;
    for record in records {
        end = above(end, record.offset);
    }
    end
}

// The next offset behind a record.
fn above(next: Option<u64>, offset: u64) -> Option<u64>
    ensures { (n : ℕ) → IsNext n next → IsNext (max n (offset + 1)) result }
{
    let end = next?;
    if offset < end {
        return Some(end);
    }
    offset.checked_add(1)
}

// Takes the memory of each call.
fn reserve_each(state: &mut OffsetState, calls: &[OffsetCall]) -> Result<(), AllocError>
    requires { state.old.reserved ≡ [] }
    ensures same { state.new.calls ≡ state.old.calls }
    ensures ok { OnOk result (state.new.reserved ≡ calls.now) }
{
    for call in calls {
        reserve(state, call)?;
    }
    Ok(())
}

// Takes the memory of a call.
fn reserve(state: &mut OffsetState, call: &OffsetCall) -> Result<(), AllocError>
    ensures ok { OnOk result (state.new ≡ record state.old { reserved = state.old.reserved ++ call.now ∷ [] }) }
    ensures err { OnErr result (state.new ≡ state.old) }
{
    match call {
        OffsetCall::Stand(tag) => state.reserve_stand(tag),
        OffsetCall::Put { tag, part, to } => state.reserve_put(tag, part, *to),
        OffsetCall::Commit(tag) => state.reserve_commit(tag),
        OffsetCall::Abort(tag) => state.reserve_abort(tag),
        OffsetCall::Set { part, to } => state.reserve_set(part, *to),
    }
}

// Makes calls for which memory was taken.
fn tell_each(state: &mut OffsetState, calls: &[OffsetCall])
    requires { state.old.reserved ≡ calls.now }
    ensures { state.new ≡ record { calls = state.old.calls ++ calls.now; reserved = [] } }
{
    for call in calls {
        tell(state, call);
    }
}

// Makes the call for which memory was taken first.
fn tell(state: &mut OffsetState, call: &OffsetCall)
    requires { IsFirst call.now state.old }
    ensures { state.new ≡ with_call call.now state.old }
{
    match call {
        OffsetCall::Stand(tag) => tell_stand(state, tag),
        OffsetCall::Put { tag, part, to } => tell_put(state, tag, part, *to),
        OffsetCall::Commit(tag) => tell_commit(state, tag),
        OffsetCall::Abort(tag) => tell_abort(state, tag),
        OffsetCall::Set { part, to } => tell_set(state, part, *to),
    }
}

// A transaction's records stand in the log.
fn tell_stand(state: &mut OffsetState, tag: &Tag)
    requires { IsFirst (call.Stand tag.now) state.old }
    ensures { state.new ≡ with_call (call.Stand tag.now) state.old }
{
    match state.stand(tag) {
        Ok(()) => {}
        Err(_) => unreachable!(),
    }
}

// An offset of a part is stored under a transaction.
fn tell_put(state: &mut OffsetState, tag: &Tag, part: &PartKey, to: u64)
    requires { IsFirst (call.Put tag.now part.now to) state.old }
    ensures { state.new ≡ with_call (call.Put tag.now part.now to) state.old }
{
    match state.put(tag, part, to) {
        Ok(()) => {}
        Err(_) => unreachable!(),
    }
}

// A transaction is marked as committed.
fn tell_commit(state: &mut OffsetState, tag: &Tag)
    requires { IsFirst (call.Commit tag.now) state.old }
    ensures { state.new ≡ with_call (call.Commit tag.now) state.old }
{
    match state.commit(tag) {
        Ok(()) => {}
        Err(_) => unreachable!(),
    }
}

// A transaction is marked as aborted.
fn tell_abort(state: &mut OffsetState, tag: &Tag)
    requires { IsFirst (call.Abort tag.now) state.old }
    ensures { state.new ≡ with_call (call.Abort tag.now) state.old }
{
    match state.abort(tag) {
        Ok(()) => {}
        Err(_) => unreachable!(),
    }
}

// The offset of a part is set.
fn tell_set(state: &mut OffsetState, part: &PartKey, to: Option<u64>)
    requires { IsFirst (call.Set part.now to) state.old }
    ensures { state.new ≡ with_call (call.Set part.now to) state.old }
{
    match state.set(part, to) {
        Ok(()) => {}
        Err(_) => unreachable!(),
    }
}
