//! What a source's task writes to the transaction list.
ghost use Rattle.std.specs.Prelude.{◌≡◌, ◌<◌, ◌++◌, ◌∷◌, [], ℕ, length, slice_index_or, Ok, IfOk, OnOk, MatchResult};
ghost use Rattle.std.specs.Prelude.{true};
ghost use Rattle.cw_types.specs.declared.ids.PartKey.{PartKey as PartValue};
ghost use Rattle.cw_types.specs.declared.ids.PartKey.TheVariants as part;
ghost use Rattle.cw_types.specs.declared.ids.Span.{Span as SpanValue};
ghost use Rattle.cw_types.specs.declared.ids.Tag.{Tag as TagValue};
ghost use Rattle.cw_txn.specs.Allowed.{AreAllowed};
ghost use Rattle.cw_txn.specs.Legal.{Chains};
ghost use Rattle.cw_types.specs.declared.logs.LogName.TheVariants as log;
ghost use Rattle.cw_txn.specs.Body.{entries_bytes};
ghost use Rattle.cw_txn.specs.declared.entry.Entry.TheVariants as entry;
ghost use Rattle.cw_model.specs.Bodies.{frame_of, has_room};
ghost use Rattle.cw_model.specs.EventsSources.{init, commit};
ghost use Rattle.cw_model.specs.Lookups.{instance_of};
ghost use Rattle.cw_model.specs.Tasks.{span_of, part_at};
ghost use Rattle.cw_model.specs.Updates.{tid_of};
ghost use Rattle.cw_rows.specs.Entries.{commit_of};
ghost use Rattle.cw_rows.specs.Kept.{instance_test};
ghost use Rattle.cw_rows.specs.Tests.{producer_test};
ghost use Rattle.cw_rows.specs.Writes.{bytes_in, Readies, Refuses, Puts};

use crate::cluster::Cluster;
use crate::crew::cut_of;
use cw_model::{Instance, WorldFault};
use cw_topics::{EntryFrame, Topics, spans_of};
use cw_txn::Entry;
use cw_types::{Epoch, Listed, PartKey, Span, Tag, Tid};
use std::alloc::{AllocError, Global};

impl Cluster {
    /// Takes the memory of a new task's epoch.
    pub fn ready_init(&mut self, i: u64) -> Result<EntryFrame, WorldFault>
        requires { i < length self.old.state.instances }
        ensures due { MatchResult result
            (λ frame. Readies log.Txn (init i) (entries_bytes frame) self.old self.new)
            (λ fault. Refuses (init i) fault self.old self.new) }
        ensures passed { OnOk result (instance_test i self.old.state ≡ Ok tt) }
        ensures frame { IfOk result (λ frame. frame ≡
            entry.Bump (tid_of (instance_of i self.old.state).item) ∷ []) }
        ensures ready { IfOk result (λ frame. self.new.ready ≡ frame) }
    {
        self.test_instance(i)?;
        let Ok(frame) = self
            .topics
            .ready_task_bump(self.alloc, &self.crew.instance(i).item)
        else {
            return Err(WorldFault::Memory);
        };
        Ok(frame)
    }

    /// A new task gets the epoch of its producer, whose bump stands in the log: the answer is the epoch.
    pub fn put_init(&mut self, i: u64, frame: EntryFrame) -> Epoch
        requires there { i < length self.old.state.instances }
        requires passed { instance_test i self.old.state ≡ Ok tt }
        requires frame { frame ≡ entry.Bump (tid_of (instance_of i self.old.state).item) ∷ [] }
        requires ready { self.old.ready ≡ frame }
        requires room { has_room (bytes_in log.Txn self.old.state) (frame_of (entries_bytes frame)) ≡ true }
        ensures { Puts (init i) result self.old self.new }
    {
        let epoch = self.topics.put_bump(frame);
        self.crew.init(i, epoch);
        epoch
    }

    /// Takes the memory of a task's commit.
    pub fn ready_commit(&mut self, i: u64) -> Result<EntryFrame, WorldFault>
        requires { i < length self.old.state.instances }
        ensures due { MatchResult result
            (λ frame. Readies log.Txn (commit i) (entries_bytes frame) self.old self.new)
            (λ fault. Refuses (commit i) fault self.old self.new) }
        ensures passed { OnOk result (producer_test i self.old.state ≡ Ok tt) }
        ensures frame { IfOk result (λ frame. frame ≡ commit_of (instance_of i self.old.state) ∷ []) }
        ensures ready { IfOk result (λ frame. self.new.ready ≡ frame) }
    {
        let tid = self.producer(i)?;
        let Ok(frame) = ready_commit(&mut self.topics, self.alloc, self.crew.instance(i), tid)
        else {
            return Err(WorldFault::Memory);
        };
        Ok(frame)
    }

    /// A task's transaction is committed, and its commit stands in the log: the answer is the span.
    pub fn put_commit(&mut self, i: u64, frame: EntryFrame) -> Span
        requires there { i < length self.old.state.instances }
        requires passed { producer_test i self.old.state ≡ Ok tt }
        requires frame { frame ≡ commit_of (instance_of i self.old.state) ∷ [] }
        requires ready { self.old.ready ≡ frame }
        requires allowed { AreAllowed (self.old.state.entries ++ frame) }
        requires chains { (part : PartValue) → Chains part (self.old.state.entries ++ frame) }
        requires room { has_room (bytes_in log.Txn self.old.state) (frame_of (entries_bytes frame)) ≡ true }
        ensures { Puts (commit i) result self.old self.new }
    {
        let entries = self.topics.put_entries(frame);
        self.crew.commit(i);
        span_in(entries)
    }
}

// Takes the memory of a task's commit, and writes its frame.
fn ready_commit(
    topics: &mut Topics,
    alloc: Global,
    own: &Instance,
    tid: Tid,
) -> Result<EntryFrame, AllocError>
    requires { tid ≡ tid_of own.now.item }
    ensures same { topics.new ≡ record topics.old {
      entries = record topics.old.entries { reserved = topics.new.entries.reserved };
    } }
    ensures frame { IfOk result (λ frame. frame ≡ commit_of own.now ∷ []) }
    ensures ready { OnOk result (topics.new.entries.reserved ≡ commit_of own.now ∷ []) }
{
    let entry = commit_of(alloc, own, tid)?;
    topics.ready_entry(alloc, entry)
}

// What a task commits.
fn commit_of(alloc: Global, own: &Instance, tid: Tid) -> Result<Entry, AllocError>
    requires { tid ≡ tid_of own.now.item }
    ensures { IfOk result (λ entry. entry ≡ commit_of own.now) }
{
    let mut spans = Vec::new(alloc);
    spans.push(span_of(own)?)?;
    let tag = Tag {
        number: own.number,
        epoch: own.epoch.unwrap_or(Epoch(0)),
        tid,
    };
    Ok(Entry::Commit {
        tag,
        generation: own.generation,
        spans: Listed::new(spans),
    })
}

/// The span of what a task took last.
pub(crate) fn span_of(own: &Instance) -> Result<Span, AllocError>
    ensures { IfOk result (λ span. span ≡ span_of own.now) }
{
    let cut = cut_of(own);
    Ok(Span {
        part: part_at(own, cut.turn)?,
        from: cut.from,
        to: cut.to,
    })
}

/// The part of a turn of a task, or a script's first one where it has none.
pub(crate) fn part_at(own: &Instance, turn: u32) -> Result<PartKey, AllocError>
    ensures { IfOk result (λ part. part ≡ part_at turn own.now) }
{
    match &own.task {
        Some(task) => part_in(task.parts.as_slice(), turn as usize),
        None => Ok(PartKey::Raw(0)),
    }
}

fn part_in(parts: &[PartKey], turn: usize) -> Result<PartKey, AllocError>
    ensures { IfOk result (λ found. found ≡ slice_index_or parts.now turn (part.Raw 0)) }
{
    match parts.get(turn) {
        Some(part) => part.copy(),
        None => Ok(PartKey::Raw(0)),
    }
}

// The one span of a commit.
fn span_in(entries: Listed<Entry>) -> Span
    ensures { (tag : TagValue) (generation : ℕ) (span : SpanValue) →
        entries ≡ entry.Commit tag generation (span ∷ []) ∷ [] → result ≡ span }
{
    match spans_of(entries) {
        Some(spans) => last_of(spans),
        None => no_span(),
    }
}

fn last_of(spans: Listed<Span>) -> Span
    ensures { (span : SpanValue) → spans ≡ span ∷ [] → result ≡ span }
{
    let mut spans = spans.into_vec();
    match spans.pop() {
        Some(span) => span,
        None => no_span(),
    }
}

fn no_span() -> Span {
    Span {
        part: PartKey::Raw(0),
        from: 0,
        to: 0,
    }
}
