//! What a script's producers write to the transaction list.
ghost use Rattle.std.specs.Prelude.{◌≡◌, ◌≢◌, ◌≤◌, ◌++◌, ◌∷◌, [], ℕ, List, length, map, Ok, Err, IfOk, OnOk};
ghost use Rattle.std.specs.Prelude.{MatchResult, true};
ghost use Rattle.std.specs.List.{find};
ghost use Rattle.cw_types.specs.declared.ids.PartKey.{PartKey as PartValue};
ghost use Rattle.cw_types.specs.declared.ids.Span.{Span as SpanValue};
ghost use Rattle.cw_types.specs.declared.ids.Tag.{Tag as TagValue};
ghost use Rattle.cw_txn.specs.Allowed.{AreAllowed};
ghost use Rattle.cw_txn.specs.Legal.{Chains};
ghost use Rattle.cw_model.specs.declared.fault.WorldFault.{WorldFault as FaultValue};
ghost use Rattle.cw_model.specs.declared.fault.WorldFault.TheVariants as fault;
ghost use Rattle.cw_types.specs.declared.ids.Tid.TheVariants as tid;
ghost use Rattle.cw_types.specs.declared.logs.LogName.TheVariants as log;
ghost use Rattle.cw_txn.specs.Body.{entries_bytes};
ghost use Rattle.cw_txn.specs.declared.entry.Entry.TheVariants as entry;
ghost use Rattle.cw_model.specs.Bodies.{frame_of, has_room};
ghost use Rattle.cw_model.specs.EventsRaw.{raw_init, raw_commit, raw_commit_of, raw_span, is_bad_span};
ghost use Rattle.cw_rows.specs.Entries.{raw_commit_in};
ghost use Rattle.cw_rows.specs.Kept.{open_test};
ghost use Rattle.cw_rows.specs.Tests.{raw_test, bad_test};
ghost use Rattle.cw_rows.specs.Writes.{bytes_in, Readies, Refuses, Puts};

use crate::cluster::Cluster;
use crate::fenced::test_epoch;
use cw_model::WorldFault;
use cw_topics::{EntryFrame, Topics, spans_of};
use cw_txn::{Coordinator, Entry};
use cw_types::{Epoch, Listed, PartKey, Span, Tag, Tid};
use std::alloc::{AllocError, Global};

impl Cluster {
    /// Takes the memory of a script's producer's next epoch.
    pub fn ready_raw_init(&mut self, n: u32) -> Result<EntryFrame, WorldFault>
        ensures due { MatchResult result
            (λ frame. Readies log.Txn (raw_init n) (entries_bytes frame) self.old self.new)
            (λ fault. Refuses (raw_init n) fault self.old self.new) }
        ensures passed { OnOk result (open_test self.old.state.closed (Ok tt) ≡ Ok tt) }
        ensures frame { IfOk result (λ frame. frame ≡ entry.Bump (tid.Raw n) ∷ []) }
        ensures ready { IfOk result (λ frame. self.new.ready ≡ frame) }
    {
        self.test_open()?;
        let Ok(frame) = self
            .topics
            .ready_entry(self.alloc, Entry::Bump(Tid::Raw(n)))
        else {
            return Err(WorldFault::Memory);
        };
        Ok(frame)
    }

    /// A script's producer gets its next epoch, whose bump stands in the log: the answer is the epoch.
    pub fn put_raw_init(&mut self, n: u32, frame: EntryFrame) -> Epoch
        requires passed { open_test self.old.state.closed (Ok tt) ≡ Ok tt }
        requires frame { frame ≡ entry.Bump (tid.Raw n) ∷ [] }
        requires ready { self.old.ready ≡ frame }
        requires room { has_room (bytes_in log.Txn self.old.state) (frame_of (entries_bytes frame)) ≡ true }
        ensures { Puts (raw_init n) result self.old self.new }
    {
        self.topics.put_bump(frame)
    }

    /// Takes the memory of a commit of parts up to new ends.
    pub fn ready_raw_commit(
        &mut self,
        n: u32,
        epoch: Epoch,
        list: &[(u32, u64)],
    ) -> Result<EntryFrame, WorldFault>
        requires { length list.now ≤ 16 }
        ensures due { MatchResult result
            (λ frame. Readies log.Txn (raw_commit n epoch list.now) (entries_bytes frame) self.old self.new)
            (λ fault. Refuses (raw_commit n epoch list.now) fault self.old self.new) }
        ensures passed { OnOk result (raw_test n epoch list.now self.old.state ≡ Ok tt) }
        ensures frame { IfOk result (λ frame. frame ≡ raw_commit_in n epoch list.now self.old.state.entries ∷ []) }
        ensures ready { IfOk result (λ frame. self.new.ready ≡ frame) }
    {
        let spans = self.raw_spans(n, epoch, list)?;
        let Ok(frame) = ready_raw_commit(&mut self.topics, self.alloc, n, epoch, spans) else {
            return Err(WorldFault::Memory);
        };
        Ok(frame)
    }

    /// A script's producer has committed parts up to new ends, and its commit stands in the log: the answer is the
    /// spans.
    pub fn put_raw_commit(
        &mut self,
        n: u32,
        epoch: Epoch,
        list: &[(u32, u64)],
        frame: EntryFrame,
    ) -> Listed<Span>
        requires passed { raw_test n epoch list.now self.old.state ≡ Ok tt }
        requires frame { frame ≡ raw_commit_in n epoch list.now self.old.state.entries ∷ [] }
        requires ready { self.old.ready ≡ frame }
        requires allowed { AreAllowed (self.old.state.entries ++ frame) }
        requires chains { (part : PartValue) → Chains part (self.old.state.entries ++ frame) }
        requires room { has_room (bytes_in log.Txn self.old.state) (frame_of (entries_bytes frame)) ≡ true }
        ensures { Puts (raw_commit n epoch list.now) result self.old self.new }
    {
        let entries = self.topics.put_entries(frame);
        spans_in(self.alloc, entries)
    }

    // The spans of parts up to new ends. They are refused where writing has ended, the producer is fenced, or one of
    // them doesn't grow its part.
    fn raw_spans(&self, n: u32, epoch: Epoch, list: &[(u32, u64)]) -> Result<Vec<Span>, WorldFault>
        ensures passed { OnOk result (raw_test n epoch list.now self.now.state ≡ Ok tt) }
        ensures spans { IfOk result (λ spans. spans.items ≡ map (raw_span self.now.state.entries) list.now) }
        ensures refused { (why : FaultValue) → result ≡ Err why → why ≢ fault.Memory →
            raw_test n epoch list.now self.now.state ≡ Err why }
    {
        self.test_open()?;
        let coordinator = self.topics.coordinator();
        test_epoch(epoch.0, coordinator.epoch_of(&Tid::Raw(n)))?;
        let Ok(spans) = raw_spans(self.alloc, coordinator, list) else {
            return Err(WorldFault::Memory);
        };
        test_spans(spans.as_slice())?;
        Ok(spans)
    }
}

// Takes the memory of a script's producer's commit, and writes its frame.
fn ready_raw_commit(
    topics: &mut Topics,
    alloc: Global,
    n: u32,
    epoch: Epoch,
    spans: Vec<Span>,
) -> Result<EntryFrame, AllocError>
    requires { length spans.items ≤ 16 }
    ensures same { topics.new ≡ record topics.old {
      entries = record topics.old.entries { reserved = topics.new.entries.reserved };
    } }
    ensures frame { IfOk result (λ frame. frame ≡
        raw_commit_of n epoch spans.items topics.old.entries.entries ∷ []) }
    ensures ready { OnOk result (topics.new.entries.reserved ≡
        raw_commit_of n epoch spans.items topics.old.entries.entries ∷ []) }
{
    let tag = Tag {
        number: topics.coordinator().length(),
        epoch,
        tid: Tid::Raw(n),
    };
    let entry = Entry::Commit {
        tag,
        generation: 0,
        spans: Listed::new(spans),
    };
    topics.ready_entry(alloc, entry)
}

// The spans of parts from their ends on up to new ones.
fn raw_spans(
    alloc: Global,
    coordinator: &Coordinator,
    list: &[(u32, u64)],
) -> Result<Vec<Span>, AllocError>
    ensures { IfOk result (λ spans. spans.items ≡ map (raw_span coordinator.now.entries) list.now) }
{
    let mut spans = Vec::new(alloc);
    for pair in list {
        spans.push(raw_span(coordinator, pair.0, pair.1))?;
    }
    Ok(spans)
}

// The span of a part from its end on up to a new one.
fn raw_span(coordinator: &Coordinator, part: u32, to: u64) -> Span
    ensures { result ≡ raw_span coordinator.now.entries (part, to) }
{
    let part = PartKey::Raw(part);
    let from = coordinator.end_of(&part).unwrap_or(0);
    Span { part, from, to }
}

// Whether each span grows its part.
fn test_spans(spans: &[Span]) -> Result<(), WorldFault>
    ensures { result ≡ bad_test (find is_bad_span spans.now) }
{
    for span in spans {
        if span.to <= span.from {
            return Err(WorldFault::BadCut {
                from: span.from,
                to: span.to,
            });
        }
    }
    Ok(())
}

// The spans of a commit.
fn spans_in(alloc: Global, entries: Listed<Entry>) -> Listed<Span>
    ensures { (tag : TagValue) (generation : ℕ) (spans : List SpanValue) →
        entries ≡ entry.Commit tag generation spans ∷ [] → result ≡ spans }
{
    match spans_of(entries) {
        Some(spans) => spans,
        None => Listed::new(Vec::new(alloc)),
    }
}
