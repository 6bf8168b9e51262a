//! What the transaction list says of transactions and parts.
ghost use Rattle.std.specs.Prelude.{◌≡◌, ◌+◌, ◌++◌, ◌∷◌, ◌&&◌, [], List, Some, None, OnOk, if◌then◌else◌};
ghost use Rattle.std.specs.List.{list_any};
ghost use Rattle.std.specs.BTreeMap.{get};
ghost use Rattle.cw_types.specs.declared.ids.Tid.{Tid};
ghost use Rattle.cw_types.specs.declared.ids.Tag.{Tag};
ghost use Rattle.cw_types.specs.declared.ids.PartKey.{PartKey};
ghost use Rattle.cw_types.specs.Same.{same_tid, same_tag, same_part, tag_order, part_order};
ghost use Rattle.cw_txn.specs.declared.entry.Entry.{Entry};
ghost use Rattle.cw_txn.specs.Legal.{verdict_of};
ghost use Rattle.cw_offset.specs.declared.body.OffsetEntry.{OffsetEntry};
ghost use Rattle.cw_offset.specs.Compaction.{is_outdated};
ghost use Rattle.cw_compact.specs.Stored.{AreStored, marked_at, stores_at};
ghost use Rattle.cw_compact.specs.Outcomes.{AreTables, AreOutcomes, epoch_at, first_of, is_later};

use crate::stored::Stored;
use cw_tables::{has_row, value_at};
use cw_txn::{Entry, SetOffset};
use cw_types::{PartKey, Span, Tag, Tid, Verdict};
use std::alloc::{AllocError, Global};
use std::collections::BTreeMap;

/// What a list of entries says.
#[derive(Drop)]
pub struct Outcomes {
    /// The last epoch of each producer.
    pub epochs: BTreeMap<Tid, u64>,
    /// Where each transaction was committed first.
    pub commits: BTreeMap<Tag, u64>,
    /// Where each part was set or replaced last.
    pub changes: BTreeMap<PartKey, u64>,
    /// How many entries there are.
    pub count: u64,
}

impl Outcomes {
    /// Before the first entry.
    pub fn new(alloc: Global) -> Outcomes
        ensures { (log : List OffsetEntry) → AreOutcomes result log [] }
    {
        Outcomes {
            epochs: BTreeMap::new(alloc),
            commits: BTreeMap::new(alloc),
            changes: BTreeMap::new(alloc),
            count: 0,
        }
    }

    /// One entry more, beside what the log has stored. An `Err` may leave a part of it.
    pub fn note(&mut self, stored: &Stored, entry: &Entry) -> Result<(), AllocError>
        ensures { OnOk result ((log : List OffsetEntry) (entries : List Entry) → AreStored stored.now.rows log →
            AreOutcomes self.old log entries → AreOutcomes self.new log (entries ++ entry.now ∷ [])) }
    {
        let Some(count) = self.count.checked_add(1) else {
            return Err(AllocError);
        };
        self.put(stored, entry)?;
        self.count = count;
        Ok(())
    }

    // What an entry makes of the tables, at the place behind those before it.
    fn put(&mut self, stored: &Stored, entry: &Entry) -> Result<(), AllocError>
        ensures tables { OnOk result ((log : List OffsetEntry) (entries : List Entry) → AreStored stored.now.rows log →
            AreOutcomes self.old log entries → AreTables self.new log (entries ++ entry.now ∷ [])) }
        ensures count { OnOk result (self.new.count ≡ self.old.count) }
    {
        match entry {
            Entry::Bump(tid) => {
                raise(&mut self.epochs, tid)?;
                Ok(())
            }
            Entry::Commit { tag, spans, .. } => {
                put_first(&mut self.commits, tag, self.count)?;
                put_spans(&mut self.changes, stored, tag, spans.as_slice(), self.count)?;
                Ok(())
            }
            Entry::Set { list, .. } => {
                put_sets(&mut self.changes, list.as_slice(), self.count)?;
                Ok(())
            }
        }
    }

    /// How a transaction ended.
    pub fn verdict(&self, tag: &Tag) -> Verdict
        ensures { (log : List OffsetEntry) (entries : List Entry) → AreOutcomes self.now log entries →
            result ≡ verdict_of entries tag.now }
    {
        if has_row(&self.commits, tag) {
            return Verdict::Committed;
        }
        if tag.epoch.0 < value_at(&self.epochs, &tag.tid, 0) {
            Verdict::Aborted
        } else {
            Verdict::Open
        }
    }

    /// Whether a part was set or replaced behind the commit of a transaction.
    pub fn is_outdated(&self, tag: &Tag, part: &PartKey) -> bool
        ensures { (log : List OffsetEntry) (entries : List Entry) → AreOutcomes self.now log entries →
            result ≡ is_outdated entries log tag.now part.now }
    {
        is_later(
            self.commits.get(tag).copied(),
            self.changes.get(part).copied(),
        )
    }
}

// Whether a change stands behind a commit.
fn is_later(commit: Option<u64>, change: Option<u64>) -> bool
    ensures { result ≡ is_later commit change }
{
    match (commit, change) {
        (Some(commit), Some(change)) => commit < change,
        _ => false,
    }
}

// The epoch of a producer is one higher.
fn raise(epochs: &mut BTreeMap<Tid, u64>, tid: &Tid) -> Result<(), AllocError>
    ensures { OnOk result ((q : Tid) → epoch_at epochs.new q ≡ (if same_tid tid.now q then epoch_at epochs.old q + 1
        else epoch_at epochs.old q)) }
{
    let Some(epoch) = value_at(epochs, tid, 0).checked_add(1) else {
        return Err(AllocError);
    };
    epochs.insert(tid.copy()?, epoch)?;
    Ok(())
}

// A transaction is committed at a place, unless it was before.
fn put_first(commits: &mut BTreeMap<Tag, u64>, tag: &Tag, place: u64) -> Result<(), AllocError>
    ensures { OnOk result ((q : Tag) → get tag_order commits.new q
        ≡ first_of (get tag_order commits.old q) (if same_tag tag.now q then Some place else None)) }
{
    if has_row(commits, tag) {
        return Ok(());
    }
    commits.insert(tag.copy()?, place)?;
    Ok(())
}

// The parts of spans are replaced at a place, where the log has a marker of their transaction and a record of them.
fn put_spans(
    changes: &mut BTreeMap<PartKey, u64>,
    stored: &Stored,
    tag: &Tag,
    spans: &[Span],
    place: u64,
) -> Result<(), AllocError>
    ensures { OnOk result ((q : PartKey) → get part_order changes.new q
        ≡ (if list_any (λ span. same_part q span.part) spans.now &&
        (marked_at stored.now.rows tag.now && stores_at stored.now.rows tag.now q)
        then Some place else get part_order changes.old q)) }
{
    for span in spans {
        put_span(changes, stored, tag, span, place)?;
    }
    Ok(())
}

// The part of one span.
fn put_span(
    changes: &mut BTreeMap<PartKey, u64>,
    stored: &Stored,
    tag: &Tag,
    span: &Span,
    place: u64,
) -> Result<(), AllocError>
    ensures { OnOk result ((q : PartKey) → get part_order changes.new q
        ≡ (if same_part q span.now.part && (marked_at stored.now.rows tag.now && stores_at stored.now.rows tag.now q)
        then Some place else get part_order changes.old q)) }
{
    if !stored.replaces(tag, &span.part) {
        return Ok(());
    }
    changes.insert(span.part.copy()?, place)?;
    Ok(())
}

// Parts are set at a place.
fn put_sets(
    changes: &mut BTreeMap<PartKey, u64>,
    list: &[SetOffset],
    place: u64,
) -> Result<(), AllocError>
    ensures { OnOk result ((q : PartKey) → get part_order changes.new q
        ≡ (if list_any (λ set. same_part q set.part) list.now then Some place else get part_order changes.old q)) }
{
    for set in list {
        changes.insert(set.part.copy()?, place)?;
    }
    Ok(())
}
