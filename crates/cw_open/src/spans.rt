//! The spans that have a batch.
ghost use Rattle.std.specs.Prelude.{◌≡◌, ◌↔◌, [], ◌∷◌, ◌++◌, List, IfOk, OnOk, IsTrue, Some, true, is_some};
ghost use Rattle.std.specs.Prelude.{if◌then◌else◌};
ghost use Rattle.std.specs.List.{Any, AllByRecursion};
ghost use Rattle.std.specs.BTreeMap.{get, is_at};
ghost use Rattle.cw_data.specs.declared.entry.DataEntry.{DataEntry};
ghost use Rattle.cw_model.specs.Committed.{batches_of};
ghost use Rattle.cw_model.specs.StandsFor.{IsBatchFor};
ghost use Rattle.cw_open.specs.Backing.{AreBatchSpans, span_order};
ghost use Rattle.cw_open.specs.declared.spans.SpanKey.{SpanKey};

use cw_data::{Batch, DataEntry};
use cw_types::{PartKey, Span, Tag};
use std::alloc::{AllocError, Global};
use std::collections::BTreeMap;

/// A span of a transaction, as it is looked for.
#[derive(PartialEq, Eq, PartialOrd, Ord, Drop)]
pub(crate) struct SpanKey {
    tag: Tag,
    part: PartKey,
    from: u64,
    to: u64,
}

/// The spans of which the data log has a batch.
#[derive(Drop)]
pub(crate) struct BatchSpans {
    rows: BTreeMap<SpanKey, bool>,
}

impl BatchSpans {
    /// Those of the batches among these entries.
    pub(crate) fn of(alloc: Global, log: &[DataEntry]) -> Result<BatchSpans, AllocError>
        ensures { IfOk result (λ spans. AreBatchSpans spans log.now) }
    {
        let mut spans = BatchSpans {
            rows: BTreeMap::new(alloc),
        };
        for at in 0..log.len() {
            put(&mut spans, &log[at])?;
        }
        Ok(spans)
    }

    /// Whether each of these spans of a transaction has a batch.
    pub(crate) fn have(&self, tag: &Tag, spans: &[Span]) -> Result<bool, AllocError>
        ensures { IfOk result (λ have. (log : List DataEntry) → AreBatchSpans self.now log → IsTrue have ↔
            AllByRecursion (λ span. Any (IsBatchFor tag.now span) (batches_of log)) spans.now) }
    {
        for at in 0..spans.len() {
            if !self.has(tag, &spans[at])? {
                return Ok(false);
            }
        }
        Ok(true)
    }

    fn has(&self, tag: &Tag, span: &Span) -> Result<bool, AllocError>
        ensures { IfOk result (λ has. (log : List DataEntry) → AreBatchSpans self.now log → IsTrue has ↔
            Any (IsBatchFor tag.now span.now) (batches_of log)) }
    {
        let key = key_for(tag, span)?;
        Ok(self.rows.contains_key(&key))
    }
}

fn key_for(tag: &Tag, span: &Span) -> Result<SpanKey, AllocError>
    ensures { IfOk result (λ key. key ≡ record {
      tag = tag.now;
      part = span.now.part;
      from = span.now.from;
      to = span.now.to;
    }) }
{
    Ok(SpanKey {
        tag: tag.copy()?,
        part: span.part.copy()?,
        from: span.from,
        to: span.to,
    })
}

fn put(spans: &mut BatchSpans, entry: &DataEntry) -> Result<(), AllocError>
    ensures { OnOk result ((log : List DataEntry) → AreBatchSpans spans.old log →
        AreBatchSpans spans.new (log ++ entry.now ∷ [])) }
{
    match entry {
        DataEntry::Batch(batch) => {
            put_batch(spans, batch)?;
            Ok(())
        }
        DataEntry::Mark { .. } => Ok(()),
    }
}

fn put_batch(spans: &mut BatchSpans, batch: &Batch) -> Result<(), AllocError>
    ensures { OnOk result ((log : List DataEntry) → AreBatchSpans spans.old log →
        AreBatchSpans spans.new (log ++ DataEntry.Batch batch.now ∷ [])) }
{
    let key = key_of(batch)?;
    note(&mut spans.rows, key)?;
    Ok(())
}

fn key_of(batch: &Batch) -> Result<SpanKey, AllocError>
    ensures { IfOk result (λ key. key ≡ record {
      tag = batch.now.tag;
      part = batch.now.part;
      from = batch.now.from;
      to = batch.now.to;
    }) }
{
    Ok(SpanKey {
        tag: batch.tag.copy()?,
        part: batch.part.copy()?,
        from: batch.from,
        to: batch.to,
    })
}

fn note(rows: &mut BTreeMap<SpanKey, bool>, key: SpanKey) -> Result<(), AllocError>
    ensures { OnOk result ((q : SpanKey) → get span_order rows.new q ≡
        (if is_at (span_order key) q then Some true else get span_order rows.old q)) }
{
    rows.insert(key, true)?;
    Ok(())
}
