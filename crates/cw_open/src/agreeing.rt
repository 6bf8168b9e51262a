//! Whether the feeds are those of which the committed records were read.
ghost use Rattle.std.specs.Prelude.{◌≡◌, ◌↔◌, ℕ, List, [], ◌∷◌, IfOk, IsTrue, false, length, map, ◌-◌};
ghost use Rattle.cw_feed.specs.Feeds.{IsOfSource};
ghost use Rattle.cw_feed.specs.Yield.{Yield};
ghost use Rattle.cw_io.specs.Shelf.{Files};
ghost use Rattle.cw_model.specs.Committed.{Agrees, BatchAgrees};

use crate::entries::EntryList;
use cw_data::{Batch, DataEntry};
use cw_feed::{Feeds, yields_are_one};
use cw_types::{Listed, PartKey};
use std::alloc::AllocError;

/// Whether what is committed of sources is what the feeds yield. Other feeds may be handed in under the same names.
pub fn feeds_agree(
    feeds: &Feeds,
    entries: &EntryList,
    frames: &[DataEntry],
) -> Result<bool, AllocError>
    ensures { IfOk result (λ agree. IsTrue agree ↔ Agrees feeds.now entries.now frames.now) }
{
    for at in 0..frames.len() {
        if !frame_agrees(feeds, entries, &frames[at])? {
            return Ok(false);
        }
    }
    Ok(true)
}

fn frame_agrees(feeds: &Feeds, entries: &EntryList, frame: &DataEntry) -> Result<bool, AllocError>
    ensures { IfOk result (λ agrees. IsTrue agrees ↔ Agrees feeds.now entries.now (frame.now ∷ [])) }
{
    match frame {
        DataEntry::Batch(batch) => {
            let agrees = batch_agrees(feeds, entries, batch)?;
            Ok(agrees)
        }
        DataEntry::Mark { .. } => Ok(true),
    }
}

fn batch_agrees(feeds: &Feeds, entries: &EntryList, batch: &Batch) -> Result<bool, AllocError>
    ensures { IfOk result (λ agrees. IsTrue agrees ↔ BatchAgrees feeds.now entries.now batch.now) }
{
    if !is_of_source(&batch.part) {
        return Ok(true);
    }
    if !entries.is_committed(&batch.tag) {
        return Ok(true);
    }
    let agrees = is_yield(feeds, batch)?;
    Ok(agrees)
}

fn is_of_source(part: &PartKey) -> bool
    ensures { IsTrue result ↔ IsOfSource part.now }
{
    match part {
        PartKey::File { .. } => true,
        PartKey::Seq { .. } => true,
        PartKey::Raw(_) => false,
        PartKey::Sink { .. } => false,
    }
}

// Whether the values of a batch are what its part yields there.
fn is_yield(feeds: &Feeds, batch: &Batch) -> Result<bool, AllocError>
    ensures { IfOk result (λ is. IsTrue is ↔
        Yield feeds.now batch.now.part batch.now.from batch.now.to batch.now.values) }
{
    yields_are_one();
    if !feeds.has_yield(&batch.part, batch.from, batch.to) {
        return Ok(false);
    }
    if !has_as_many(batch) {
        return Ok(false);
    }
    let records = feeds.yield_of(&batch.part, batch.from, batch.to)?;
    Ok(are_values(records.as_slice(), batch.values.as_slice()))
}

// Whether a batch of a sequence has as many values as the sequence has there, so that no more of them are made.
fn has_as_many(batch: &Batch) -> bool
    ensures { (feeds : Files) → result ≡ false →
        ¬ Yield feeds batch.now.part batch.now.from batch.now.to batch.now.values }
{
    match &batch.part {
        PartKey::Seq { .. } => counts(batch),
        _ => true,
    }
}

// Whether a batch has as many values as positions.
fn counts(batch: &Batch) -> bool
    ensures { IsTrue result ↔ (batch.now.to - batch.now.from ≡ length batch.now.values) }
{
    batch.to.saturating_sub(batch.from) == batch.values.as_slice().len() as u64
}

fn are_values(records: &[Vec<u8>], values: &[Listed<u8>]) -> bool
    ensures { IsTrue result ↔ (map (λ text. text.items) records.now ≡ values.now) }
{
    if records.len() != values.len() {
        return false;
    }
    for at in 0..records.len() {
        if !same_text(&records[at], &values[at]) {
            return false;
        }
    }
    true
}

fn same_text(text: &Vec<u8>, value: &Listed<u8>) -> bool
    ensures { IsTrue result ↔ (text.now.items ≡ value.now) }
{
    text.as_slice() == value.as_slice()
}
