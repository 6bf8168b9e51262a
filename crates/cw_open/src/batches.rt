//! The data log.
ghost use Rattle.std.specs.Prelude.{◌≡◌, ◌↔◌, [], All, IfOk, OnOk, IsTrue, Some, true, if◌then◌else◌};
ghost use Rattle.std.specs.BTreeMap.{get, is_at};
ghost use Rattle.cw_data.specs.declared.entry.DataEntry.{DataEntry};
ghost use Rattle.cw_feed.specs.Yield.{IsLine};
ghost use Rattle.cw_model.specs.Allowed.{IsAllowedData};
ghost use Rattle.cw_model.specs.StandsFor.{judged};
ghost use Rattle.cw_open.specs.Judging.{Says};
ghost use Rattle.cw_open.specs.PassedBatches.{key_order, ArePassedBatches, TakesData, MayStand};
ghost use Rattle.cw_open.specs.declared.batches.BatchKey.{BatchKey};

use crate::entries::EntryList;
use crate::marks::{is_allowed_mark, is_known};
use crate::tags::Tags;
use cw_data::{Batch, DataEntry};
use cw_types::{Listed, PartKey, Tag};
use std::alloc::{AllocError, Global};
use std::collections::BTreeMap;

/// The first frame of the data log that may not stand behind those before it.
pub fn first_batches_not_allowed(
    alloc: Global,
    entries: &EntryList,
    frames: &[DataEntry],
) -> Result<Option<u64>, AllocError>
    ensures { IfOk result (Says (judged (IsAllowedData entries.now) frames.now)) }
{
    let mut passed = PassedBatches::new(alloc);
    for at in 0..frames.len() {
        if !take(&mut passed, entries, &frames[at])? {
            return Ok(Some(at as u64));
        }
    }
    Ok(None)
}

/// A batch as it is looked for: by its transaction and its part.
#[derive(PartialEq, Eq, PartialOrd, Ord, Drop)]
pub(crate) struct BatchKey {
    tag: Tag,
    part: PartKey,
}

/// What is kept of frames of the data log: their batches, and the transactions that have batches and markers there.
#[derive(Drop)]
pub(crate) struct PassedBatches {
    batches: BTreeMap<BatchKey, bool>,
    there: Tags,
    marked: Tags,
}

impl PassedBatches {
    fn new(alloc: Global) -> PassedBatches
        ensures { ArePassedBatches result [] }
    {
        PassedBatches {
            batches: BTreeMap::new(alloc),
            there: Tags::new(alloc),
            marked: Tags::new(alloc),
        }
    }
}

fn take(
    passed: &mut PassedBatches,
    entries: &EntryList,
    entry: &DataEntry,
) -> Result<bool, AllocError>
    ensures { IfOk result (TakesData entries.now passed.old entry.now passed.new) }
{
    match entry {
        DataEntry::Batch(batch) => take_batch(passed, entries, batch),
        DataEntry::Mark { tag, committed } => take_mark(passed, entries, tag, *committed),
    }
}

fn take_batch(
    passed: &mut PassedBatches,
    entries: &EntryList,
    batch: &Batch,
) -> Result<bool, AllocError>
    ensures { IfOk result (TakesData entries.now passed.old (DataEntry.Batch batch.now) passed.new) }
{
    let key = key_of(batch)?;
    if !may_stand(passed, entries, batch, &key) {
        return Ok(false);
    }
    note(&mut passed.batches, key)?;
    passed.there.add(&batch.tag)?;
    Ok(true)
}

fn take_mark(
    passed: &mut PassedBatches,
    entries: &EntryList,
    tag: &Tag,
    committed: bool,
) -> Result<bool, AllocError>
    ensures { IfOk result (TakesData entries.now passed.old (DataEntry.Mark tag.now committed) passed.new) }
{
    if !is_allowed_mark(entries, &passed.there, &passed.marked, tag, committed) {
        return Ok(false);
    }
    passed.marked.add(tag)?;
    Ok(true)
}

// Gives a batch a row.
fn note(rows: &mut BTreeMap<BatchKey, bool>, key: BatchKey) -> Result<(), AllocError>
    ensures { OnOk result ((q : BatchKey) → get key_order rows.new q ≡
        (if is_at (key_order key) q then Some true else get key_order rows.old q)) }
{
    rows.insert(key, true)?;
    Ok(())
}

fn key_of(batch: &Batch) -> Result<BatchKey, AllocError>
    ensures { IfOk result (λ key. key ≡ record { tag = batch.now.tag; part = batch.now.part }) }
{
    Ok(BatchKey {
        tag: batch.tag.copy()?,
        part: batch.part.copy()?,
    })
}

// Whether a batch with this key is a transaction's first of its part, its epoch known, and no line ends in its values.
fn may_stand(passed: &PassedBatches, entries: &EntryList, batch: &Batch, key: &BatchKey) -> bool
    ensures { IsTrue result ↔ MayStand entries.now passed.now batch.now key.now }
{
    is_known(entries, &batch.tag)
        && !passed.batches.contains_key(key)
        && are_lines(batch.values.as_slice())
}

fn are_lines(values: &[Listed<u8>]) -> bool
    ensures { IsTrue result ↔ All IsLine values.now }
{
    values.iter().all(|value| is_line(value.as_slice()))
}

fn is_line(value: &[u8]) -> bool
    ensures { IsTrue result ↔ IsLine value.now }
{
    value.iter().all(|byte| *byte != 10)
}
