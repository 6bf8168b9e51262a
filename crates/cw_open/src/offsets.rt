//! The offset log.
ghost use Rattle.std.specs.Prelude.{◌≡◌, ◌↔◌, [], IfOk, IsTrue, IsSome, Some, false};
ghost use Rattle.std.specs.List.{list_any};
ghost use Rattle.cw_types.specs.Same.{same_tag};
ghost use Rattle.cw_keys.specs.Offsets.{offset_of};
ghost use Rattle.cw_offset.specs.declared.body.OffsetEntry.{OffsetEntry};
ghost use Rattle.cw_offset.specs.Acceptance.{IsAllowedStored, IsAllowedOffset, IsKnown, IsOffsetOf};
ghost use Rattle.cw_model.specs.StandsFor.{judged};
ghost use Rattle.cw_open.specs.Judging.{Says, Steps, StepsAll};
ghost use Rattle.cw_open.specs.Passed.{ArePassedOffsets, TakesOffsets};

use crate::entries::EntryList;
use crate::marks::{is_allowed_mark, is_known};
use crate::rising::Rising;
use crate::tags::Tags;
use cw_bytes::{Applied, Mark};
use cw_keys::{KeyFault, read_offset, read_part};
use cw_offset::OffsetEntry;
use cw_types::{PartKey, Tag};
use std::alloc::{AllocError, Global};

/// The first frame of the offset log that may not stand behind those before it.
pub fn first_offsets_not_allowed(
    alloc: Global,
    entries: &EntryList,
    frames: &[OffsetEntry],
) -> Result<Option<u64>, AllocError>
    ensures { IfOk result (Says (judged (IsAllowedStored entries.now) frames.now)) }
{
    let mut passed = PassedOffsets::new(alloc);
    for at in 0..frames.len() {
        if !take(alloc, &mut passed, entries, &frames[at])? {
            return Ok(Some(at as u64));
        }
    }
    Ok(None)
}

/// What is kept of frames of the offset log: their records, and the transactions that have records and markers there.
#[derive(Drop)]
pub(crate) struct PassedOffsets {
    records: Rising,
    there: Tags,
    marked: Tags,
}

impl PassedOffsets {
    fn new(alloc: Global) -> PassedOffsets
        ensures { ArePassedOffsets result [] }
    {
        PassedOffsets {
            records: Rising::new(),
            there: Tags::new(alloc),
            marked: Tags::new(alloc),
        }
    }
}

fn take(
    alloc: Global,
    passed: &mut PassedOffsets,
    entries: &EntryList,
    entry: &OffsetEntry,
) -> Result<bool, AllocError>
    ensures { IfOk result (TakesOffsets entries.now passed.old entry.now passed.new) }
{
    match entry {
        OffsetEntry::Records { tag, records } => {
            take_records(alloc, passed, entries, tag, records.as_slice())
        }
        OffsetEntry::Mark(mark) => take_mark(passed, entries, mark),
    }
}

fn take_records(
    alloc: Global,
    passed: &mut PassedOffsets,
    entries: &EntryList,
    tag: &Tag,
    records: &[Applied],
) -> Result<bool, AllocError>
    ensures { IfOk result (TakesOffsets entries.now passed.old (OffsetEntry.Records tag.now records.now) passed.new) }
{
    if !may_have_records(passed, entries, tag) {
        return Ok(false);
    }
    if !take_all(alloc, &mut passed.records, records)? {
        return Ok(false);
    }
    passed.there.add(tag)?;
    Ok(true)
}

fn take_mark(
    passed: &mut PassedOffsets,
    entries: &EntryList,
    mark: &Mark,
) -> Result<bool, AllocError>
    ensures { IfOk result (TakesOffsets entries.now passed.old (OffsetEntry.Mark mark.now) passed.new) }
{
    if !is_allowed_mark(
        entries,
        &passed.there,
        &passed.marked,
        &mark.tag,
        mark.committed,
    ) {
        return Ok(false);
    }
    passed.marked.add(&mark.tag)?;
    Ok(true)
}

// Whether records of a transaction may stand here: its epoch is known, and it isn't marked yet.
fn may_have_records(passed: &PassedOffsets, entries: &EntryList, tag: &Tag) -> bool
    ensures { IsTrue result ↔
        (IsKnown entries.now tag.now × (list_any (same_tag tag.now) passed.now.marked ≡ false)) }
{
    is_known(entries, tag) && !passed.marked.has(tag)
}

fn take_all(alloc: Global, passed: &mut Rising, records: &[Applied]) -> Result<bool, AllocError>
    ensures { IfOk result (StepsAll IsAllowedOffset passed.old records.now passed.new) }
{
    for at in 0..records.len() {
        if !take_offset(alloc, passed, &records[at])? {
            return Ok(false);
        }
    }
    Ok(true)
}

fn take_offset(alloc: Global, passed: &mut Rising, applied: &Applied) -> Result<bool, AllocError>
    ensures { IfOk result (Steps IsAllowedOffset passed.old applied.now passed.new) }
{
    if !is_allowed(alloc, passed, applied)? {
        return Ok(false);
    }
    passed.add(applied);
    Ok(true)
}

fn is_allowed(alloc: Global, passed: &Rising, applied: &Applied) -> Result<bool, AllocError>
    ensures { IfOk result (λ allowed. IsTrue allowed ↔ IsAllowedOffset passed.now applied.now) }
{
    let offset = is_offset(alloc, applied)?;
    Ok(offset && passed.is_below(applied.offset))
}

// Whether a record has a part as its key, and as its value an offset of that part.
fn is_offset(alloc: Global, applied: &Applied) -> Result<bool, AllocError>
    ensures { IfOk result (λ is. IsTrue is ↔ IsOffsetOf applied.now.key applied.now.value) }
{
    match &applied.value {
        Some(value) => is_offset_under(alloc, applied.key.as_slice(), value.as_slice()),
        None => Ok(false),
    }
}

fn is_offset_under(alloc: Global, key: &[u8], value: &[u8]) -> Result<bool, AllocError>
    ensures { IfOk result (λ is. IsTrue is ↔ IsOffsetOf key.now (Some value.now)) }
{
    match read_part(alloc, key) {
        Ok(part) => is_offset_of(alloc, &part, value),
        Err(KeyFault::Memory) => Err(AllocError),
        Err(KeyFault::BadKey) => Ok(false),
        Err(KeyFault::BadValue) => Ok(false),
    }
}

fn is_offset_of(alloc: Global, part: &PartKey, value: &[u8]) -> Result<bool, AllocError>
    ensures { IfOk result (λ is. IsTrue is ↔ IsSome (offset_of part.now value.now)) }
{
    match read_offset(alloc, part, value) {
        Ok(_) => Ok(true),
        Err(KeyFault::Memory) => Err(AllocError),
        Err(KeyFault::BadKey) => Ok(false),
        Err(KeyFault::BadValue) => Ok(false),
    }
}
