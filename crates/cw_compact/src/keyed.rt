//! What a compaction by keys leaves of a log.
ghost use Rattle.std.specs.Prelude.{◌≡◌, ◌-◌, ◌++◌, ◌∷◌, ◌==◌, [], not, List, length, take, IfOk, OnOk, if◌then◌else◌};
ghost use Rattle.std.specs.List.{filter, filter_map};
ghost use Rattle.cw_bytes.specs.Frames.{joined, staying};
ghost use Rattle.cw_config.specs.declared.records.ConfigRecord.{ConfigRecord};
ghost use Rattle.cw_config.specs.Compaction.{compact_configs, keyed};
ghost use Rattle.cw_compact.specs.Clean.{IsClean};
ghost use Rattle.cw_compact.specs.Lasts.{stays};
ghost use Rattle.cw_status.specs.Compaction.{compact_statuses};

use crate::clean::Clean;
use crate::key::keyed;
use crate::lasts::Lasts;
use cw_bytes::Applied;
use cw_types::Listed;
use std::alloc::{AllocError, Global};

/// The status log as a compaction leaves it: of each connector and task the last status stays. The frames come with
/// their records; one of which none stays goes.
pub fn compact_statuses(
    alloc: Global,
    frames: Vec<Listed<Applied>>,
) -> Result<Vec<Listed<Applied>>, AllocError>
    ensures { IfOk result (λ kept. kept.items ≡ compact_statuses frames.items) }
{
    let count = count_of(frames.as_slice())?;
    compact_before(alloc, frames, count)
}

/// The config log as a compaction leaves it: of each key the last record stays, and so does all that stands where a
/// task's config still waits for its commit. The frames come with their records; one of which none stays goes.
pub fn compact_configs(
    alloc: Global,
    frames: Vec<Listed<Applied>>,
) -> Result<Vec<Listed<Applied>>, AllocError>
    ensures { IfOk result (λ kept. kept.items ≡ compact_configs frames.items) }
{
    let clean = clean_of(alloc, frames.as_slice())?;
    compact_before(alloc, frames, clean.point)
}

// What is known of all records of the config log.
fn clean_of(alloc: Global, frames: &[Listed<Applied>]) -> Result<Clean, AllocError>
    ensures { IfOk result (λ clean. IsClean clean (filter_map keyed (joined frames.now))) }
{
    let mut clean = Clean::new(alloc);
    for frame in frames {
        note_keyed(alloc, &mut clean, frame.as_slice())?;
    }
    Ok(clean)
}

// Looks at the keys of a frame.
fn note_keyed(alloc: Global, clean: &mut Clean, records: &[Applied]) -> Result<(), AllocError>
    ensures { OnOk result ((before : List ConfigRecord) → IsClean clean.old before →
        IsClean clean.new (before ++ filter_map keyed records.now)) }
{
    for record in records {
        note_key(alloc, clean, record)?;
    }
    Ok(())
}

// Looks at the key of a record.
fn note_key(alloc: Global, clean: &mut Clean, written: &Applied) -> Result<(), AllocError>
    ensures { OnOk result ((before : List ConfigRecord) → IsClean clean.old before →
        IsClean clean.new (before ++ filter_map keyed (written.now ∷ []))) }
{
    match keyed(alloc, written)? {
        Some(read) => clean.note(&read),
        None => Ok(()),
    }
}

// Of so many records from the first on, only the last one of each key stays.
fn compact_before(
    alloc: Global,
    frames: Vec<Listed<Applied>>,
    count: usize,
) -> Result<Vec<Listed<Applied>>, AllocError>
    ensures { IfOk result (λ kept. kept.items ≡ staying (stays (take count (joined frames.items))) frames.items) }
{
    let lasts = lasts_of(alloc, frames.as_slice(), count)?;
    keep(alloc, frames, &lasts)
}

/// How many records there are. No memory holds more than the greatest number.
pub(crate) fn count_of(frames: &[Listed<Applied>]) -> Result<usize, AllocError>
    ensures { IfOk result (λ count. count ≡ length (joined frames.now)) }
{
    let mut count = 0usize;
    for frame in frames {
        count = match count.checked_add(frame.as_slice().len()) {
            Some(count) => count,
            None => return Err(AllocError),
        };
    }
    Ok(count)
}

// So many records from the first on.
fn lasts_of(alloc: Global, frames: &[Listed<Applied>], count: usize) -> Result<Lasts, AllocError>
    ensures { IfOk result (λ lasts. lasts ≡ take count (joined frames.now)) }
{
    let mut lasts = Lasts::new(alloc);
    let mut left = count;
    for frame in frames {
        left = note_frame(&mut lasts, frame.as_slice(), left)?;
    }
    Ok(lasts)
}

// Looks at records, at most so many. It answers how many are left of that number.
fn note_frame(lasts: &mut Lasts, records: &[Applied], most: usize) -> Result<usize, AllocError>
    ensures noted { OnOk result (lasts.new ≡ lasts.old ++ take most records.now) }
    ensures left { IfOk result (λ left. left ≡ most - length records.now) }
{
    let here = most.min(records.len());
    for record in &records[..here] {
        lasts.note(record)?;
    }
    Ok(most - here)
}

// The frames with the records that stay.
fn keep(
    alloc: Global,
    frames: Vec<Listed<Applied>>,
    lasts: &Lasts,
) -> Result<Vec<Listed<Applied>>, AllocError>
    ensures { IfOk result (λ kept. kept.items ≡ staying (stays lasts.now) frames.items) }
{
    let mut kept = Vec::new(alloc);
    for frame in frames {
        let records = keep_records(alloc, frame.into_vec(), lasts)?;
        push_filled(&mut kept, records)?;
    }
    Ok(kept)
}

// One frame more, if it has records.
fn push_filled(kept: &mut Vec<Listed<Applied>>, records: Vec<Applied>) -> Result<(), AllocError>
    ensures { OnOk result (kept.new.items ≡ kept.old.items ++ (if not (length records.items == 0)
        then records.items ∷ [] else [])) }
{
    if records.is_empty() {
        return Ok(());
    }
    kept.push(Listed::new(records))?;
    Ok(())
}

// Those of a frame that stay.
fn keep_records(
    alloc: Global,
    records: Vec<Applied>,
    lasts: &Lasts,
) -> Result<Vec<Applied>, AllocError>
    ensures { IfOk result (λ kept. kept.items ≡ filter (stays lasts.now) records.items) }
{
    let mut kept = Vec::new(alloc);
    for record in records {
        if lasts.keeps(&record) {
            kept.push(record)?;
        }
    }
    Ok(kept)
}
