//! What a compaction leaves of a log, with the bodies that are written for it.
ghost use Rattle.std.specs.Prelude.{◌≡◌, ◌≤◌, ◌<◌, ◌+◌, ◌++◌, ◌∷◌, [], ℕ, List, true, length, map, IfOk, OnOk};
ghost use Rattle.std.specs.List.{AllByRecursion, flat_map};
ghost use Rattle.cw_bytes.specs.declared.applied.Applied.{Applied};
ghost use Rattle.cw_bytes.specs.Spelling.{AreRecords};
ghost use Rattle.cw_bytes.specs.Frames.{joined};
ghost use Rattle.cw_config.specs.Compaction.{compact_configs};
ghost use Rattle.cw_offset.specs.declared.body.OffsetEntry.{OffsetEntry};
ghost use Rattle.cw_offset.specs.Body.{HasRecords, entry_bytes};
ghost use Rattle.cw_offset.specs.Log.{offset_records};
ghost use Rattle.cw_offset.specs.Compaction.{compact_offsets};
ghost use Rattle.cw_status.specs.Compaction.{compact_statuses};
ghost use Rattle.cw_compact.specs.Bodies.{bodies_in};
ghost use Rattle.cw_compact.specs.Left.{AreLeft, AreLeftOffsets, Fits};

use crate::bodies::write_frames;
use crate::copies::{copy_frames, copy_offsets};
use crate::frames::list_of;
use crate::keyed::{compact_configs, compact_statuses, count_of};
use crate::offsets::compact_offsets;
use cw_bytes::Applied;
use cw_offset::{OffsetEntry, write_offsets};
use cw_txn::Entry;
use cw_types::Listed;
use std::alloc::{AllocError, Global};
use std::collections::LinkedList;

/// What a compaction leaves of a config log or a status log.
#[derive(Drop)]
pub struct LeftRecords {
    /// The frames.
    pub frames: LinkedList<Listed<Applied>>,
    /// Their bodies.
    pub bodies: Vec<Vec<u8>>,
    /// How many records there were.
    pub before: u64,
    /// How many are left.
    pub after: u64,
}

/// What a compaction leaves of an offset log.
#[derive(Drop)]
pub struct LeftOffsets {
    /// The entries.
    pub frames: Vec<OffsetEntry>,
    /// Their bodies.
    pub bodies: Vec<Vec<u8>>,
    /// How many records there were, markers not counted.
    pub before: u64,
    /// How many are left.
    pub after: u64,
}

/// What a compaction leaves of the config log with these frames. A body that no frame can carry counts as want of
/// memory.
pub fn left_configs(
    alloc: Global,
    frames: &LinkedList<Listed<Applied>>,
) -> Result<LeftRecords, AllocError>
    requires { AllByRecursion AreRecords (compact_configs frames.now) }
    ensures { IfOk result (AreLeft frames.now (compact_configs frames.now)) }
{
    let copies = copy_frames(alloc, frames)?;
    let before = count_of(copies.as_slice())? as u64;
    let kept = compact_configs(alloc, copies)?;
    left_of(alloc, kept, before)
}

/// What a compaction leaves of the status log with these frames. A body that no frame can carry counts as want of
/// memory.
pub fn left_statuses(
    alloc: Global,
    frames: &LinkedList<Listed<Applied>>,
) -> Result<LeftRecords, AllocError>
    requires { AllByRecursion AreRecords (compact_statuses frames.now) }
    ensures { IfOk result (AreLeft frames.now (compact_statuses frames.now)) }
{
    let copies = copy_frames(alloc, frames)?;
    let before = count_of(copies.as_slice())? as u64;
    let kept = compact_statuses(alloc, copies)?;
    left_of(alloc, kept, before)
}

// These frames, of so many records, are left.
fn left_of(
    alloc: Global,
    kept: Vec<Listed<Applied>>,
    before: u64,
) -> Result<LeftRecords, AllocError>
    requires { AllByRecursion AreRecords kept.items }
    ensures { IfOk result (λ left. (frames : List (List Applied)) → before ≡ length (joined frames) →
        AreLeft frames kept.items left) }
{
    let bodies = write_frames(alloc, kept.as_slice())?;
    if !are_carried(bodies.as_slice()) {
        return Err(AllocError);
    }
    let after = count_of(kept.as_slice())? as u64;
    let frames = list_of(alloc, kept)?;
    Ok(LeftRecords {
        frames,
        bodies,
        before,
        after,
    })
}

/// What a compaction leaves of the offset log with these entries, beside the frames of the transaction log. A body that
/// no frame can carry counts as want of memory.
pub fn left_offsets(
    alloc: Global,
    txn: &[Listed<Entry>],
    frames: &LinkedList<OffsetEntry>,
) -> Result<LeftOffsets, AllocError>
    requires { AllByRecursion HasRecords (compact_offsets (joined txn.now) frames.now) }
    ensures { IfOk result (AreLeftOffsets frames.now (compact_offsets (joined txn.now) frames.now)) }
{
    let copies = copy_offsets(alloc, frames)?;
    let before = count_offsets(copies.as_slice())?;
    let kept = compact_offsets(alloc, txn, copies)?;
    let bodies = write_each(alloc, kept.as_slice())?;
    if !are_carried(bodies.as_slice()) {
        return Err(AllocError);
    }
    let after = count_offsets(kept.as_slice())?;
    Ok(LeftOffsets {
        frames: kept,
        bodies,
        before,
        after,
    })
}

// The bodies of entries of the offset log.
fn write_each(alloc: Global, frames: &[OffsetEntry]) -> Result<Vec<Vec<u8>>, AllocError>
    requires { AllByRecursion HasRecords frames.now }
    ensures { IfOk result (λ bodies. bodies_in bodies.items ≡ map entry_bytes frames.now) }
{
    let mut bodies = Vec::new(alloc);
    for frame in frames {
        bodies.push(write_offsets(alloc, frame)?)?;
    }
    Ok(bodies)
}

// How many records entries of the offset log hold. No memory holds more than the greatest number.
fn count_offsets(frames: &[OffsetEntry]) -> Result<u64, AllocError>
    ensures { IfOk result (λ count. count ≡ length (flat_map offset_records frames.now)) }
{
    let mut count = 0u64;
    for frame in frames {
        count = match count.checked_add(count_in(frame)) {
            Some(count) => count,
            None => return Err(AllocError),
        };
    }
    Ok(count)
}

// How many records an entry holds.
fn count_in(frame: &OffsetEntry) -> u64
    ensures { result ≡ length (offset_records frame.now) }
{
    match frame {
        OffsetEntry::Records { records, .. } => records.as_slice().len() as u64,
        OffsetEntry::Mark(_) => 0,
    }
}

// Whether a frame can carry each of these bodies.
fn are_carried(bodies: &[Vec<u8>]) -> bool
    ensures { result ≡ true → AllByRecursion Fits (bodies_in bodies.now) }
{
    for body in bodies {
        if !is_carried(body.as_slice()) {
            return false;
        }
    }
    true
}

// The same of one.
fn is_carried(body: &[u8]) -> bool
    ensures { result ≡ true → Fits body.now }
{
    !body.is_empty() && body.len() <= u32::MAX as usize
}
