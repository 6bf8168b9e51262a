//! All five logs, judged.
ghost use Rattle.std.specs.Prelude.{◌≡◌, IfOk};
ghost use Rattle.cw_types.specs.declared.logs.LogName.{LogName};
ghost use Rattle.cw_model.specs.StandsFor.{AreSound, allowing_of, safety_of, entries_in};
ghost use Rattle.cw_open.specs.Judging.{Says};
ghost use Rattle.cw_open.specs.Found.{SaysFirst, SaysHarm};

use crate::batches::first_batches_not_allowed;
use crate::configs::first_configs_not_allowed;
use crate::entries::EntryList;
use crate::frames::FramesRead;
use crate::offsets::first_offsets_not_allowed;
use crate::safety::first_entries_unsafe;
use crate::stamps::first_configs_not_stamped;
use crate::statuses::first_statuses_not_allowed;
use crate::transactions::first_entries_not_allowed;
use cw_types::LogName;
use std::alloc::{AllocError, Global};

/// A frame that lacks something: its log, and its number there.
#[derive(Clone, Copy, Debug, PartialEq, Eq, Drop)]
pub struct FramePlace {
    /// The log.
    pub log: LogName,
    /// How many frames stand before it.
    pub at: u64,
}

/// What is met first in logs whose bodies can all be read.
#[derive(Clone, Copy, Debug, PartialEq, Eq, Drop)]
pub enum FirstHarm {
    /// A frame that isn't allowed at its place.
    NotAllowed(FramePlace),
    /// A frame that is allowed, as all are, and isn't safe.
    Unsafe(FramePlace),
}

/// What is met first in the five logs, if anything: all frames are judged before one is called unsafe, the logs
/// in their order.
pub fn judge(alloc: Global, frames: &FramesRead) -> Result<Option<FirstHarm>, AllocError>
    ensures { IfOk result (SaysHarm frames.now) }
{
    let entries = EntryList::of(alloc, frames.entries())?;
    match first_not_allowed(alloc, &entries, frames)? {
        Some(place) => Ok(Some(FirstHarm::NotAllowed(place))),
        None => match first_unsafe(alloc, &entries, frames)? {
            Some(place) => Ok(Some(FirstHarm::Unsafe(place))),
            None => Ok(None),
        },
    }
}

fn first_not_allowed(
    alloc: Global,
    entries: &EntryList,
    frames: &FramesRead,
) -> Result<Option<FramePlace>, AllocError>
    requires { entries.now ≡ entries_in frames.now }
    ensures { IfOk result (SaysFirst (allowing_of frames.now)) }
{
    if let Some(at) = config_not_allowed(alloc, frames)? {
        return Ok(Some(FramePlace {
            log: LogName::Config,
            at,
        }));
    }
    if let Some(at) = offset_not_allowed(alloc, entries, frames)? {
        return Ok(Some(FramePlace {
            log: LogName::Offsets,
            at,
        }));
    }
    if let Some(at) = status_not_allowed(alloc, frames)? {
        return Ok(Some(FramePlace {
            log: LogName::Status,
            at,
        }));
    }
    if let Some(at) = entry_not_allowed(alloc, frames)? {
        return Ok(Some(FramePlace {
            log: LogName::Txn,
            at,
        }));
    }
    if let Some(at) = batch_not_allowed(alloc, entries, frames)? {
        return Ok(Some(FramePlace {
            log: LogName::Batches,
            at,
        }));
    }
    Ok(None)
}

fn first_unsafe(
    alloc: Global,
    entries: &EntryList,
    frames: &FramesRead,
) -> Result<Option<FramePlace>, AllocError>
    requires list { entries.now ≡ entries_in frames.now }
    requires allowed { AreSound (allowing_of frames.now) }
    ensures { IfOk result (SaysFirst (safety_of frames.now)) }
{
    if let Some(at) = config_unsafe(entries, frames) {
        return Ok(Some(FramePlace {
            log: LogName::Config,
            at,
        }));
    }
    if let Some(at) = entry_unsafe(alloc, frames)? {
        return Ok(Some(FramePlace {
            log: LogName::Txn,
            at,
        }));
    }
    Ok(None)
}

fn config_not_allowed(alloc: Global, frames: &FramesRead) -> Result<Option<u64>, AllocError>
    ensures { IfOk result (Says (allowing_of frames.now LogName.Config)) }
{
    let first = first_configs_not_allowed(alloc, frames.configs())?;
    Ok(first)
}

fn offset_not_allowed(
    alloc: Global,
    entries: &EntryList,
    frames: &FramesRead,
) -> Result<Option<u64>, AllocError>
    requires { entries.now ≡ entries_in frames.now }
    ensures { IfOk result (Says (allowing_of frames.now LogName.Offsets)) }
{
    let first = first_offsets_not_allowed(alloc, entries, frames.offsets())?;
    Ok(first)
}

fn status_not_allowed(alloc: Global, frames: &FramesRead) -> Result<Option<u64>, AllocError>
    ensures { IfOk result (Says (allowing_of frames.now LogName.Status)) }
{
    let first = first_statuses_not_allowed(alloc, frames.statuses())?;
    Ok(first)
}

fn entry_not_allowed(alloc: Global, frames: &FramesRead) -> Result<Option<u64>, AllocError>
    ensures { IfOk result (Says (allowing_of frames.now LogName.Txn)) }
{
    let first = first_entries_not_allowed(alloc, frames.entries())?;
    Ok(first)
}

fn batch_not_allowed(
    alloc: Global,
    entries: &EntryList,
    frames: &FramesRead,
) -> Result<Option<u64>, AllocError>
    requires { entries.now ≡ entries_in frames.now }
    ensures { IfOk result (Says (allowing_of frames.now LogName.Batches)) }
{
    let first = first_batches_not_allowed(alloc, entries, frames.batches())?;
    Ok(first)
}

fn config_unsafe(entries: &EntryList, frames: &FramesRead) -> Option<u64>
    requires { entries.now ≡ entries_in frames.now }
    ensures { Says (safety_of frames.now LogName.Config) result }
{
    first_configs_not_stamped(entries, frames.configs())
}

fn entry_unsafe(alloc: Global, frames: &FramesRead) -> Result<Option<u64>, AllocError>
    requires { AreSound (allowing_of frames.now) }
    ensures { IfOk result (Says (safety_of frames.now LogName.Txn)) }
{
    let first = first_entries_unsafe(alloc, frames.configs(), frames.batches(), frames.entries())?;
    Ok(first)
}
