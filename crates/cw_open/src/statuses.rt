//! The status log.
ghost use Rattle.std.specs.Prelude.{◌≡◌, ◌↔◌, IfOk, IsOk, IsTrue, IsSome};
ghost use Rattle.cw_bytes.specs.Frames.{EachFrom, joined};
ghost use Rattle.cw_keys.specs.Statuses.{status_of};
ghost use Rattle.cw_status.specs.Compaction.{IsAllowedStatus, record_in};
ghost use Rattle.cw_model.specs.StandsFor.{judged};
ghost use Rattle.cw_open.specs.Judging.{Says, Steps, StepsAll};

use crate::rising::Rising;
use cw_bytes::Applied;
use cw_keys::{KeyFault, read_status};
use cw_types::Listed;
use std::alloc::{AllocError, Global};

/// The first frame of the status log with a record that may not stand behind those before it.
pub fn first_statuses_not_allowed(
    alloc: Global,
    frames: &[Listed<Applied>],
) -> Result<Option<u64>, AllocError>
    ensures { IfOk result (Says (judged (λ before frame. EachFrom IsAllowedStatus (joined before) frame) frames.now)) }
{
    let mut passed = Rising::new();
    for at in 0..frames.len() {
        if !take_frame(alloc, &mut passed, frames[at].as_slice())? {
            return Ok(Some(at as u64));
        }
    }
    Ok(None)
}

fn take_frame(alloc: Global, passed: &mut Rising, frame: &[Applied]) -> Result<bool, AllocError>
    ensures { IfOk result (StepsAll IsAllowedStatus passed.old frame.now passed.new) }
{
    for at in 0..frame.len() {
        if !take_status(alloc, passed, &frame[at])? {
            return Ok(false);
        }
    }
    Ok(true)
}

fn take_status(alloc: Global, passed: &mut Rising, applied: &Applied) -> Result<bool, AllocError>
    ensures { IfOk result (Steps IsAllowedStatus passed.old applied.now passed.new) }
{
    if !is_allowed(alloc, passed, applied)? {
        return Ok(false);
    }
    passed.add(applied);
    Ok(true)
}

fn is_allowed(alloc: Global, passed: &Rising, applied: &Applied) -> Result<bool, AllocError>
    ensures { IfOk result (λ allowed. IsTrue allowed ↔ IsAllowedStatus passed.now applied.now) }
{
    let status = is_status(alloc, applied)?;
    Ok(status && passed.is_below(applied.offset))
}

// Whether a record has a key and a value of the status log.
fn is_status(alloc: Global, applied: &Applied) -> Result<bool, AllocError>
    ensures { IfOk result (λ is. IsTrue is ↔ IsSome (record_in applied.now)) }
{
    match &applied.value {
        Some(value) => {
            let read = is_status_under(alloc, applied.key.as_slice(), value.as_slice())?;
            Ok(read)
        }
        None => Ok(false),
    }
}

fn is_status_under(alloc: Global, key: &[u8], value: &[u8]) -> Result<bool, AllocError>
    ensures { IfOk result (λ is. IsTrue is ↔ IsOk (status_of key.now value.now)) }
{
    match read_status(alloc, key, value) {
        Ok(_) => Ok(true),
        Err(KeyFault::Memory) => Err(AllocError),
        Err(KeyFault::BadKey) => Ok(false),
        Err(KeyFault::BadValue) => Ok(false),
    }
}
