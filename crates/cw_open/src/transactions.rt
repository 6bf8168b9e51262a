//! The transaction log.
ghost use Rattle.std.specs.Prelude.{◌≡◌, ◌↔◌, IfOk};
ghost use Rattle.cw_bytes.specs.Frames.{EachFrom, joined};
ghost use Rattle.cw_txn.specs.Allowed.{IsAllowedBehind};
ghost use Rattle.cw_model.specs.StandsFor.{judged};
ghost use Rattle.cw_open.specs.Judging.{Says, Steps, StepsAll};

use crate::allowed::is_allowed;
use crate::entries::EntryList;
use cw_txn::Entry;
use cw_types::Listed;
use std::alloc::{AllocError, Global};

/// The first frame of the transaction log with an entry that may not stand behind those before it. An entry is written
/// under its producer's epoch and commits what isn't committed (KIP-98), and its parts are its producer's own.
pub fn first_entries_not_allowed(
    alloc: Global,
    frames: &[Listed<Entry>],
) -> Result<Option<u64>, AllocError>
    ensures { IfOk result (Says (judged (λ before frame. EachFrom IsAllowedBehind (joined before) frame) frames.now)) }
{
    let mut passed = EntryList::new(alloc);
    for at in 0..frames.len() {
        if !take_frame(alloc, &mut passed, frames[at].as_slice())? {
            return Ok(Some(at as u64));
        }
    }
    Ok(None)
}

fn take_frame(alloc: Global, passed: &mut EntryList, frame: &[Entry]) -> Result<bool, AllocError>
    ensures { IfOk result (StepsAll IsAllowedBehind passed.old frame.now passed.new) }
{
    for at in 0..frame.len() {
        if !take_entry(alloc, passed, &frame[at])? {
            return Ok(false);
        }
    }
    Ok(true)
}

fn take_entry(alloc: Global, passed: &mut EntryList, entry: &Entry) -> Result<bool, AllocError>
    ensures { IfOk result (Steps IsAllowedBehind passed.old entry.now passed.new) }
{
    if !is_allowed(alloc, passed, entry)? {
        return Ok(false);
    }
    passed.put(entry)?;
    Ok(true)
}
