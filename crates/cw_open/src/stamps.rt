//! Stamps of the config log.
ghost use Rattle.std.specs.Prelude.{◌≤◌, ◌↔◌, All, IsTrue};
ghost use Rattle.cw_model.specs.StandsFor.{judged, AreStamped};
ghost use Rattle.cw_open.specs.Judging.{Says};

use crate::entries::EntryList;
use cw_bytes::Applied;
use cw_types::Listed;

/// The first frame of the config log with a record that was stamped past the end of the transaction list.
pub fn first_configs_not_stamped(entries: &EntryList, frames: &[Listed<Applied>]) -> Option<u64>
    ensures { Says (judged (λ before frame. AreStamped entries.now frame) frames.now) result }
{
    let end = entries.length();
    for at in 0..frames.len() {
        if !are_stamped(end, frames[at].as_slice()) {
            return Some(at as u64);
        }
    }
    None
}

fn are_stamped(end: u64, frame: &[Applied]) -> bool
    ensures { IsTrue result ↔ All (λ a. a.stamp ≤ end) frame.now }
{
    frame.iter().all(|applied| applied.stamp <= end)
}
