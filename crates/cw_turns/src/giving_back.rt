//! A server's world ends.
ghost use Rattle.std.specs.Prelude.{◌≡◌, Some};
ghost use Rattle.cw_world.specs.Ending.{disks_of};
ghost use Rattle.cw_turns.specs.Going.{Start, GoesOn};
ghost use Rattle.cw_turns.specs.Left.{IsLeftBehind};

use cw_disk::{Disk, Disks};
use cw_open::given_disks_leave_what_was_stored;
use cw_world::{Journal, World};

/// Gives the disks and the whole journal back: a stop leaves of the disks what stands in the cluster, or where a disk
/// failed what stood before the event in flight or behind it.
pub fn give_back<D: Disk>(world: World<D>) -> (Disks<D>, Journal)
    ensures disks { result.0 ≡ disks_of world.logs }
    ensures journal { result.1 ≡ record { entries = world.state.journal; name = Some world.name } }
    ensures left { (start : Start) → GoesOn D.Disk start world →
        IsLeftBehind D.Disk start world.state result.0 }
{
    given_disks_leave_what_was_stored::<D>();
    world.give_back()
}
