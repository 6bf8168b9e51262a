//! Why nothing was done.
ghost use Rattle.std.specs.Prelude.{◌≡◌, true, OnOk};

use cw_model::WorldFault;
use cw_open::ReopenCause;
use std::alloc::AllocError;

/// Why nothing was done.
#[derive(Drop)]
pub(crate) enum Refusal {
    /// The line is no event's.
    NoEvent,
    /// What the event requires doesn't hold.
    NotNow,
    /// The disks aren't opened.
    Unopened(ReopenCause),
    /// The event was refused.
    Fault(WorldFault),
}

/// An event was made, and its answer stands in its line.
pub(crate) type Made = Result<(), Refusal>;

/// Goes on only where an event may be made.
pub(crate) fn only_where(may: bool) -> Made
    ensures { OnOk result (may ≡ true) }
{
    if may {
        return Ok(());
    }
    Err(Refusal::NotNow)
}

impl From<WorldFault> for Refusal {
    fn from(fault: WorldFault) -> Refusal {
        Refusal::Fault(fault)
    }
}

impl From<AllocError> for Refusal {
    fn from(_: AllocError) -> Refusal {
        Refusal::Fault(WorldFault::Memory)
    }
}
