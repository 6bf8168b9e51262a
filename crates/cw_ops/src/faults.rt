//! What a call is answered where its event was refused.
ghost use Rattle.std.specs.Prelude.{◌≡◌, IfOk};
ghost use Rattle.cw_ops.specs.Faults.{fault_reply};

use cw_model::WorldFault;
use cw_reply::{failed_reply, full_reply, memory_reply, rebalancing};
use cw_route::Reply;
use std::alloc::{AllocError, Global};

/// The reply to a call whose event was refused: a disk failed, now or before, a log is full, or memory ran out; any
/// other fault is that the worker can't write now. Want of memory is the only error.
pub fn fault_reply(alloc: Global, fault: &WorldFault) -> Result<Reply, AllocError>
    ensures { IfOk result (λ reply. reply ≡ fault_reply fault.now) }
{
    match fault {
        WorldFault::StoreFault { .. } | WorldFault::Closed { .. } => failed_reply(alloc),
        WorldFault::Full { log, .. } => full_reply(alloc, *log),
        WorldFault::Memory => memory_reply(alloc),
        WorldFault::Fenced { .. }
        | WorldFault::StaleGeneration { .. }
        | WorldFault::PendingFence
        | WorldFault::BadCut { .. }
        | WorldFault::Gone(_)
        | WorldFault::Dead(_)
        | WorldFault::Group(_)
        | WorldFault::TooMany => rebalancing(alloc),
    }
}
