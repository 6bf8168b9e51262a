//! A call through a worker of a world in which a disk has failed.
ghost use Rattle.std.specs.Prelude.{◌≡◌, true, Some, Err};
ghost use Rattle.cw_model.specs.declared.fault.WorldFault.TheVariants.{Closed};
ghost use Rattle.cw_model.specs.Lookups.{row_of};
ghost use Rattle.cw_desk.specs.Turns.{Keeps, entry_of};

use cw_desk::entry_of_fault;
use cw_disk::Disk;
use cw_model::WorldFault;
use cw_route::Call;
use cw_types::DiskName;
use cw_world::{Receipt, World};
use std::alloc::{AllocError, Global};

/// The call is told that this disk failed, and that is kept in the journal. No log is touched.
pub(crate) fn tell_closed<D: Disk>(
    alloc: Global,
    world: &mut World<D>,
    w: u32,
    call: Call,
    disk: DiskName,
    count: u64,
) -> Result<Receipt, AllocError>
    requires live { (row_of w world.old.state).live ≡ true }
    requires closed { world.old.state.closed ≡ Some (disk, count) }
    ensures { Keeps (entry_of w call (Err (Closed disk count)) world.old.state world.old.state)
        world.old world.new result }
{
    world.is_safe();
    let fault = WorldFault::Closed { disk, count };
    let entry = entry_of_fault(alloc, world.cluster(), w, call, &fault)?;
    match world.journal(entry) {
        Ok(receipt) => Ok(receipt),
        Err(_) => Err(AllocError),
    }
}
