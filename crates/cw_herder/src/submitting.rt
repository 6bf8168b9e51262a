//! A call of Connect's REST API through a worker.
ghost use Rattle.std.specs.Prelude.{◌≡◌, ◌<◌, true, length, None};
ghost use Rattle.cw_model.specs.Lookups.{row_of};
ghost use Rattle.cw_herder.specs.Submits.{Submits};

use crate::answering_calls::{answer, restart_connector, restart_task};
use crate::writing_calls::{write_configs, write_offsets};
use cw_disk::Disk;
use cw_model::WorldFault;
use cw_route::{Call, Reply};
use cw_world::World;
use std::alloc::Global;

/// What a call through a worker is answered, and what it does: one that reads sees what the worker has read of the
/// configs; one that writes goes through the leader of the worker's round, under its lead epoch, and the worker has
/// then read what was written; a restart ends what runs of its item (Connect's REST API; KIP-618, KIP-875). A log that
/// is full and a lead that was lost are replies. The faults are that a disk fails or has failed, that memory is
/// wanting, and that the worker was killed; want of memory changes nothing, but for the worker's reading, which may be
/// wanting behind the write.
pub fn submit<D: Disk>(
    alloc: Global,
    world: &mut World<D>,
    w: u32,
    call: &Call,
) -> Result<Reply, WorldFault>
    requires { w < length world.old.state.rows }
    ensures { Submits D.Disk w call.now world.old world.new result }
{
    if let Some((disk, count)) = world.cluster().closed() {
        return Err(WorldFault::Closed { disk, count });
    }
    if !world.cluster().row_of(w).live {
        return Err(WorldFault::Dead(w));
    }
    ask(alloc, world, w, call)
}

// The same of a worker that lives, while no disk has failed.
fn ask<D: Disk>(
    alloc: Global,
    world: &mut World<D>,
    w: u32,
    call: &Call,
) -> Result<Reply, WorldFault>
    requires there { w < length world.old.state.rows }
    requires alive { world.old.state.closed ≡ None }
    requires live { (row_of w world.old.state).live ≡ true }
    ensures { Submits D.Disk w call.now world.old world.new result }
{
    match call {
        Call::Create(_)
        | Call::PutConfig(_, _)
        | Call::Delete(_)
        | Call::Pause(_)
        | Call::Resume(_)
        | Call::Stop(_) => write_configs(alloc, world, w, call),
        Call::Alter(name, _) | Call::Reset(name) => write_offsets(alloc, world, w, call, name),
        Call::Restart(name) => restart_connector(alloc, world, w, call, name),
        Call::RestartTask(id) => restart_task(alloc, world, w, call, id),
        Call::Refused(_)
        | Call::Connectors
        | Call::Info(_)
        | Call::Config(_)
        | Call::Status(_)
        | Call::Tasks(_)
        | Call::TaskStatus(_)
        | Call::Offsets(_)
        | Call::Plugins => answer(alloc, world, w, call),
    }
}
