//! A step of a sink's task.
ghost use Rattle.std.specs.Prelude.{◌≡◌, ◌≢◌, ◌<◌, length, true, false};
ghost use Rattle.cw_model.specs.declared.instance.InstancePhase.TheVariants as phase;
ghost use Rattle.cw_model.specs.Lookups.{instance_of};
ghost use Rattle.cw_model.specs.Steps.{step, waits};
ghost use Rattle.cw_model.specs.Tasks.{is_sink};
ghost use Rattle.cw_world.specs.World.{Acts};
ghost use Rattle.cw_sinktask.specs.Sinks.{Sinks};

use crate::delivering::poll;
use crate::fault::SinkFault;
use cw_disk::Disk;
use cw_io::Outlet;
use cw_model::{Did, InstancePhase, WorldFault};
use cw_tasks::{at_delivered, at_inited, at_new, at_verified, waits};
use cw_world::World;
use std::alloc::Global;

/// One step of a sink's task: the event of its phase, or why there is none. Where it polls it first puts the records
/// that it gathers into its file, and then the world knows that; the next step stores how far it came. Where the file
/// can't be written, the world is as it was, and a later step hands the same records out again.
pub fn step<D: Disk, U: Outlet>(
    alloc: Global,
    world: &mut World<D>,
    i: u64,
    outlet: &mut U,
) -> Result<Did, SinkFault>
    requires there { i < length world.old.state.instances }
    requires sink { is_sink (instance_of i world.old.state) ≡ true }
    ensures { Sinks D.Disk U.Outlet i world.old world.new outlet.old outlet.new result }
{
    world.is_safe();
    if waits(world.cluster(), i) {
        return Ok(Did::Paused);
    }
    match world.cluster().instance_of(i).phase {
        InstancePhase::Polling => poll(alloc, world, i, outlet),
        _ => match act(world, i) {
            Ok(did) => Ok(did),
            Err(fault) => Err(SinkFault::World(fault)),
        },
    }
}

// One step of a task that doesn't poll.
fn act<D: Disk>(world: &mut World<D>, i: u64) -> Result<Did, WorldFault>
    requires there { i < length world.old.state.instances }
    requires sink { is_sink (instance_of i world.old.state) ≡ true }
    requires phase { (instance_of i world.old.state).phase ≢ phase.Polling }
    requires goes_on { waits (instance_of i world.old.state) world.old.state ≡ false }
    ensures { Acts D.Disk (step world.old.setting i) world.old world.new result }
{
    world.is_safe();
    match world.cluster().instance_of(i).phase {
        InstancePhase::New => at_new(world, i),
        InstancePhase::Inited => at_inited(world, i),
        InstancePhase::Verified => at_verified(world, i),
        InstancePhase::Delivered => at_delivered(world, i),
        InstancePhase::Connector => Ok(Did::AtEnd),
        InstancePhase::Failed => Ok(Did::Failed),
        InstancePhase::Ended => Ok(Did::Gone),
        InstancePhase::Polling | InstancePhase::Produced | InstancePhase::Offered => unreachable!(),
    }
}
