//! A sink's task hands out.
ghost use Rattle.std.specs.Prelude.{◌≡◌, ◌<◌, length, false, true, Some, None, Ok};
ghost use Rattle.std.specs.Option.{option_map};
ghost use Rattle.cw_model.specs.declared.did.Did.TheVariants as did;
ghost use Rattle.cw_model.specs.declared.instance.InstancePhase.TheVariants as phase;
ghost use Rattle.cw_model.specs.EventsSources.{IsIn};
ghost use Rattle.cw_model.specs.Lookups.{instance_of};
ghost use Rattle.cw_model.specs.Polls.{gathered};
ghost use Rattle.cw_model.specs.Steps.{step, waits};
ghost use Rattle.cw_model.specs.Tasks.{is_sink};
ghost use Rattle.cw_edges.specs.Handing.{file_of};
ghost use Rattle.cw_world.specs.World.{Does};
ghost use Rattle.cw_sinktask.specs.Gathered.{into_file};
ghost use Rattle.cw_sinktask.specs.Sinks.{Sinks};

use crate::delivery::Delivery;
use crate::fault::SinkFault;
use crate::gathering::gather;
use crate::pouring::pour;
use cw_disk::Disk;
use cw_io::{Failed, Outlet};
use cw_model::{Did, WorldFault};
use cw_world::World;
use std::alloc::{AllocError, Global};

/// It gathers, and hands that out where it is anything.
pub(crate) fn poll<D: Disk, U: Outlet>(
    alloc: Global,
    world: &mut World<D>,
    i: u64,
    outlet: &mut U,
) -> Result<Did, SinkFault>
    requires there { i < length world.old.state.instances }
    requires sink { is_sink (instance_of i world.old.state) ≡ true }
    requires phase { IsIn phase.Polling i world.old.state }
    requires goes_on { waits (instance_of i world.old.state) world.old.state ≡ false }
    ensures { Sinks D.Disk U.Outlet i world.old world.new outlet.old outlet.new result }
{
    match gather(alloc, world, i) {
        Ok(Some(delivery)) => hand_out(world, i, delivery, outlet),
        Ok(None) => Ok(Did::AtEnd),
        Err(AllocError) => Err(SinkFault::World(WorldFault::Memory)),
    }
}

// A delivery is put into the task's file, unless the world is closed.
fn hand_out<D: Disk, U: Outlet>(
    world: &mut World<D>,
    i: u64,
    delivery: Delivery,
    outlet: &mut U,
) -> Result<Did, SinkFault>
    requires there { i < length world.old.state.instances }
    requires sink { is_sink (instance_of i world.old.state) ≡ true }
    requires phase { IsIn phase.Polling i world.old.state }
    requires goes_on { waits (instance_of i world.old.state) world.old.state ≡ false }
    requires gathered { let own = instance_of i world.old.state in
        option_map (into_file (file_of own)) (gathered own world.old.state.batches) ≡ Some delivery }
    ensures { Sinks D.Disk U.Outlet i world.old world.new outlet.old outlet.new result }
{
    if let Err(fault) = world.cluster().test_open() {
        return Err(SinkFault::World(fault));
    }
    match pour(&delivery, outlet) {
        Ok(()) => Ok(deliver(world, i, delivery)),
        Err(Failed) => Err(SinkFault::Outlet),
    }
}

// The world knows that a delivery was handed out.
fn deliver<D: Disk>(world: &mut World<D>, i: u64, delivery: Delivery) -> Did
    requires there { i < length world.old.state.instances }
    requires sink { is_sink (instance_of i world.old.state) ≡ true }
    requires phase { IsIn phase.Polling i world.old.state }
    requires goes_on { waits (instance_of i world.old.state) world.old.state ≡ false }
    requires open_world { world.old.state.closed ≡ None }
    requires gathered { let own = instance_of i world.old.state in
        option_map (into_file (file_of own)) (gathered own world.old.state.batches) ≡ Some delivery }
    ensures { Does (step world.old.setting i) world.old world.new (Ok result) }
{
    match world.deliver(i, delivery.turn, delivery.to) {
        Ok(()) => told_of(delivery),
        Err(_) => unreachable!(),
    }
}

// What a step tells of a delivery.
fn told_of(delivery: Delivery) -> Did
    ensures { result ≡ did.Deliver delivery.topic delivery.from delivery.to }
{
    Did::Deliver {
        topic: delivery.topic,
        from: delivery.from,
        to: delivery.to,
    }
}
