//! A task begins: it gets an epoch of its own, is verified, and fetches its positions (KIP-618).
ghost use Rattle.std.specs.Prelude.{◌≡◌, ◌<◌, length};
ghost use Rattle.cw_model.specs.Lookups.{instance_of};
ghost use Rattle.cw_model.specs.Steps.{does};
ghost use Rattle.cw_model.specs.declared.instance.InstancePhase.TheVariants as phase;
ghost use Rattle.cw_world.specs.World.{Acts};

use crate::refusals::refuse;
use cw_disk::Disk;
use cw_model::{Did, WorldFault};
use cw_world::World;

/// A new task bumps the epoch of its producer, which fences every older one, and tells the epoch (KIP-618). Its faults
/// are those of a full log, of disks and of memory.
pub fn at_new<D: Disk>(world: &mut World<D>, i: u64) -> Result<Did, WorldFault>
    requires there { i < length world.old.state.instances }
    requires phase { (instance_of i world.old.state).phase ≡ phase.New }
    ensures { Acts D.Disk (λ s. does world.old.setting i s phase.New) world.old world.new result }
{
    match world.init(i) {
        Ok(epoch) => Ok(Did::Init(epoch.0)),
        Err(fault) => refuse(world, i, fault),
    }
}

/// A task with an epoch goes on where its set is the newest and all older ones are fenced, and tells its generation;
/// else it tells that its set is stale, or that a fence is pending (KIP-618). Its one fault is that a disk has failed.
pub fn at_inited<D: Disk>(world: &mut World<D>, i: u64) -> Result<Did, WorldFault>
    requires there { i < length world.old.state.instances }
    requires phase { (instance_of i world.old.state).phase ≡ phase.Inited }
    ensures { Acts D.Disk (λ s. does world.old.setting i s phase.Inited) world.old world.new result }
{
    match world.verify(i) {
        Ok(generation) => Ok(Did::Verify(generation)),
        Err(fault) => refuse(world, i, fault),
    }
}

/// A verified task takes the committed end of each of its parts, from which it goes on (KIP-618). Its faults are that a
/// disk has failed, and those of memory.
pub fn at_verified<D: Disk>(world: &mut World<D>, i: u64) -> Result<Did, WorldFault>
    requires there { i < length world.old.state.instances }
    requires phase { (instance_of i world.old.state).phase ≡ phase.Verified }
    ensures { Acts D.Disk (λ s. does world.old.setting i s phase.Verified) world.old world.new result }
{
    match world.fetch(i) {
        Ok(()) => Ok(Did::Fetch),
        Err(fault) => refuse(world, i, fault),
    }
}
