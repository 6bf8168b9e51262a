//! A sink's task stores how far it came: it sets the offset of what it handed out (Kafka Connect's SinkTask).
ghost use Rattle.std.specs.Prelude.{◌≡◌, ◌<◌, length};
ghost use Rattle.cw_model.specs.Lookups.{instance_of};
ghost use Rattle.cw_model.specs.Steps.{does};
ghost use Rattle.cw_model.specs.Tasks.{cut_of};
ghost use Rattle.cw_model.specs.declared.instance.InstancePhase.TheVariants as phase;
ghost use Rattle.cw_world.specs.World.{Acts};

use crate::refusals::refuse;
use cw_disk::Disk;
use cw_model::{Did, Instance, WorldFault};
use cw_world::World;

/// A sink's task stores how far it handed out the topic that it took last, under its own epoch; one whose producer is
/// fenced fails. Its faults are those of a full log, of disks and of memory.
pub fn at_delivered<D: Disk>(world: &mut World<D>, i: u64) -> Result<Did, WorldFault>
    requires there { i < length world.old.state.instances }
    requires phase { (instance_of i world.old.state).phase ≡ phase.Delivered }
    ensures { Acts D.Disk (λ s. does world.old.setting i s phase.Delivered) world.old world.new result }
{
    let to = end_of_cut(world.cluster().instance_of(i));
    match world.put_sink(i, to) {
        Ok(()) => Ok(Did::Offsets),
        Err(fault) => refuse(world, i, fault),
    }
}

// The position behind what it took last.
fn end_of_cut(instance: &Instance) -> u64
    ensures { result ≡ (cut_of instance.now).to }
{
    match instance.cut {
        Some(cut) => cut.to,
        None => 0,
    }
}
