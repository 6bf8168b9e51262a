//! A source's task stores how far it came: it commits its records and their offset in one transaction (KIP-618).
ghost use Rattle.std.specs.Prelude.{◌≡◌, ◌<◌, length};
ghost use Rattle.cw_model.specs.Lookups.{instance_of};
ghost use Rattle.cw_model.specs.Steps.{does};
ghost use Rattle.cw_model.specs.declared.instance.InstancePhase.TheVariants as phase;
ghost use Rattle.cw_world.specs.World.{Acts};

use cw_disk::Disk;
use cw_model::{Did, WorldFault};
use cw_tasks::refuse;
use cw_world::World;

/// It writes the offset behind its records, in the same transaction.
pub(crate) fn at_produced<D: Disk>(world: &mut World<D>, i: u64) -> Result<Did, WorldFault>
    requires there { i < length world.old.state.instances }
    requires phase { (instance_of i world.old.state).phase ≡ phase.Produced }
    ensures { Acts D.Disk (λ s. does world.old.setting i s phase.Produced) world.old world.new result }
{
    match world.put_offsets(i) {
        Ok(()) => Ok(Did::Offsets),
        Err(fault) => refuse(world, i, fault),
    }
}

/// It commits both, and tells the span.
pub(crate) fn at_offered<D: Disk>(world: &mut World<D>, i: u64) -> Result<Did, WorldFault>
    requires there { i < length world.old.state.instances }
    requires phase { (instance_of i world.old.state).phase ≡ phase.Offered }
    ensures { Acts D.Disk (λ s. does world.old.setting i s phase.Offered) world.old world.new result }
{
    match world.commit(i) {
        Ok(span) => Ok(Did::Commit(span)),
        Err(fault) => refuse(world, i, fault),
    }
}
