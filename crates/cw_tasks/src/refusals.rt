//! What a step tells of a refused event.
ghost use Rattle.std.specs.Prelude.{◌≡◌, ◌<◌, length, Err};
ghost use Rattle.cw_model.specs.Steps.{told};
ghost use Rattle.cw_model.specs.declared.did.Did.{Did};
ghost use Rattle.cw_model.specs.declared.fault.WorldFault.TheVariants as refusal;
ghost use Rattle.cw_tasks.specs.Refused.{refuses};
ghost use Rattle.cw_world.specs.World.{Does};

use cw_disk::Disk;
use cw_model::{Did, Trace, WorldFault};
use cw_world::World;

/// A refusal that is the task's own state is told as that, and is no fault of the step: a stale set, a pending fence,
/// an instance that is gone. A task whose producer is fenced fails, and that is told (KIP-618). All others are faults.
pub fn refuse<D: Disk>(world: &mut World<D>, i: u64, fault: WorldFault) -> Result<Did, WorldFault>
    requires { i < length world.old.state.instances }
    ensures { Does (refuses i fault) world.old world.new result }
{
    match fault {
        WorldFault::Fenced { own, current } => fail_if_fenced(world, i, own, current),
        other => told(other),
    }
}

// What is told of it.
fn told(fault: WorldFault) -> Result<Did, WorldFault>
    ensures { result ≡ told (λ (done : Did). done) (Err fault) }
{
    match fault {
        WorldFault::Fenced { own, current } => Ok(Did::Fenced { own, current }),
        WorldFault::StaleGeneration { own, current } => Ok(Did::Stale { own, current }),
        WorldFault::PendingFence => Ok(Did::Pending),
        WorldFault::Gone(_) => Ok(Did::Gone),
        other => Err(other),
    }
}

// It fails, since its epoch isn't its producer's last.
fn fail_if_fenced<D: Disk>(
    world: &mut World<D>,
    i: u64,
    own: u64,
    current: u64,
) -> Result<Did, WorldFault>
    requires { i < length world.old.state.instances }
    ensures { Does (refuses i (refusal.Fenced own current)) world.old world.new result }
{
    let _ = world.fail(i, Trace::Fenced { own, current });
    Ok(Did::Fenced { own, current })
}
