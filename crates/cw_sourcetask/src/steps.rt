//! The step of a task's instance.
ghost use Rattle.std.specs.Prelude.{◌≡◌, ◌<◌, true, false, length};
ghost use Rattle.cw_model.specs.Lookups.{instance_of};
ghost use Rattle.cw_model.specs.Polls.{is_something};
ghost use Rattle.cw_model.specs.Steps.{polls, step};
ghost use Rattle.cw_model.specs.Tasks.{parts_of, is_sink};
ghost use Rattle.cw_model.specs.declared.instance.InstancePhase.TheVariants as phase;
ghost use Rattle.cw_sourcetask.specs.Sourced.{source_does, source_step};
ghost use Rattle.cw_world.specs.World.{Acts};

use crate::committing::{at_offered, at_produced};
use crate::laws::batches_take_some;
use crate::polling::at_polling;
use crate::scans::scan;
use cw_disk::Disk;
use cw_feed::CutAnswer;
use cw_model::{Did, InstancePhase, WorldFault};
use cw_tasks::{at_delivered, at_inited, at_new, at_verified, waits};
use cw_world::World;
use std::alloc::AllocError;

/// One step of an instance: the event of its phase, or why there is none. In Polling it takes of the part of a turn
/// what a scan found there, and looks at these in no other phase; a scan that no longer fits is answered BadCut. Its
/// other faults are those of full logs, of disks and of memory. A task that finds its producer fenced, or a line that
/// is too long, fails, and the answer says so (KIP-618).
pub fn step<D: Disk>(
    world: &mut World<D>,
    i: u64,
    found: &CutAnswer,
    turn: u32,
) -> Result<Did, WorldFault>
    requires there { i < length world.old.state.instances }
    requires source { (instance_of i world.old.state).phase ≡ phase.Polling →
        is_sink (instance_of i world.old.state) ≡ false }
    requires turn { (instance_of i world.old.state).phase ≡ phase.Polling → is_something found.now ≡ true →
        turn < length (parts_of (instance_of i world.old.state)) }
    ensures { Acts D.Disk (source_step world.old.setting i turn found.now) world.old world.new result }
{
    world.is_safe();
    if waits(world.cluster(), i) {
        return Ok(Did::Paused);
    }
    act(world, i, found, turn)
}

/// The same, where the step looks for itself what a poll takes.
pub fn poll_step<D: Disk>(world: &mut World<D>, i: u64) -> Result<Did, WorldFault>
    requires there { i < length world.old.state.instances }
    requires source { (instance_of i world.old.state).phase ≡ phase.Polling →
        is_sink (instance_of i world.old.state) ≡ false }
    ensures { Acts D.Disk (step world.old.setting i) world.old world.new result }
{
    world.is_safe();
    if waits(world.cluster(), i) {
        return Ok(Did::Paused);
    }
    match world.cluster().instance_of(i).phase {
        InstancePhase::Polling => poll(world, i),
        _ => act(world, i, &CutAnswer::AtEnd, 0),
    }
}

// A source's task polls.
fn poll<D: Disk>(world: &mut World<D>, i: u64) -> Result<Did, WorldFault>
    requires there { i < length world.old.state.instances }
    requires polling { (instance_of i world.old.state).phase ≡ phase.Polling }
    requires source { is_sink (instance_of i world.old.state) ≡ false }
    ensures { Acts D.Disk (λ s. polls world.old.setting i s) world.old world.new result }
{
    world.is_safe();
    batches_take_some();
    match scan(world.cluster().feeds(), world.cluster().instance_of(i)) {
        Ok(found) => at_polling(world, i, &found.1, found.0),
        Err(AllocError) => Err(WorldFault::Memory),
    }
}

// The event of the phase.
fn act<D: Disk>(
    world: &mut World<D>,
    i: u64,
    found: &CutAnswer,
    turn: u32,
) -> Result<Did, WorldFault>
    requires there { i < length world.old.state.instances }
    requires source { (instance_of i world.old.state).phase ≡ phase.Polling →
        is_sink (instance_of i world.old.state) ≡ false }
    requires turn { (instance_of i world.old.state).phase ≡ phase.Polling → is_something found.now ≡ true →
        turn < length (parts_of (instance_of i world.old.state)) }
    ensures { Acts D.Disk (λ s. source_does world.old.setting i turn found.now s (instance_of i s).phase)
        world.old world.new result }
{
    match world.cluster().instance_of(i).phase {
        InstancePhase::New => at_new(world, i),
        InstancePhase::Inited => at_inited(world, i),
        InstancePhase::Verified => at_verified(world, i),
        InstancePhase::Polling => at_polling(world, i, found, turn),
        InstancePhase::Produced => at_produced(world, i),
        InstancePhase::Offered => at_offered(world, i),
        InstancePhase::Delivered => at_delivered(world, i),
        InstancePhase::Connector => Ok(Did::AtEnd),
        InstancePhase::Failed => Ok(Did::Failed),
        InstancePhase::Ended => Ok(Did::Gone),
    }
}
