//! A turn of a task's runner: a step of an instance.
ghost use Rattle.std.specs.Prelude.{◌≡◌, ◌<◌, length, true, false, None};
ghost use Rattle.cw_model.specs.declared.instance.InstancePhase.TheVariants as phase;
ghost use Rattle.cw_model.specs.Lookups.{instance_of};
ghost use Rattle.cw_model.specs.Polls.{is_something};
ghost use Rattle.cw_model.specs.Steps.{step};
ghost use Rattle.cw_model.specs.Tasks.{parts_of, is_sink};
ghost use Rattle.cw_world.specs.World.{Acts};
ghost use Rattle.cw_sourcetask.specs.Sourced.{source_step};
ghost use Rattle.cw_desk.specs.Keeping.{KeepsJournal};
ghost use Rattle.cw_turns.specs.Going.{Start, GoesOn};

use cw_disk::Disk;
use cw_feed::CutAnswer;
use cw_model::{Did, WorldFault};
use cw_sourcetask::poll_step;
use cw_world::World;

/// An instance takes a step: the event of its phase. A sink's task doesn't poll so: its delivery is gathered and handed
/// out outside, and then `deliver` tells the world.
pub fn step<D: Disk>(world: &mut World<D>, i: u64) -> Result<Did, WorldFault>
    requires there { i < length world.old.state.instances }
    requires alive { world.old.state.closed ≡ None }
    requires source { (instance_of i world.old.state).phase ≡ phase.Polling →
        is_sink (instance_of i world.old.state) ≡ false }
    ensures acts { Acts D.Disk (step world.old.setting i) world.old world.new result }
    ensures goes_on { (start : Start) → GoesOn D.Disk start world.old → GoesOn D.Disk start world.new }
    ensures kept { KeepsJournal world.old.state world.new.state }
{
    world.is_safe();
    poll_step(world, i)
}

/// The same with what a scan found before: in Polling, a source's task takes that of the part of a turn. A scan that no
/// longer fits is answered BadCut (KIP-618).
pub fn step_found<D: Disk>(
    world: &mut World<D>,
    i: u64,
    found: &CutAnswer,
    turn: u32,
) -> Result<Did, WorldFault>
    requires there { i < length world.old.state.instances }
    requires alive { world.old.state.closed ≡ None }
    requires source { (instance_of i world.old.state).phase ≡ phase.Polling →
        is_sink (instance_of i world.old.state) ≡ false }
    requires turn { (instance_of i world.old.state).phase ≡ phase.Polling → is_something found.now ≡ true →
        turn < length (parts_of (instance_of i world.old.state)) }
    ensures acts { Acts D.Disk (source_step world.old.setting i turn found.now) world.old world.new result }
    ensures goes_on { (start : Start) → GoesOn D.Disk start world.old → GoesOn D.Disk start world.new }
    ensures kept { KeepsJournal world.old.state world.new.state }
{
    world.is_safe();
    cw_sourcetask::step(world, i, found, turn)
}
