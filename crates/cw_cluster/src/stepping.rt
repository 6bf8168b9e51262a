//! A step of an instance, whichever it is of.
ghost use Rattle.std.specs.Prelude.{◌<◌, length};
ghost use Rattle.cw_script.specs.declared.directive.Directive.TheVariants as directive;
ghost use Rattle.cw_cluster.specs.Breaking.{IsAlive};
ghost use Rattle.cw_cluster.specs.Playing.{IsOutletKept, PlaysDirective};
ghost use Rattle.cw_cluster.specs.Stepping.{Steps};

use crate::answers::Answers;
use crate::outcome::Outcome;
use cw_disk::Disk;
use cw_io::Outlet;
use cw_lines::DriveEnd;
use cw_model::Did;
use cw_sinktask::SinkFault;
use cw_ticks::is_sink;
use cw_world::World;
use std::alloc::Global;

/// An instance takes a step: a sink's task may put records into its file, which lies in the outlet; any other leaves
/// the outlet as it is. Where the file can't be written, the world is as it was.
pub(crate) fn step<D: Disk, U: Outlet>(
    alloc: Global,
    world: &mut World<D>,
    i: u64,
    outlet: &mut U,
) -> Result<Did, SinkFault>
    requires { i < length world.old.state.instances }
    ensures { Steps D.Disk U.Outlet i world.old world.new outlet.old outlet.new result }
{
    if is_sink(world.cluster().instance_of(i)) {
        return cw_sinktask::step(alloc, world, i, outlet);
    }
    match cw_sourcetask::poll_step(world, i) {
        Ok(did) => Ok(did),
        Err(fault) => Err(SinkFault::World(fault)),
    }
}

/// Plays the directive that an instance takes a step, and says what it did.
pub(crate) fn play_step<D: Disk, U: Outlet>(
    alloc: Global,
    world: &mut World<D>,
    i: u64,
    outlet: &mut U,
    answers: &mut Answers,
) -> Result<(), DriveEnd>
    requires there { i < length world.old.state.instances }
    requires alive { IsAlive D.Disk world.old }
    ensures played { PlaysDirective D.Disk (directive.Step i) world.old world.new (U.files outlet.old)
        (U.files outlet.new) answers.old answers.new result }
    ensures outlet { IsOutletKept U.Outlet outlet.old outlet.new result }
{
    world.is_safe();
    match step(alloc, world, i, outlet) {
        Ok(did) => {
            let done = Ok(Outcome::Step(i, did));
            answers.say(world.cluster().group_name(), i, done)
        }
        Err(SinkFault::World(fault)) => { answers.say(world.cluster().group_name(), i, Err(fault)) }
        Err(SinkFault::Outlet) => Err(DriveEnd::OutletFault),
    }
}
