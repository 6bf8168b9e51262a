//! A worker takes a turn: the turn's one event is made.
ghost use Rattle.std.specs.Prelude.{◌≡◌, ◌<◌, true, length};
ghost use Rattle.cw_model.specs.Lookups.{row_of};
ghost use Rattle.cw_model.specs.Tick.{tick};
ghost use Rattle.cw_ticks.specs.Turns.{IsTurn};
ghost use Rattle.cw_world.specs.World.{Acts};

use crate::items::{report, start, stop};
use crate::leading::ask;
use crate::op::Op;
use crate::reading::read;
use crate::rounds::{close, join, plan, sync};
use cw_disk::Disk;
use cw_model::{Tick, WorldFault};
use cw_ticks::Turn;
use cw_world::World;
use std::alloc::Global;

/// The event of the turn that a worker takes.
pub(crate) fn take<D: Disk>(
    alloc: Global,
    world: &mut World<D>,
    w: u32,
    turn: Turn,
) -> Result<Tick, WorldFault>
    requires there { w < length world.old.state.rows }
    requires live { (row_of w world.old.state).live ≡ true }
    requires turn { IsTurn turn w world.old.state }
    ensures { Acts D.Disk (tick w) world.old world.new result }
{
    world.is_safe();
    match turn {
        Turn::Read => read(world, w),
        Turn::Stop { item, number } => stop(world, w, item, number),
        Turn::Join => join(world, w),
        Turn::Close => close(world, w),
        Turn::Plan => plan(world, w),
        Turn::Sync => sync(world, w),
        Turn::Lead => ask(alloc, world, w, w, Op::Lead),
        Turn::Propose {
            leader,
            connector,
            ..
        } => ask(alloc, world, w, leader, Op::Propose(connector)),
        Turn::Fence { connector, .. } => ask(alloc, world, w, w, Op::Fence(connector)),
        Turn::Mark(_) => ask(alloc, world, w, w, Op::Mark),
        Turn::Start(item) => start(world, w, item),
        Turn::Report(item, state) => report(world, w, item, state),
        Turn::Idle => Ok(Tick::Idle),
    }
}
