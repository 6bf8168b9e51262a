//! A worker takes its part in a round of the group (KIP-415).
ghost use Rattle.std.specs.Prelude.{◌≡◌, ◌<◌, true, length};
ghost use Rattle.cw_model.specs.Lookups.{row_of};
ghost use Rattle.cw_model.specs.Tick.{tick};
ghost use Rattle.cw_ticks.specs.declared.turn.Turn.TheVariants as turn;
ghost use Rattle.cw_ticks.specs.Turns.{IsTurn};
ghost use Rattle.cw_world.specs.World.{Acts};

use cw_disk::Disk;
use cw_laws::rules_make_events_that_may_be_made;
use cw_model::{Tick, WorldFault};
use cw_world::World;

/// It joins, and tells the round.
pub(crate) fn join<D: Disk>(world: &mut World<D>, w: u32) -> Result<Tick, WorldFault>
    requires there { w < length world.old.state.rows }
    requires live { (row_of w world.old.state).live ≡ true }
    requires turn { IsTurn turn.Join w world.old.state }
    ensures { Acts D.Disk (tick w) world.old world.new result }
{
    rules_make_events_that_may_be_made();
    match world.join(w) {
        Ok(round) => Ok(Tick::Join(round)),
        Err(fault) => Err(fault),
    }
}

/// It closes the round.
pub(crate) fn close<D: Disk>(world: &mut World<D>, w: u32) -> Result<Tick, WorldFault>
    requires there { w < length world.old.state.rows }
    requires live { (row_of w world.old.state).live ≡ true }
    requires turn { IsTurn turn.Close w world.old.state }
    ensures { Acts D.Disk (tick w) world.old world.new result }
{
    match world.close_round(w) {
        Ok(()) => Ok(Tick::Close(world.cluster().group().round())),
        Err(fault) => Err(fault),
    }
}

/// It plans the round.
pub(crate) fn plan<D: Disk>(world: &mut World<D>, w: u32) -> Result<Tick, WorldFault>
    requires there { w < length world.old.state.rows }
    requires live { (row_of w world.old.state).live ≡ true }
    requires turn { IsTurn turn.Plan w world.old.state }
    ensures { Acts D.Disk (tick w) world.old world.new result }
{
    let now = world.cluster().moment();
    match world.store_plan(w, now) {
        Ok(()) => Ok(Tick::Planned(world.cluster().group().round())),
        Err(fault) => Err(fault),
    }
}

/// It is told its assignment.
pub(crate) fn sync<D: Disk>(world: &mut World<D>, w: u32) -> Result<Tick, WorldFault>
    requires there { w < length world.old.state.rows }
    requires live { (row_of w world.old.state).live ≡ true }
    requires turn { IsTurn turn.Sync w world.old.state }
    ensures { Acts D.Disk (tick w) world.old world.new result }
{
    match world.sync(w) {
        Ok(()) => Ok(Tick::Sync(world.cluster().group().round())),
        Err(fault) => Err(fault),
    }
}
