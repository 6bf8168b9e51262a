//! A worker stops, starts and reports what it runs.
ghost use Rattle.std.specs.Prelude.{◌≡◌, ◌<◌, true, length};
ghost use Rattle.cw_model.specs.Lookups.{row_of};
ghost use Rattle.cw_model.specs.Tick.{tick};
ghost use Rattle.cw_ticks.specs.declared.turn.Turn.TheVariants as turn;
ghost use Rattle.cw_ticks.specs.Turns.{IsTurn};
ghost use Rattle.cw_world.specs.World.{Acts};

use cw_disk::Disk;
use cw_keys::State;
use cw_laws::rules_make_events_that_may_be_made;
use cw_model::{Tick, WorldFault};
use cw_types::Item;
use cw_world::World;

/// It stops an item, by the number of its instance.
pub(crate) fn stop<D: Disk>(
    world: &mut World<D>,
    w: u32,
    item: Item,
    number: u64,
) -> Result<Tick, WorldFault>
    requires live { (row_of w world.old.state).live ≡ true }
    requires turn { IsTurn (turn.Stop item number) w world.old.state }
    ensures { Acts D.Disk (tick w) world.old world.new result }
{
    match world.stop_item(number) {
        Ok(()) => Ok(Tick::Stop(item)),
        Err(fault) => Err(fault),
    }
}

/// It starts an item, and tells the instance's number.
pub(crate) fn start<D: Disk>(world: &mut World<D>, w: u32, item: Item) -> Result<Tick, WorldFault>
    requires there { w < length world.old.state.rows }
    requires live { (row_of w world.old.state).live ≡ true }
    requires turn { IsTurn (turn.Start item) w world.old.state }
    ensures { Acts D.Disk (tick w) world.old world.new result }
{
    rules_make_events_that_may_be_made();
    match world.start_item(w, &item) {
        Ok(number) => Ok(Tick::Start(item, number)),
        Err(fault) => Err(fault),
    }
}

/// It reports an item's state.
pub(crate) fn report<D: Disk>(
    world: &mut World<D>,
    w: u32,
    item: Item,
    state: State,
) -> Result<Tick, WorldFault>
    requires there { w < length world.old.state.rows }
    requires live { (row_of w world.old.state).live ≡ true }
    requires turn { IsTurn (turn.Report item state) w world.old.state }
    ensures { Acts D.Disk (tick w) world.old world.new result }
{
    rules_make_events_that_may_be_made();
    match world.put_status(w, &item) {
        Ok(()) => Ok(Tick::Report(item, state)),
        Err(fault) => Err(fault),
    }
}
