//! A worker's tick.
ghost use Rattle.std.specs.Prelude.{◌≡◌, ◌<◌, length};
ghost use Rattle.cw_model.specs.Tick.{tick};
ghost use Rattle.cw_world.specs.Moments.{at_moment};
ghost use Rattle.cw_world.specs.World.{Acts};

use crate::taking::take;
use cw_disk::Disk;
use cw_model::{Tick, WorldFault};
use cw_ticks::next_turn;
use cw_world::World;
use std::alloc::Global;

/// What a worker's herder does at a time in milliseconds: the clock is set to it, never back, and then the one event is
/// made that the first rule that applies asks for. The answer tells it; a worker that was killed does nothing, and a
/// leader that finds a later lead epoch has lost its lead (Connect's distributed herder; KIP-415, KIP-618).
pub fn tick<D: Disk>(
    alloc: Global,
    world: &mut World<D>,
    w: u32,
    now: u64,
) -> Result<Tick, WorldFault>
    requires { w < length world.old.state.rows }
    ensures { Acts D.Disk (tick w) (at_moment now world.old) world.new result }
{
    world.clock(now);
    turn(alloc, world, w)
}

// What it does at the moment of the world.
fn turn<D: Disk>(alloc: Global, world: &mut World<D>, w: u32) -> Result<Tick, WorldFault>
    requires { w < length world.old.state.rows }
    ensures { Acts D.Disk (tick w) world.old world.new result }
{
    if !world.cluster().row_of(w).live {
        return Ok(Tick::Dead);
    }
    world.is_safe();
    match next_turn(alloc, world.cluster(), w) {
        Ok(turn) => take(alloc, world, w, turn),
        Err(_) => Err(WorldFault::Memory),
    }
}
