//! A worker reads the config log.
ghost use Rattle.std.specs.Prelude.{◌≡◌, ◌<◌, true, length};
ghost use Rattle.cw_model.specs.Lookups.{row_of};
ghost use Rattle.cw_model.specs.Tick.{tick};
ghost use Rattle.cw_ticks.specs.declared.turn.Turn.TheVariants as turn;
ghost use Rattle.cw_ticks.specs.Turns.{IsTurn};
ghost use Rattle.cw_world.specs.World.{Acts};

use cw_disk::Disk;
use cw_model::{Tick, WorldFault};
use cw_world::World;

/// It reads the config log up to its end, and tells how many records it has read.
pub(crate) fn read<D: Disk>(world: &mut World<D>, w: u32) -> Result<Tick, WorldFault>
    requires there { w < length world.old.state.rows }
    requires live { (row_of w world.old.state).live ≡ true }
    requires turn { IsTurn turn.Read w world.old.state }
    ensures { Acts D.Disk (tick w) world.old world.new result }
{
    match world.read_config(w) {
        Ok(()) => Ok(Tick::Read(world.cluster().row_of(w).prefix)),
        Err(fault) => Err(fault),
    }
}
