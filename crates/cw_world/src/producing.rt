//! A source's task writes the records of a cut (KIP-618).
ghost use Rattle.std.specs.Prelude.{◌≡◌, ◌<◌, length};
ghost use Rattle.cw_types.specs.declared.logs.LogName.TheVariants as log;
ghost use Rattle.cw_model.specs.EventsSources.{produce, MayProduce};
ghost use Rattle.cw_world.specs.World.{Writes};

use crate::world::World;
use crate::write::write;
use cw_disk::Disk;
use cw_laws::transactions_keep_facts;
use cw_log::BodyLog;
use cw_model::{Cut, WorldFault};
use cw_types::LogName;

impl<D: Disk> World<D> {
    /// A source's task writes the records of a cut of one of its parts, in its transaction. The cut is refused where
    /// it doesn't begin at the task's position, is empty, or ends where no record does.
    pub fn produce(&mut self, i: u64, cut: Cut) -> Result<(), WorldFault>
        requires there { i < length self.old.state.instances }
        requires may { MayProduce i cut self.old.state }
        ensures { Writes D.Disk log.Batches (produce self.old.setting i cut) self.old self.new result }
    {
        transactions_keep_facts();
        let bytes = self.logs.batches.length();
        let frame = self.cluster.ready_produce(i, cut, bytes)?;
        write(
            &mut self.logs.batches,
            &mut self.cluster,
            LogName::Batches,
            frame.body(),
        )?;
        self.cluster.put_produce(i, cut, frame);
        Ok(())
    }
}
