//! A source's task writes the offset behind its records, in the same transaction (KIP-618).
ghost use Rattle.std.specs.Prelude.{◌≡◌, ◌<◌, length};
ghost use Rattle.cw_types.specs.declared.logs.LogName.TheVariants as log;
ghost use Rattle.cw_model.specs.EventsSources.{put_offsets, MayPutOffsets};
ghost use Rattle.cw_world.specs.World.{Writes};

use crate::world::World;
use crate::write::write;
use cw_disk::Disk;
use cw_laws::transactions_keep_facts;
use cw_log::BodyLog;
use cw_model::WorldFault;
use cw_types::LogName;

impl<D: Disk> World<D> {
    /// A task writes the offset behind the records that it wrote last, in the same transaction.
    pub fn put_offsets(&mut self, i: u64) -> Result<(), WorldFault>
        requires there { i < length self.old.state.instances }
        requires may { MayPutOffsets i self.old.state }
        ensures { Writes D.Disk log.Offsets (put_offsets i) self.old self.new result }
    {
        transactions_keep_facts();
        let bytes = self.logs.offsets.length();
        let frame = self.cluster.ready_put_offsets(i, bytes)?;
        write(
            &mut self.logs.offsets,
            &mut self.cluster,
            LogName::Offsets,
            frame.body(),
        )?;
        self.cluster.put_put_offsets(i, frame);
        Ok(())
    }
}
