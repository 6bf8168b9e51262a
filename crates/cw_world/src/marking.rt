//! The leader marks how transactions ended (KIP-98, control records).
ghost use Rattle.cw_types.specs.declared.logs.LogName.TheVariants as log;
ghost use Rattle.cw_model.specs.EventsMarking.{mark, MayMark};
ghost use Rattle.cw_world.specs.World.{Writes};

use crate::world::World;
use crate::write::write;
use cw_disk::Disk;
use cw_laws::logs_keep_facts;
use cw_model::WorldFault;
use cw_types::{LogName, Tag};

impl<D: Disk> World<D> {
    /// A log gets the marker of its first transaction that has ended and isn't marked there: the answer is the
    /// transaction, and whether it is committed. Only the data log and the offset log have such transactions.
    pub fn mark(&mut self, log: LogName) -> Result<(Tag, bool), WorldFault>
        requires { MayMark log self.old.state }
        ensures { Writes D.Disk log (mark log) self.old self.new result }
    {
        match log {
            LogName::Offsets => self.mark_offsets(),
            LogName::Batches => self.mark_data(),
            LogName::Config => unreachable!(),
            LogName::Status => unreachable!(),
            LogName::Txn => unreachable!(),
        }
    }

    // The same of the offset log.
    fn mark_offsets(&mut self) -> Result<(Tag, bool), WorldFault>
        requires { MayMark log.Offsets self.old.state }
        ensures { Writes D.Disk log.Offsets (mark log.Offsets) self.old self.new result }
    {
        logs_keep_facts();
        let frame = self.cluster.ready_offset_mark()?;
        write(
            &mut self.logs.offsets,
            &mut self.cluster,
            LogName::Offsets,
            frame.body(),
        )?;
        Ok(self.cluster.put_offset_mark(frame))
    }

    // The same of the data log.
    fn mark_data(&mut self) -> Result<(Tag, bool), WorldFault>
        requires { MayMark log.Batches self.old.state }
        ensures { Writes D.Disk log.Batches (mark log.Batches) self.old self.new result }
    {
        logs_keep_facts();
        let frame = self.cluster.ready_data_mark()?;
        write(
            &mut self.logs.batches,
            &mut self.cluster,
            LogName::Batches,
            frame.body(),
        )?;
        Ok(self.cluster.put_data_mark(frame))
    }
}
