//! What a source's task writes (KIP-618).
ghost use Rattle.std.specs.Prelude.{◌≡◌, ◌<◌, length};
ghost use Rattle.cw_types.specs.declared.logs.LogName.TheVariants as log;
ghost use Rattle.cw_model.specs.EventsSources.{init, commit, MayInit, MayCommit};
ghost use Rattle.cw_world.specs.World.{Writes};

use crate::world::World;
use crate::write::write;
use cw_disk::Disk;
use cw_laws::{sources_begin_and_keep_facts, transactions_keep_facts};
use cw_model::WorldFault;
use cw_types::{Epoch, LogName, Span};

impl<D: Disk> World<D> {
    /// A new task gets the next epoch of its producer, which fences every older one.
    pub fn init(&mut self, i: u64) -> Result<Epoch, WorldFault>
        requires there { i < length self.old.state.instances }
        requires may { MayInit i self.old.state }
        ensures { Writes D.Disk log.Txn (init i) self.old self.new result }
    {
        sources_begin_and_keep_facts();
        let frame = self.cluster.ready_init(i)?;
        write(
            &mut self.logs.txn,
            &mut self.cluster,
            LogName::Txn,
            frame.body(),
        )?;
        Ok(self.cluster.put_init(i, frame))
    }

    /// A task commits records and offset in one transaction: the answer is the span.
    pub fn commit(&mut self, i: u64) -> Result<Span, WorldFault>
        requires there { i < length self.old.state.instances }
        requires may { MayCommit i self.old.state }
        ensures { Writes D.Disk log.Txn (commit i) self.old self.new result }
    {
        transactions_keep_facts();
        let frame = self.cluster.ready_commit(i)?;
        write(
            &mut self.logs.txn,
            &mut self.cluster,
            LogName::Txn,
            frame.body(),
        )?;
        Ok(self.cluster.put_commit(i, frame))
    }
}
