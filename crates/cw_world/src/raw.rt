//! What a script's producers do.
ghost use Rattle.std.specs.Prelude.{◌≡◌};
ghost use Rattle.cw_types.specs.declared.logs.LogName.TheVariants as log;
ghost use Rattle.cw_model.specs.EventsRaw.{raw_init, raw_commit, MayRawCommit};
ghost use Rattle.cw_world.specs.World.{Writes};

use crate::world::World;
use crate::write::write;
use cw_disk::Disk;
use cw_laws::script_producers_keep_facts;
use cw_model::WorldFault;
use cw_types::{Epoch, Listed, LogName, Span};

impl<D: Disk> World<D> {
    /// A script's producer gets the next epoch.
    pub fn raw_init(&mut self, n: u32) -> Result<Epoch, WorldFault>
        ensures { Writes D.Disk log.Txn (raw_init n) self.old self.new result }
    {
        script_producers_keep_facts();
        let frame = self.cluster.ready_raw_init(n)?;
        write(
            &mut self.logs.txn,
            &mut self.cluster,
            LogName::Txn,
            frame.body(),
        )?;
        Ok(self.cluster.put_raw_init(n, frame))
    }

    /// A script's producer commits parts up to new ends: the answer is the spans.
    pub fn raw_commit(
        &mut self,
        n: u32,
        epoch: Epoch,
        list: &[(u32, u64)],
    ) -> Result<Listed<Span>, WorldFault>
        requires { MayRawCommit n list.now }
        ensures { Writes D.Disk log.Txn (raw_commit n epoch list.now) self.old self.new result }
    {
        script_producers_keep_facts();
        let frame = self.cluster.ready_raw_commit(n, epoch, list)?;
        write(
            &mut self.logs.txn,
            &mut self.cluster,
            LogName::Txn,
            frame.body(),
        )?;
        Ok(self.cluster.put_raw_commit(n, epoch, list, frame))
    }
}
