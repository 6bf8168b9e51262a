//! What the leader writes to the transaction list.
ghost use Rattle.std.specs.Prelude.{◌≡◌, ◌<◌, length};
ghost use Rattle.cw_types.specs.declared.logs.LogName.TheVariants as log;
ghost use Rattle.cw_model.specs.EventsLeading.{claim_lead, fence_one, set_offsets, MayFence, MaySetOffsets};
ghost use Rattle.cw_world.specs.World.{Writes};

use crate::world::World;
use crate::write::write;
use cw_disk::Disk;
use cw_laws::{lead_keeps_facts, set_offsets_keep_facts};
use cw_model::WorldFault;
use cw_txn::SetOffset;
use cw_types::{Epoch, LogName, Name};

impl<D: Disk> World<D> {
    /// A worker claims the lead, which fences whoever led before: the answer is its lead epoch.
    pub fn claim_lead(&mut self, w: u32) -> Result<Epoch, WorldFault>
        requires { w < length self.old.state.rows }
        ensures { Writes D.Disk log.Txn (claim_lead w) self.old self.new result }
    {
        lead_keeps_facts();
        let frame = self.cluster.ready_claim_lead(w)?;
        write(
            &mut self.logs.txn,
            &mut self.cluster,
            LogName::Txn,
            frame.body(),
        )?;
        Ok(self.cluster.put_claim_lead(w, frame))
    }

    /// The leader fences the next producer of a connector's older tasks (KIP-618): the answer is the task's index and
    /// the producer's new epoch.
    pub fn fence_one(&mut self, w: u32, name: &Name) -> Result<(u32, Epoch), WorldFault>
        requires there { w < length self.old.state.rows }
        requires may { MayFence w name.now self.old.state }
        ensures { Writes D.Disk log.Txn (fence_one w name.now) self.old self.new result }
    {
        lead_keeps_facts();
        let frame = self.cluster.ready_fence_one(w, name)?;
        write(
            &mut self.logs.txn,
            &mut self.cluster,
            LogName::Txn,
            frame.body(),
        )?;
        Ok(self.cluster.put_fence_one(w, name, frame))
    }

    /// The leader sets offsets of a stopped connector, and fences all its producers in the same frame (KIP-875).
    pub fn set_offsets(&mut self, w: u32, name: &Name, list: &[SetOffset]) -> Result<(), WorldFault>
        requires there { w < length self.old.state.rows }
        requires may { MaySetOffsets w name.now list.now self.old.state }
        ensures { Writes D.Disk log.Txn (set_offsets w name.now list.now) self.old self.new result }
    {
        set_offsets_keep_facts();
        let frame = self.cluster.ready_set_offsets(w, name, list)?;
        write(
            &mut self.logs.txn,
            &mut self.cluster,
            LogName::Txn,
            frame.body(),
        )?;
        self.cluster.put_set_offsets(w, name, list, frame);
        Ok(())
    }
}
