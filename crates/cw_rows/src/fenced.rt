//! Who may write: whoever's epoch isn't its producer's last is fenced (KIP-98, KIP-618).
ghost use Rattle.std.specs.Prelude.{◌≡◌, ◌≢◌, ◌<◌, length, Ok, Err, IfOk, OnOk};
ghost use Rattle.cw_model.specs.declared.fault.WorldFault.{WorldFault as FaultValue};
ghost use Rattle.cw_model.specs.declared.fault.WorldFault.TheVariants as fault;
ghost use Rattle.cw_model.specs.Lookups.{instance_of};
ghost use Rattle.cw_model.specs.Refusals.{behind_refusal};
ghost use Rattle.cw_model.specs.Updates.{epoch_in, tid_of};
ghost use Rattle.cw_rows.specs.Tests.{epoch_test, producer_test, leader_test};

use crate::cluster::Cluster;
use cw_model::WorldFault;
use cw_topics::tid_of;
use cw_types::{Epoch, Tid};

impl Cluster {
    /// The producer of an instance's task. It is refused where writing has ended, the instance has, or the producer is
    /// fenced.
    pub(crate) fn producer(&self, i: u64) -> Result<Tid, WorldFault>
        requires { i < length self.now.state.instances }
        ensures passed { OnOk result (producer_test i self.now.state ≡ Ok tt) }
        ensures tid { IfOk result (λ tid. tid ≡ tid_of (instance_of i self.now.state).item) }
        ensures refused { (why : FaultValue) → result ≡ Err why → why ≢ fault.Memory →
            producer_test i self.now.state ≡ Err why }
    {
        self.test_instance(i)?;
        let own = self.crew.instance(i);
        let Ok(tid) = tid_of(&own.item) else {
            return Err(WorldFault::Memory);
        };
        test_epoch(
            epoch_in(own.epoch),
            self.topics.coordinator().epoch_of(&tid),
        )?;
        Ok(tid)
    }

    /// It is refused where writing has ended, the worker was killed, or another has claimed a later lead epoch: the
    /// worker then gives up its own.
    pub(crate) fn test_leader(&mut self, w: u32) -> Result<(), WorldFault>
        requires { w < length self.old.state.rows }
        ensures tested { result ≡ leader_test w self.old.state }
        ensures ok { OnOk result (self.new ≡ self.old) }
        ensures err { (why : FaultValue) → result ≡ Err why → self.new ≡
            record self.old { state = behind_refusal w why self.old.state } }
    {
        self.test_worker(w)?;
        let own = epoch_in(self.crew.row(w).lead);
        let current = self.topics.coordinator().epoch_of(&Tid::Lead);
        if own != current {
            self.crew.lose_lead(w);
            return Err(WorldFault::Fenced { own, current });
        }
        Ok(())
    }
}

/// Whether an epoch is its producer's last.
pub(crate) fn test_epoch(own: u64, current: u64) -> Result<(), WorldFault>
    ensures { result ≡ epoch_test own current }
{
    if own == current {
        Ok(())
    } else {
        Err(WorldFault::Fenced { own, current })
    }
}

// The number of an epoch, 0 for none.
fn epoch_in(epoch: Option<Epoch>) -> u64
    ensures { result ≡ epoch_in epoch }
{
    match epoch {
        Some(epoch) => epoch.0,
        None => 0,
    }
}
