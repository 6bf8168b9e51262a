//! A world ends: its disks and its journal are given back.
ghost use Rattle.std.specs.Prelude.{◌≡◌, None, Some};
ghost use Rattle.cw_model.specs.Reopening.{stored_of};
ghost use Rattle.cw_world.specs.Ending.{disks_of, LeaveStored, LeaveTold};
ghost use Rattle.cw_world.specs.Logs.{logs_of};

use crate::journal::Journal;
use crate::logs::Logs;
use crate::world::World;
use cw_disk::{Disk, Disks};

impl<D: Disk> World<D> {
    /// Gives the disks and the whole journal back. What a stop leaves of the disks then stands for the state, unless
    /// one of them has failed; and even then what it leaves of the disks of each other log stands for its list.
    pub fn give_back(self) -> (Disks<D>, Journal)
        ensures disks { result.0 ≡ disks_of self.logs }
        ensures stored { self.state.closed ≡ None →
            LeaveStored D.Disk (stored_of self.state) self.logs result.0 }
        ensures told { LeaveTold D.Disk self.logs result.0 }
        ensures journal { result.1 ≡ record { entries = self.state.journal; name = Some self.name } }
    {
        let disks = give_back_logs(self.logs);
        let journal = Journal::of(self.cluster.into_journal(), self.name);
        (disks, journal)
    }
}

// The disks of the logs.
fn give_back_logs<D: Disk>(logs: Logs<D>) -> Disks<D>
    ensures disks { result ≡ disks_of (logs_of logs.config logs.offsets logs.status logs.txn logs.batches) }
    ensures left { LeaveTold D.Disk (logs_of logs.config logs.offsets logs.status logs.txn logs.batches) result }
{
    let config = logs.config.give_back();
    let offsets = logs.offsets.give_back();
    let status = logs.status.give_back();
    let txn = logs.txn.give_back();
    let batches = logs.batches.give_back();
    Disks {
        config_a: config.0,
        config_b: config.1,
        offsets_a: offsets.0,
        offsets_b: offsets.1,
        status_a: status.0,
        status_b: status.1,
        txn,
        batches,
    }
}
