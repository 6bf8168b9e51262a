//! The world.
ghost use Rattle.std.specs.Prelude.{◌≡◌, None};
ghost use Rattle.cw_model.specs.Facts.{AreFacts};
ghost use Rattle.cw_model.specs.Safe.{IsSafe};
ghost use Rattle.cw_model.specs.Journal.{IsTrueJournal};
ghost use Rattle.cw_model.specs.Reopening.{stored_of};
ghost use Rattle.cw_world.specs.Logs.{AreSides, HoldAll};

use crate::logs::Logs;
use crate::name::{WorldName, fresh};
use cw_disk::Disk;
use cw_laws::facts_are_safe;
use cw_rows::Cluster;
use std::marker::Model;

/// The cluster with its logs. Clauses see the model's state, what stays the same, the logs, and its name. Its type
/// keeps all facts: every state is safe, and its journal is true; and while no disk has failed, the logs hold the
/// state.
#[derive(Drop)]
pub struct World<D: Disk> {
    pub(crate) cluster: Cluster,
    pub(crate) logs: Logs<D>,
    pub(crate) name: WorldName,
}

impl<D: Disk> Model for World<D> {
    ghost use Rattle.cw_world.specs.World.{WorldState, IsWorld};

    ghost Value = { WorldState D };

    ghost view = { λ w. record {
      setting = w.cluster.setting;
      state = w.cluster.state;
      logs = record {
        config = w.logs.config;
        offsets = w.logs.offsets;
        status = w.logs.status;
        txn = w.logs.txn;
        batches = w.logs.batches;
      };
      name = w.name.book;
    } };

    ghost invariant = { λ w. IsWorld D.Disk w.cluster.setting w.cluster.state (record {
      config = w.logs.config;
      offsets = w.logs.offsets;
      status = w.logs.status;
      txn = w.logs.txn;
      batches = w.logs.batches;
    }) };
}

impl<D: Disk> World<D> {
    ghost use Rattle.cw_world.specs.World.{WorldState};
    ghost use Rattle.cw_world.specs.Logs.{LogsState};

    /// A cluster with all facts, and the logs that hold what stands in it, on the sides of its numbers. The world gets
    /// a name that no other has.
    pub fn new(cluster: Cluster, logs: Logs<D>) -> World<D>
        requires facts { AreFacts cluster.setting cluster.state }
        requires holds { HoldAll D.Disk (stored_of cluster.state) (record {
          config = logs.config;
          offsets = logs.offsets;
          status = logs.status;
          txn = logs.txn;
          batches = logs.batches;
        }) }
        requires sides { AreSides (stored_of cluster.state) (record {
          config = logs.config;
          offsets = logs.offsets;
          status = logs.status;
          txn = logs.txn;
          batches = logs.batches;
        }) }
        ensures setting { result.setting ≡ cluster.setting }
        ensures state { result.state ≡ cluster.state }
        ensures logs { result.logs ≡ record {
          config = logs.config;
          offsets = logs.offsets;
          status = logs.status;
          txn = logs.txn;
          batches = logs.batches;
        } }
    {
        World {
            cluster,
            logs,
            name: fresh(),
        }
    }

    /// The cluster in memory, to look things up.
    pub fn cluster(&self) -> &Cluster
        ensures state { result.now.state ≡ self.now.state }
        ensures setting { result.now.setting ≡ self.now.setting }
    {
        &self.cluster
    }

    /// The law of every world: its state is safe, its journal is true, and while no disk has failed its logs hold just
    /// what stands in it. It does nothing at run time.
    pub fn is_safe(&self)
        ensures safe { IsSafe self.now.setting self.now.state }
        ensures journal { IsTrueJournal self.now.setting self.now.state }
        ensures facts { AreFacts self.now.setting self.now.state }
        ensures holds { self.now.state.closed ≡ None → HoldAll D.Disk (stored_of self.now.state) self.now.logs }
    {
        let _ = &self.cluster;
        facts_are_safe();
    }
}
