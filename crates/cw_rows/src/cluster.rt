//! The cluster.
ghost use Rattle.std.specs.Prelude.{◌≡◌, ◌<◌, [], ℕ, length, Ok, Err, true, false, slice_index_or, take, MatchResult};
ghost use Rattle.std.specs.Prelude.{OnErr};
ghost use Rattle.cw_rows.specs.Kept.{worker_test, instance_test, open_test};
ghost use Rattle.std.specs.Prelude.{◌↔◌, IsTrue, IfOk};
ghost use Rattle.std.specs.List.{IsDistinct};
ghost use Rattle.cw_assign.specs.Items.{same_item};
ghost use Rattle.cw_model.specs.Lookups.{row_of, instance_of, held, seen};

use crate::crew::Crew;
use cw_assign::Delay;
use cw_config::ConfigState;
use cw_feed::Feeds;
use cw_group::{Circle, Group};
use cw_model::{Instance, InstancePhase, JournalEntry, Row, WorldFault};
use cw_topics::Topics;
use cw_types::{DiskName, Item, Name};
use std::alloc::{AllocError, Global};
use std::marker::Model;

/// The cluster as it is kept in memory. Clauses see the model's state, and what stays the same.
#[derive(Drop)]
pub struct Cluster {
    pub(crate) alloc: Global,
    pub(crate) name: Name,
    pub(crate) scheduled: u64,
    pub(crate) feeds: Feeds,
    pub(crate) agreed: bool,
    pub(crate) topics: Topics,
    pub(crate) crew: Crew,
    pub(crate) circle: Circle,
    pub(crate) journal: Vec<JournalEntry>,
    pub(crate) closed: Option<(DiskName, u64)>,
}

impl Model for Cluster {
    ghost use Rattle.cw_rows.specs.Kept.{Kept, state_of, IsCluster};

    ghost Value = { Kept };

    ghost view = { λ c. record {
      setting = record { group = c.name; delay = c.scheduled; feeds = c.feeds; agreed = c.agreed };
      state = state_of c.topics c.circle c.crew c.journal.items c.closed;
      ready = c.topics.entries.reserved;
      ready_data = c.topics.batches.reserved;
      ready_configs = c.topics.ready_configs;
      ready_statuses = c.topics.statuses.reserved;
      told = c.topics.offsets.told;
    } };

    ghost invariant = { λ c. IsCluster c.topics c.crew };
}

impl Cluster {
    /// A worker's row.
    pub fn row_of(&self, w: u32) -> &Row
        requires { w < length self.now.state.rows }
        ensures { result.now ≡ row_of w self.now.state }
    {
        self.crew.row(w)
    }

    /// An instance.
    pub fn instance_of(&self, i: u64) -> &Instance
        requires { i < length self.now.state.instances }
        ensures { result.now ≡ instance_of i self.now.state }
    {
        self.crew.instance(i)
    }

    /// How many workers there are.
    pub fn workers(&self) -> u32
        ensures { result ≡ length self.now.state.rows }
    {
        self.crew.workers()
    }

    /// How many instances there are.
    pub fn instances(&self) -> u64
        ensures { result ≡ length self.now.state.instances }
    {
        self.crew.instances()
    }

    /// Whether there is a worker of this number.
    pub fn has_worker(&self, w: u32) -> bool
        ensures { IsTrue result ↔ (w < length self.now.state.rows) }
    {
        w < self.crew.workers()
    }

    /// Whether there is an instance of this number.
    pub fn has_instance(&self, i: u64) -> bool
        ensures { IsTrue result ↔ (i < length self.now.state.instances) }
    {
        i < self.crew.instances()
    }

    /// What a worker has read of the config log.
    pub fn config_of(&self, w: u32) -> &ConfigState
        requires { w < length self.now.state.rows }
        ensures { result.now ≡ seen w self.now.state }
    {
        self.crew.read_by(w)
    }

    /// The whole config log's state.
    pub fn config_state(&self) -> &ConfigState
        ensures { result.now ≡ self.now.state.configs }
    {
        self.topics.configs()
    }

    /// What a worker holds, in item order.
    pub fn held(&self, w: u32) -> Result<Vec<Item>, AllocError>
        requires { w < length self.now.state.rows }
        ensures items { IfOk result (λ items. items.items ≡ held w self.now.state) }
        ensures once { IfOk result (λ items. IsDistinct same_item items.items) }
    {
        self.crew.held(w)
    }

    /// The group.
    pub fn group(&self) -> &Group
        ensures { result.now ≡ self.now.state.group }
    {
        self.circle.group()
    }

    /// The group's name.
    pub fn group_name(&self) -> &Name
        ensures { result.now ≡ self.now.setting.group }
    {
        &self.name
    }

    /// The feeds.
    pub fn feeds(&self) -> &Feeds
        ensures { result.now ≡ self.now.setting.feeds }
    {
        &self.feeds
    }

    /// The delay behind the loss of members.
    pub fn delay(&self) -> Delay
        ensures { result ≡ self.now.state.delay }
    {
        self.circle.delay()
    }

    /// The time in milliseconds.
    pub fn moment(&self) -> u64
        ensures { result ≡ self.now.state.moment }
    {
        self.circle.moment()
    }

    /// The calls that were answered.
    pub fn journaled(&self) -> &[JournalEntry]
        ensures { result.now ≡ self.now.state.journal }
    {
        self.journal.as_slice()
    }

    /// The disk whose fault ended all writing, and its count of faults.
    pub fn closed(&self) -> Option<(DiskName, u64)>
        ensures { result ≡ self.now.state.closed }
    {
        self.closed
    }

    /// Refuses where writing has ended.
    pub fn test_open(&self) -> Result<(), WorldFault>
        ensures { result ≡ open_test self.now.state.closed (Ok tt) }
    {
        match &self.closed {
            Some((disk, count)) => Err(WorldFault::Closed {
                disk: *disk,
                count: *count,
            }),
            None => Ok(()),
        }
    }

    /// Refuses where writing has ended or the worker was killed.
    pub(crate) fn test_worker(&self, w: u32) -> Result<(), WorldFault>
        requires { w < length self.now.state.rows }
        ensures { result ≡ worker_test w self.now.state }
    {
        self.test_open()?;
        if self.crew.row(w).live {
            Ok(())
        } else {
            Err(WorldFault::Dead(w))
        }
    }

    /// Refuses where writing has ended or the instance has.
    pub(crate) fn test_instance(&self, i: u64) -> Result<(), WorldFault>
        requires { i < length self.now.state.instances }
        ensures { result ≡ instance_test i self.now.state }
    {
        self.test_open()?;
        match self.crew.instance(i).phase {
            InstancePhase::Ended => Err(WorldFault::Gone(i)),
            _ => Ok(()),
        }
    }
}
