//! What the logs hold, and what follows from it.
ghost use Rattle.std.specs.Prelude.{◌≡◌, ◌<◌, ◌-◌, ◌^◌, [], ℕ, Some, IfOk, length, map, min};
ghost use Rattle.cw_bytes.specs.Frames.{EachFrom, joined};
ghost use Rattle.cw_config.specs.Compaction.{configs_in};
ghost use Rattle.cw_data.specs.Body.{entry_bytes};
ghost use Rattle.cw_log.specs.Log.{length_of};
ghost use Rattle.cw_model.specs.Bodies.{statuses_in};
ghost use Rattle.cw_model.specs.ConfigsAllowed.{AreAllowedConfigs};
ghost use Rattle.cw_offset.specs.Replay.{replayed};
ghost use Rattle.cw_topics.specs.Statuses.{plain};
ghost use Rattle.cw_txn.specs.Allowed.{IsAllowedBehind};
ghost use Rattle.cw_txn.specs.Legal.{ChainsBehind, epoch_of};
ghost use Rattle.cw_types.specs.declared.ids.PartKey.{PartKey};

use crate::configs::Configs;
use crate::offset_log::OffsetLog;
use crate::opened::{configs_of, coordinator_of, data_of};
use crate::status_log::StatusLog;
use cw_bytes::Applied;
use cw_compact::{list_frames, list_txn};
use cw_config::{ConfigRecord, ConfigState};
use cw_data::{DataEntry, DataState};
use cw_offset::OffsetEntry;
use cw_status::StatusState;
use cw_txn::{Coordinator, Entry};
use cw_types::Listed;
use std::alloc::{AllocError, Global};
use std::collections::LinkedList;
use std::marker::Model;

/// What the logs hold, and what follows from it. A frame that comes brings its own place in the list of its log's
/// frames, so that putting it in takes no memory.
#[derive(Drop)]
pub struct Topics {
    pub(crate) config: LinkedList<Listed<Applied>>,
    pub(crate) config_side: u64,
    pub(crate) offsets: OffsetLog,
    pub(crate) status: LinkedList<Listed<Applied>>,
    pub(crate) status_side: u64,
    pub(crate) txn: LinkedList<Listed<Entry>>,
    pub(crate) statuses: StatusLog,
    pub(crate) configs: Configs,
    pub(crate) coordinator: Coordinator,
    pub(crate) data: DataState,
}

/// The numbers of the sides with which the logs of two sides are opened.
#[derive(Clone, Copy, Debug, Drop)]
pub struct Sides {
    /// That of the config log.
    pub config: u64,
    /// That of the offset log.
    pub offsets: u64,
    /// That of the status log.
    pub status: u64,
}

impl Model for Topics {
    ghost use Rattle.cw_topics.specs.Topics.{TopicsState};

    ghost Value = { TopicsState };

    ghost view = { λ t. record {
      config = record { frames = t.config; side = t.config_side };
      offsets = t.offsets;
      status = record { frames = t.status; side = t.status_side };
      txn = t.txn;
      configs = t.configs.records;
      statuses = t.statuses;
      entries = t.coordinator;
      batches = t.data;
      ready_configs = t.configs.ready;
    } };
}

impl Topics {
    /// With empty logs, of sides with the number 1.
    pub fn new(alloc: Global) -> Topics
        ensures { result ≡ record {
          config = record { frames = []; side = 1 };
          offsets = record { frames = []; side = 1; told = record { calls = []; reserved = [] } };
          status = record { frames = []; side = 1 };
          txn = [];
          configs = [];
          statuses = record { list = []; reserved = [] };
          entries = record { entries = []; reserved = [] };
          batches = record { entries = []; reserved = [] };
          ready_configs = [];
        } }
    {
        Topics {
            config: LinkedList::new(alloc),
            config_side: 1,
            offsets: OffsetLog::new(alloc),
            status: LinkedList::new(alloc),
            status_side: 1,
            txn: LinkedList::new(alloc),
            statuses: StatusLog::new(alloc),
            configs: Configs::new(alloc),
            coordinator: Coordinator::new(alloc),
            data: DataState::new(alloc),
        }
    }

    /// What the frames of the five logs hold as these are opened, and what follows from it: each record of the config
    /// log may stand where it does, and so may each entry of the transaction log, where each part goes on from where it
    /// ended; a disk can hold the data log.
    pub fn opened(
        alloc: Global,
        config: &[Listed<Applied>],
        offsets: &[OffsetEntry],
        status: &[Listed<Applied>],
        txn: &[Listed<Entry>],
        batches: Vec<DataEntry>,
        sides: &Sides,
    ) -> Result<Topics, AllocError>
        requires configs { AreAllowedConfigs [] (configs_in config.now) }
        requires entries { EachFrom IsAllowedBehind [] (joined txn.now) }
        requires chains { (part : PartKey) → EachFrom (ChainsBehind part) [] (joined txn.now) }
        requires size { length_of (map entry_bytes batches.items) < 2 ^ 64 }
        ensures { IfOk result (λ topics. topics ≡ record {
          config = record { frames = config.now; side = sides.now.config };
          offsets = record {
            frames = offsets.now;
            side = sides.now.offsets;
            told = record { calls = replayed (joined txn.now) offsets.now; reserved = [] };
          };
          status = record { frames = status.now; side = sides.now.status };
          txn = txn.now;
          configs = configs_in config.now;
          statuses = record { list = statuses_in status.now; reserved = [] };
          entries = record { entries = joined txn.now; reserved = [] };
          batches = record { entries = batches.items; reserved = [] };
          ready_configs = [];
        }) }
    {
        let states = states_of(alloc, config, offsets, status, txn, batches, sides.offsets)?;
        let lists = lists_of(alloc, config, status, txn)?;
        Ok(over(lists, states, sides))
    }

    /// The whole config log's state.
    pub fn configs(&self) -> &ConfigState
        ensures { result.now ≡ self.now.configs }
    {
        self.configs.state()
    }

    /// The transactions.
    pub fn coordinator(&self) -> &Coordinator
        ensures { result.now ≡ self.now.entries }
    {
        &self.coordinator
    }

    /// The data.
    pub fn data(&self) -> &DataState
        ensures { result.now ≡ self.now.batches }
    {
        &self.data
    }

    /// The latest statuses.
    pub fn statuses(&self) -> &StatusState
        ensures { result.now.applied ≡ plain self.now.statuses.list }
    {
        self.statuses.state()
    }

    /// How many statuses there are, at most 2^64 - 1.
    pub fn status_count(&self) -> u64
        ensures { result ≡ min (length self.now.statuses.list) (2 ^ 64 - 1) }
    {
        self.statuses.count()
    }

    /// The offset log.
    pub fn offsets(&self) -> &OffsetLog
        ensures { result.now ≡ self.now.offsets }
    {
        &self.offsets
    }

    /// The records of the config log, the oldest first.
    pub fn records(&self) -> &[ConfigRecord]
        ensures { result.now ≡ self.now.configs }
    {
        self.configs.records()
    }
}

// The frames of three logs, as they are kept.
#[derive(Drop)]
struct Lists {
    config: LinkedList<Listed<Applied>>,
    status: LinkedList<Listed<Applied>>,
    txn: LinkedList<Listed<Entry>>,
}

// Copies of frames, as they are kept.
fn lists_of(
    alloc: Global,
    config: &[Listed<Applied>],
    status: &[Listed<Applied>],
    txn: &[Listed<Entry>],
) -> Result<Lists, AllocError>
    ensures config { IfOk result (λ lists. lists.config ≡ config.now) }
    ensures status { IfOk result (λ lists. lists.status ≡ status.now) }
    ensures txn { IfOk result (λ lists. lists.txn ≡ txn.now) }
{
    Ok(Lists {
        config: list_frames(alloc, config)?,
        status: list_frames(alloc, status)?,
        txn: list_txn(alloc, txn)?,
    })
}

// What follows from the frames.
#[derive(Drop)]
struct States {
    configs: Configs,
    statuses: StatusLog,
    coordinator: Coordinator,
    offsets: OffsetLog,
    data: DataState,
}

// What follows from the frames that the logs hold.
fn states_of(
    alloc: Global,
    config: &[Listed<Applied>],
    offsets: &[OffsetEntry],
    status: &[Listed<Applied>],
    txn: &[Listed<Entry>],
    batches: Vec<DataEntry>,
    offsets_side: u64,
) -> Result<States, AllocError>
    requires configs { AreAllowedConfigs [] (configs_in config.now) }
    requires entries { EachFrom IsAllowedBehind [] (joined txn.now) }
    requires chains { (part : PartKey) → EachFrom (ChainsBehind part) [] (joined txn.now) }
    requires size { length_of (map entry_bytes batches.items) < 2 ^ 64 }
    ensures configs { IfOk result (λ s. s.configs ≡ record { records = configs_in config.now; ready = [] }) }
    ensures statuses { IfOk result (λ s. s.statuses ≡ record { list = statuses_in status.now; reserved = [] }) }
    ensures coordinator { IfOk result (λ s. s.coordinator ≡ record { entries = joined txn.now; reserved = [] }) }
    ensures offsets { IfOk result (λ s. s.offsets ≡ record {
      frames = offsets.now;
      side = offsets_side;
      told = record { calls = replayed (joined txn.now) offsets.now; reserved = [] };
    }) }
    ensures data { IfOk result (λ s. s.data ≡ record { entries = batches.items; reserved = [] }) }
{
    let coordinator = coordinator_of(alloc, txn)?;
    Ok(States {
        configs: configs_in(alloc, config)?,
        statuses: StatusLog::opened(alloc, status)?,
        offsets: OffsetLog::opened(alloc, offsets, offsets_side, txn, &coordinator)?,
        coordinator,
        data: data_of(alloc, batches)?,
    })
}

// The frames, and what follows from them.
fn over(lists: Lists, states: States, sides: &Sides) -> Topics
    ensures { result ≡ record {
      config = record { frames = lists.config; side = sides.now.config };
      offsets = states.offsets;
      status = record { frames = lists.status; side = sides.now.status };
      txn = lists.txn;
      configs = states.configs.records;
      statuses = states.statuses;
      entries = states.coordinator;
      batches = states.data;
      ready_configs = states.configs.ready;
    } }
{
    Topics {
        config: lists.config,
        config_side: sides.config,
        offsets: states.offsets,
        status: lists.status,
        status_side: sides.status,
        txn: lists.txn,
        statuses: states.statuses,
        configs: states.configs,
        coordinator: states.coordinator,
        data: states.data,
    }
}

// What the records say that the frames of the config log hold.
fn configs_in(alloc: Global, frames: &[Listed<Applied>]) -> Result<Configs, AllocError>
    requires { AreAllowedConfigs [] (configs_in frames.now) }
    ensures { IfOk result (λ configs. configs ≡ record { records = configs_in frames.now; ready = [] }) }
{
    let records = configs_of(alloc, frames)?;
    Configs::opened(alloc, records)
}
