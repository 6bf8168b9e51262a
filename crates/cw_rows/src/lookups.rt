//! What the logs say, to be looked up.
ghost use Rattle.std.specs.Prelude.{◌≡◌, ◌-◌, ◌^◌, ◌<◌, length, min, is_some, Some, None, if◌then◌else◌};
ghost use Rattle.cw_data.specs.Log.{stable};
ghost use Rattle.cw_model.specs.EventsMarking.{unmarked_in};
ghost use Rattle.cw_rows.specs.Crew.{numbers_at};
ghost use Rattle.cw_topics.specs.Statuses.{plain};

use crate::cluster::Cluster;
use cw_config::ConfigRecord;
use cw_data::DataState;
use cw_status::StatusState;
use cw_txn::Coordinator;
use cw_types::{LogName, Name};

impl Cluster {
    /// The transactions.
    pub fn coordinator(&self) -> &Coordinator
        ensures { result.now.entries ≡ self.now.state.entries }
    {
        self.topics.coordinator()
    }

    /// The data.
    pub fn data_state(&self) -> &DataState
        ensures { result.now.entries ≡ self.now.state.batches }
    {
        self.topics.data()
    }

    /// The last stable offset of a topic: the place of its first record without marker, else its end (KIP-98,
    /// read_committed).
    pub fn stable(&self, topic: &Name) -> u64
        ensures { result ≡ stable topic.now self.now.state.batches }
    {
        self.topics.data().stable(topic)
    }

    /// The latest status of each connector and task.
    pub fn status_state(&self) -> &StatusState
        ensures { result.now.applied ≡ plain self.now.state.statuses }
    {
        self.topics.statuses()
    }

    /// How many statuses were reported since the cluster was opened, with those that it found; at most 2^64 - 1.
    pub fn status_count(&self) -> u64
        ensures { result ≡ min (length self.now.state.statuses) (2 ^ 64 - 1) }
    {
        self.topics.status_count()
    }

    /// How many records of the config log were told since the cluster was opened, with those that it found.
    pub fn config_count(&self) -> u64
        ensures { result ≡ length self.now.state.configs }
    {
        self.topics.records().len() as u64
    }

    /// The records of the config log, the oldest first, with those that a compaction dropped since the cluster was
    /// opened.
    pub fn config_records(&self) -> &[ConfigRecord]
        ensures { result.now ≡ self.now.state.configs }
    {
        self.topics.records()
    }

    /// The numbers of the instances that a worker runs, the oldest first.
    pub fn numbers_of(&self, w: u32) -> &[u64]
        requires { w < length self.now.state.rows }
        ensures { result.now ≡ numbers_at w self.now.state.instances }
    {
        self.crew.numbers(w)
    }

    /// The log in which a transaction has ended and isn't marked: the data log before the offset log.
    pub fn unmarked_log(&self) -> Option<LogName>
        ensures { result ≡ (if is_some (unmarked_in LogName.Batches self.now.state) then Some LogName.Batches else
            if is_some (unmarked_in LogName.Offsets self.now.state) then Some LogName.Offsets else None) }
    {
        let coordinator = self.topics.coordinator();
        if self.topics.data().first_unmarked(coordinator).is_some() {
            return Some(LogName::Batches);
        }
        if self.unmarked_offset().is_some() {
            return Some(LogName::Offsets);
        }
        None
    }
}
