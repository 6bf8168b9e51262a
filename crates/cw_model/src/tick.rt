//! What a worker's tick did.
use cw_keys::State;
use cw_types::{Item, LogName, Name, Tag, TaskId};

/// What a worker's tick did: one event, by the first rule that applies.
#[derive(Debug, Drop)]
pub enum Tick {
    /// It read the config log, up to so many records.
    Read(u64),
    /// It stopped an item.
    Stop(Item),
    /// It joined this round.
    Join(u64),
    /// It closed this round.
    Close(u64),
    /// It planned this round.
    Planned(u64),
    /// It was told its assignment of this round.
    Sync(u64),
    /// It claimed this epoch as leader.
    Lead(u64),
    /// It wrote so many tasks' configs for a connector.
    Propose(Name, u32),
    /// It committed a connector's tasks by the record of this offset.
    Commit(Name, u64),
    /// It fenced a task's producer by this epoch.
    Fence(TaskId, u64),
    /// It wrote that a connector's producers are fenced, by the record of this offset.
    FenceRecord(Name, u64),
    /// It marked a transaction in a log, as committed or not.
    Mark(LogName, Tag, bool),
    /// It started an item, as the instance of this number.
    Start(Item, u64),
    /// It reported an item's state.
    Report(Item, State),
    /// There was nothing to do.
    Idle,
    /// Another leader has claimed a later epoch.
    LostLead {
        /// The epoch that it had.
        own: u64,
        /// The last.
        current: u64,
    },
    /// The worker was killed.
    Dead,
}
