//! What a worker runs.
use cw_keys::State;
use cw_plugin::TaskSpec;
use cw_types::{Epoch, Item, Listed};

/// A span of one of a task's parts.
#[derive(Clone, Copy, Debug, PartialEq, Eq, Drop)]
pub struct Cut {
    /// Which of the task's parts, counted from 0.
    pub turn: u32,
    /// The position at which the span begins.
    pub from: u64,
    /// The position behind the span.
    pub to: u64,
}

/// Why an instance failed.
#[derive(Clone, Copy, Debug, PartialEq, Eq, Drop)]
pub enum Trace {
    /// Its epoch isn't its producer's last.
    Fenced {
        /// Its epoch.
        own: u64,
        /// The producer's last.
        current: u64,
    },
    /// A line of a feed is too long; this is where it begins.
    LineTooLong(u64),
}

/// What an instance does next: a source task initialises its producer, verifies its generation, fetches its
/// positions, and then polls, produces, stores offsets and commits (KIP-618).
#[derive(Clone, Copy, Debug, PartialEq, Eq, Drop)]
pub enum InstancePhase {
    /// A connector's instance, which does nothing.
    Connector,
    /// A task that has no epoch yet.
    New,
    /// It has its epoch.
    Inited,
    /// Its generation is the newest, and that is fenced.
    Verified,
    /// It has its positions.
    Polling,
    /// A source's batch stands in the data log.
    Produced,
    /// The batch's offset stands in the offset log.
    Offered,
    /// A sink's records were written, and their offset isn't stored yet.
    Delivered,
    /// It failed.
    Failed,
    /// It ended.
    Ended,
}

/// A connector or task at a worker.
#[derive(Debug, Drop)]
pub struct Instance {
    /// The worker.
    pub worker: u32,
    /// The connector or task.
    pub item: Item,
    /// What it does next.
    pub phase: InstancePhase,
    /// The generation of its task set; 0 for a connector.
    pub generation: u64,
    /// The epoch of its producer, if it has one.
    pub epoch: Option<Epoch>,
    /// The number of its next transaction.
    pub number: u64,
    /// What it reads or writes; none for a connector.
    pub task: Option<TaskSpec>,
    /// Its position in each of its task's parts, once it has fetched them.
    pub positions: Listed<u64>,
    /// The part that was taken last, counted from 0.
    pub last: Option<u32>,
    /// What it produced or delivered last.
    pub cut: Option<Cut>,
    /// Why it failed.
    pub trace: Option<Trace>,
    /// The state that was reported of it last.
    pub reported: Option<State>,
}
