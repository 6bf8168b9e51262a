//! What a worker does next.
use cw_keys::State;
use cw_types::{Item, LogName, Name};

/// What a worker does next: one event, by the first rule that applies.
#[derive(Debug, Drop)]
pub enum Turn {
    /// It reads the config log.
    Read,
    /// It stops an item.
    Stop {
        /// The item.
        item: Item,
        /// The number of its instance.
        number: u64,
    },
    /// It joins a round.
    Join,
    /// It closes the round.
    Close,
    /// It plans the round.
    Plan,
    /// It is told its assignment.
    Sync,
    /// It claims a lead epoch.
    Lead,
    /// The leader writes the tasks of a connector that the worker runs.
    Propose {
        /// The leader through which they are written.
        leader: u32,
        /// The connector.
        connector: Name,
        /// Whether its tasks wait for their commit, and that is written.
        commits: bool,
    },
    /// It fences a producer of a connector's older tasks.
    Fence {
        /// The connector.
        connector: Name,
        /// Whether a producer is still to be fenced; else what is left is the record that all are.
        producer: bool,
    },
    /// It marks a transaction in a log.
    Mark(LogName),
    /// It starts an item.
    Start(Item),
    /// It reports an item's state.
    Report(Item, State),
    /// There is nothing to do.
    Idle,
}
