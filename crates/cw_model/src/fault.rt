//! Why an event was refused.
use cw_group::GroupFault;
use cw_types::{DiskName, LogName};
use thiserror::Error;

/// Why an event was refused.
#[derive(Debug, PartialEq, Eq, Drop, Error)]
pub enum WorldFault {
    /// The epoch isn't its producer's last (KIP-98, fencing of zombies).
    #[error("fenced: epoch {own} isn't {current}")]
    Fenced {
        /// The epoch.
        own: u64,
        /// The producer's last.
        current: u64,
    },
    /// The generation isn't the connector's newest, or the task isn't one of that generation.
    #[error("stale: generation {own} isn't {current}")]
    StaleGeneration {
        /// The generation.
        own: u64,
        /// The newest.
        current: u64,
    },
    /// The producers of the connector's older tasks aren't all fenced yet (KIP-618).
    #[error("the producers of older tasks aren't all fenced yet")]
    PendingFence,
    /// The span isn't one that may be taken.
    #[error("no span to take from {from} to {to}")]
    BadCut {
        /// Where it was to begin.
        from: u64,
        /// Where it was to end.
        to: u64,
    },
    /// The instance has ended.
    #[error("instance {0} has ended")]
    Gone(u64),
    /// The log has no room for the frame.
    #[error("{log:?} has {length} bytes and no room for {frame} more")]
    Full {
        /// The log.
        log: LogName,
        /// Its length in bytes.
        length: u64,
        /// The bytes that were to be appended.
        frame: u64,
    },
    /// A disk failed.
    #[error("{disk:?} failed, with {count} faults")]
    StoreFault {
        /// The disk.
        disk: DiskName,
        /// Its count of faults.
        count: u64,
    },
    /// A disk failed before.
    #[error("{disk:?} failed before, with {count} faults")]
    Closed {
        /// The disk.
        disk: DiskName,
        /// Its count of faults.
        count: u64,
    },
    /// The worker was killed.
    #[error("worker {0} was killed")]
    Dead(u32),
    /// The group refused.
    #[error("{0}")]
    Group(GroupFault),
    /// There are as many workers as there may be.
    #[error("there are as many workers as there may be")]
    TooMany,
    /// Want of memory.
    #[error("out of memory")]
    Memory,
}
