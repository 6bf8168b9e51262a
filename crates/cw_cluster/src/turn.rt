//! Why a turn couldn't be taken.
use cw_model::WorldFault;
use cw_types::DiskName;

/// Why a worker didn't tick, or an instance didn't step.
#[derive(Debug, Drop)]
pub(crate) enum TurnFault {
    /// The cluster refuses it.
    Refused(WorldFault),
    /// Want of memory. Nothing has changed.
    Memory,
    /// A disk failed, and all writing has ended.
    Store {
        /// The disk.
        disk: DiskName,
        /// Its count of faults.
        count: u64,
    },
    /// What a sink's task hands out couldn't be written. The cluster is as it was.
    Outlet,
}
