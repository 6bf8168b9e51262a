//! The five logs.
use cw_disk::Disk;
use cw_log::TopicLog;
use cw_pair::PairLog;

/// The five logs of a cluster, on eight disks.
#[derive(Drop)]
pub struct Logs<D: Disk> {
    /// Configs, task sets, target states and fences.
    pub config: PairLog<D>,
    /// Source offsets.
    pub offsets: PairLog<D>,
    /// Statuses.
    pub status: PairLog<D>,
    /// Epochs, commits and set offsets.
    pub txn: TopicLog<D>,
    /// Batches of records and their markers.
    pub batches: TopicLog<D>,
}
