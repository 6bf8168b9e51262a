//! What a call sees of the cluster.
use cw_config::ConfigState;
use cw_status::StatusState;
use cw_txn::Coordinator;
use cw_types::Name;

/// What a call of the REST API sees of the cluster.
#[derive(Clone, Copy, Drop)]
pub struct View<'a> {
    /// Whether the asked worker may write: there is a leader for it, which has claimed the last lead epoch.
    pub ready: bool,
    /// The configs: as far as the asked worker has read for a call that reads, all of them for another.
    pub config: &'a ConfigState,
    /// The latest statuses.
    pub statuses: &'a StatusState,
    /// The transaction list, in which the offsets are.
    pub txn: &'a Coordinator,
    /// The names of the feeds.
    pub feeds: &'a [Name],
}
