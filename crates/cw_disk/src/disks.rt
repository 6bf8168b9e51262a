// The eight disks of a cluster.

/// The eight disks of a cluster: two for each log that is compacted from one side onto the other, and
/// one for each of the other two.
#[derive(Drop)]
pub struct Disks<D> {
    /// Side a of the config log.
    pub config_a: D,
    /// Side b of the config log.
    pub config_b: D,
    /// Side a of the offset log.
    pub offsets_a: D,
    /// Side b of the offset log.
    pub offsets_b: D,
    /// Side a of the status log.
    pub status_a: D,
    /// Side b of the status log.
    pub status_b: D,
    /// The transaction log.
    pub txn: D,
    /// The data log.
    pub batches: D,
}
