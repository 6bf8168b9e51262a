//! The five logs and the eight disks that they lie on.

/// One of the five logs, in the order in which they are opened.
#[derive(Clone, Copy, Debug, PartialEq, Eq, PartialOrd, Ord, Drop)]
pub enum LogName {
    /// Connector configs, task sets, target states and fences (Connect's config topic).
    Config,
    /// Source offsets (Connect's offset topic).
    Offsets,
    /// Statuses of connectors and tasks (Connect's status topic).
    Status,
    /// Epochs, commits and set offsets (Kafka's transaction coordinator).
    Txn,
    /// Batches of records and their markers.
    Batches,
}

/// One of the eight disks, in the order in which they are opened. A log that is kept on two sides has
/// two of them.
#[derive(Clone, Copy, Debug, PartialEq, Eq, PartialOrd, Ord, Drop)]
pub enum DiskName {
    /// Side a of the config log.
    ConfigA,
    /// Side b of the config log.
    ConfigB,
    /// Side a of the offset log.
    OffsetsA,
    /// Side b of the offset log.
    OffsetsB,
    /// Side a of the status log.
    StatusA,
    /// Side b of the status log.
    StatusB,
    /// The transaction log.
    Txn,
    /// The data log.
    Batches,
}
