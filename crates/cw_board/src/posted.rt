//! A record that was put.
use cw_bytes::Applied;

/// A record of the config log that was put for a worker.
#[derive(Drop)]
pub struct Posted {
    /// The worker.
    pub worker: u32,
    /// The record.
    pub applied: Applied,
}
