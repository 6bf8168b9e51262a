//! The calls that were answered.
use cw_route::{Call, Reply};

/// A call of the REST API that was answered, and how much of the session lists the reply saw.
#[derive(Debug, Drop)]
pub struct JournalEntry {
    /// The worker that was asked.
    pub worker: u32,
    /// Whether the reply was made from a published view of the worker's configs.
    pub board: bool,
    /// How many records of the config log it saw.
    pub prefix: u64,
    /// How many records of the status log it saw; 0 from a published view.
    pub statuses: u64,
    /// How many entries of the transaction list it saw; 0 from a published view.
    pub entries: u64,
    /// The call.
    pub call: Call,
    /// The reply.
    pub reply: Reply,
}
