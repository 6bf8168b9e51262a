//! A mark of a transaction.
use cw_types::Tag;

/// How a transaction ended, as the logs of its records keep it behind them (Kafka's commit and abort markers, KIP-98).
#[derive(Debug, PartialEq, Eq, Drop)]
pub struct Mark {
    /// The transaction.
    pub tag: Tag,
    /// Whether it was committed.
    pub committed: bool,
}
