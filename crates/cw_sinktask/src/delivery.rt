//! What a sink's task hands out.
use cw_types::{Listed, Name};

/// The records that a sink's task hands out of one of its topics, and the file that they go to.
#[derive(Debug, Drop)]
pub struct Delivery {
    /// The place of the topic among the task's parts.
    pub turn: u32,
    /// The topic.
    pub topic: Name,
    /// The file that the task writes.
    pub file: Name,
    /// The position at which the records begin.
    pub from: u64,
    /// The position behind the last of them.
    pub to: u64,
    /// The records' values, in order.
    pub lines: Listed<Listed<u8>>,
}
