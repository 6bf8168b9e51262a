//! The data log: batches of records in topics, and markers that say how their transactions ended (KIP-98).
//!
//! Its public contract says that its meaning is a list of batches and markers, that a record's offset is its
//! place among all records of its topic, where the last stable offset is, and which committed record comes next.
//! It stands on the ids of `cw_types`, the fields of `cw_bytes` and the rows of `cw_tables`.
#![tactic(auto)]

mod body;
mod entry;
mod state;
mod tables;
mod topic;
mod unmarked;

pub use body::{read_data, write_data};
pub use entry::{Batch, DataEntry, same_values};
pub use state::DataState;
