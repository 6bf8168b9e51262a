//! Compaction of the config log, the offset log and the status log, as Kafka's compacted topics have it.
//!
//! Its public contract says that what is left is just what `cw_config`, `cw_offset` and `cw_status` call the compacted
//! log: of each key the last record stays, and of the config log all that stands where a task's config still waits for
//! its commit, and of the offset log what no abort and no later change has outdated, with its markers; want of memory
//! is the only refusal. It says too that frames of records are read from just the bodies that are written for them.
//! With n records a compaction takes n log n steps, and it copies keys, never values.
//! It stands on the records of `cw_bytes`, the tables of `cw_tables`, the keys of `cw_keys`, and the definitions and
//! entries of `cw_config`, `cw_offset`, `cw_status` and `cw_txn`.
#![tactic(auto)]

mod bodies;
mod clean;
mod copies;
mod frames;
mod key;
mod keyed;
mod lasts;
mod left;
mod offsets;
mod outcomes;
mod stored;

pub use bodies::{read_frames, write_frames};
pub use copies::{copy_entries, copy_offset, copy_txn, list_frames, list_offsets, list_txn};
pub use frames::{hang, list_of, one_frame};
pub use keyed::{compact_configs, compact_statuses};
pub use left::{LeftOffsets, LeftRecords, left_configs, left_offsets, left_statuses};
pub use offsets::compact_offsets;
