//! The cluster as it is kept in memory: the workers and what they run, the group, and what follows from the logs.
//!
//! Its public contract says of each event that it has that it answers and changes just what the model's event does, or
//! answers want of memory and changes nothing. It has these, which touch no log: spawn, kill, deaf, hear, clock, join,
//! expire, close_round, store_plan, sync, read_config, start_item, stop_item, restart, verify, fetch, deliver, fail and
//! journal. An event that writes to a log is in two halves: one makes its tests and takes all its memory, the other
//! puts in what then stands in the log, and can't fail. These are so: init, commit, claim_lead, fence_one, set_offsets,
//! put_sink, raw_init and raw_commit of the transaction log; append_config and append_fence of the config log;
//! put_status of the status log; produce, and the marks of the data log; put_offsets, and the marks of the offset log;
//! and the compactions of the config, the status and the offset log.
//! It stands on the model, on the logs as they are kept in memory, and on the pieces whose states it keeps.
#![tactic(auto)]

mod agreeing;
mod batches;
mod cluster;
mod compacting;
mod config_log;
mod crew;
mod fenced;
mod fencing_record;
mod items;
mod joining;
mod journaling;
mod leading;
mod lookups;
mod marking;
mod numbers;
mod offering;
mod opened;
mod planning;
mod producing;
mod raw;
mod reporting;
mod rounds;
mod running;
mod sinks;
mod sizes;
mod sources;
mod steps;
mod workers;
mod writes;

pub use batches::{count_of, part_at};
pub use cluster::Cluster;
pub use leading::FenceFrame;
pub use planning::configured_items;
pub use reporting::connector_of;
