//! The world: the one owner of the logs, the states over them, the group, the workers and what they run.
//!
//! Its public contract says of each event that it answers and changes just what the model's event does, or wants memory
//! and changes nothing, or meets a disk that fails, which ends all writing; and that a stop at any moment of it leaves
//! of its log the list before the event or the one behind it. Its type keeps all facts by which every state is safe,
//! and while no disk has failed the logs hold just what stands in the state. What any event does, whichever of these
//! it is, `Acts` says in one word (specs/World.antt), and proofs/Acting.antt has it of each form of contract.
//! Each world has a name of its own, which no event changes: receipts and the journal show whose they are.
//! It stands on the logs, on the cluster in memory, and on the laws of the model.
//! It has all events of the model: those that touch no log (spawn, kill, deaf, hear, join, expire, close_round,
//! store_plan, sync, read_config, start_item, stop_item, restart, verify, fetch, deliver and fail, and the clock);
//! those of the transaction log (init, commit, claim_lead, fence_one, set_offsets, put_sink, raw_init, raw_commit);
//! append_config and append_fence of the config log; put_offsets of the offset log; put_status of the status log;
//! produce of the data log; mark of the data and the offset log; compact of the config, the offset and the status log;
//! and journal, which keeps the calls that were answered.
#![tactic(auto)]

mod compaction;
mod config_log;
mod giving_back;
mod items;
mod joining;
mod journal;
mod leading;
mod logs;
mod lookups;
mod marking;
mod name;
mod offering;
mod producing;
mod raw;
mod reports;
mod rounds;
mod sinks;
mod sources;
mod steps;
mod workers;
mod world;
mod write;

pub use journal::{Journal, Receipt};
pub use logs::Logs;
pub use world::World;
