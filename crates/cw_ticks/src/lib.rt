//! What a worker does next, decided over the cluster in memory, which it leaves as it is.
//!
//! Its public contract says of each rule of a worker's tick that it applies, and to what, just where the model says so,
//! and of the turn that a worker takes that it is that of the first rule that applies. It takes memory for what it
//! answers, and want of memory is its only error.
//! It stands on the model and on the cluster's look-ups.
#![tactic(auto)]

mod configured;
mod fences;
mod marks;
mod phases;
mod polls;
mod proposals;
mod reading;
mod records;
mod reporting;
mod rounds;
mod sink_polls;
mod starting;
mod stopping;
mod task_sets;
mod turn;
mod turns;

pub use fences::{fence_applies, has_producer_left};
pub use marks::mark_applies;
pub use polls::{cut_at, is_sink, parts_of, position_at, source_turn};
pub use proposals::{Proposal, are_deferred, proposal_of, propose_applies, ready};
pub use reading::read_applies;
pub use records::{commit_values, task_records};
pub use reporting::{report_applies, state_of};
pub use rounds::{close_applies, join_applies, lead_applies, plan_applies, sync_applies};
pub use sink_polls::sink_turn;
pub use starting::start_applies;
pub use stopping::{deaf_stop_applies, stop_applies};
pub use turn::Turn;
pub use turns::next_turn;
