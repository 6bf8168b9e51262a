//! What the program `connect` does for its words: the top call, which carries the theorem of the whole.
//!
//! Over the cluster for which its disks stand and the lines that it reads, or the calls that it serves, `connect`
//! answers these and nothing else, every state on the way is safe, what a stop leaves of the disks stands for the state
//! that is left, or where a disk failed for that before or behind the event in flight, and damaged files are refused at
//! their first harm. It stands on cw_words, cw_feed, cw_open, cw_cluster, cw_serve, cw_turns, cw_audit and cw_gen.
#![tactic(auto)]

mod auditing;
mod driving;
mod ending;
mod generating;
mod opening;
mod serving;
mod status;
mod top;

pub use ending::{exit_number, status_of_fault};
pub use status::Status;
pub use top::{Outcome, connect};
