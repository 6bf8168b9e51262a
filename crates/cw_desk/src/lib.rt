//! The desk of a server: calls of Connect's REST API, each answered and kept in the journal in one turn.
//!
//! Its public contract promises that a turn is what the model answers to the call and then its entry in the journal, or
//! want of memory with nothing kept; and that receipts of turns are found to be the journal exactly where they are it.
//! It stands on the herder, which answers, and on the world, which keeps.
#![tactic(auto)]

mod comparing;
mod laws;
mod lengths;
mod same;
mod turning;

pub use comparing::{Disagree, Member, compare};
pub use laws::turns_keep_the_journal;
pub use lengths::Lengths;
pub use turning::{entry_of_fault, turn};
