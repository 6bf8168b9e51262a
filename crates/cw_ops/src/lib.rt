//! What a call of Connect's REST API comes to, decided over the cluster in memory, which it leaves as it is.
//!
//! Its public contract says of each call what it sees, what it is answered and whether it would succeed, which offsets
//! it sets, and what an event that was refused is answered: each is the model's. The answers to a call that writes are
//! made before it writes, so that none is wanting behind that. Want of memory is its only error.
//! It stands on the replies of `cw_reply`, on the rules that say through which leader a worker writes, and on the
//! cluster's look-ups.
#![tactic(auto)]

mod answering;
mod faults;
mod laws;
mod offsets;
mod seeing;

pub use answering::{Answering, Answers, answers_to, is_success, reply_now};
pub use faults::fault_reply;
pub use laws::{feeds_are_named, is_of_name};
pub use offsets::offsets_of;
pub use seeing::{is_reading, is_ready, seen_now};
