//! What a task's instance does at a step, whichever kind it is: how it begins, whether it waits, how a sink stores how
//! far it came, and what is told of an event that was refused.
//!
//! Its public contract promises that each of these does to the world what the model's step does in that phase, or that
//! memory is wanting and nothing has changed, or that a disk failed where the event would have been done; that a task
//! whose producer is fenced fails; and that a task waits just where the model's does.
//! It stands on the world.
#![tactic(auto)]

mod beginning;
mod pausing;
mod refusals;
mod storing;

pub use beginning::{at_inited, at_new, at_verified};
pub use pausing::waits;
pub use refusals::refuse;
pub use storing::at_delivered;
