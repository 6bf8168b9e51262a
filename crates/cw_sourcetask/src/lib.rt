//! What a task's instance does at a step: the one event of its phase, and its failure where its producer is fenced.
//!
//! Its public contract promises that a step does to the world what the model's step does, or that memory is wanting and
//! nothing has changed, or that a disk failed where the event would have been done; and that a stop at any moment of it
//! leaves of each log the list before the event or the one behind it. Of a sink's task it has all but the poll.
//! It stands on the world, on what both kinds of tasks do, and on the feeds that a source's poll looks at.
#![tactic(auto)]

mod committing;
mod laws;
mod polling;
mod scans;
mod steps;

pub use laws::batches_take_some;
pub use scans::scan;
pub use steps::{poll_step, step};
