//! Steps of sink tasks: a task begins as a source's does, then hands out the committed records of a topic into its
//! file, and then stores how far it came.
//!
//! Its public contract promises that a step does to the world what the model's step does, or that memory is wanting and
//! nothing has changed, or that a disk failed where the event would have been done; and that the files grew by just
//! what the step hands out, or, where the outlet failed, by a first part of it, with the world as it was.
//! It stands on the world, on what both kinds of tasks do, on the rule whose turn it is, and on the outlet.
#![tactic(auto)]

mod delivering;
mod delivery;
mod fault;
mod gathering;
mod pouring;
mod stepping;
mod taking;

pub use delivery::Delivery;
pub use fault::SinkFault;
pub use gathering::gather;
pub use pouring::pour;
pub use stepping::step;
