//! What a worker's herder does: one tick, which makes the one event that the first rule that applies asks for, one
//! operation of a leader, which is one event too, and one call of the REST API.
//!
//! Its public contract promises that a tick does to the world what the model's tick does, an operation what its event
//! does, and a call what the model's answer to it does, or that memory is wanting and nothing has changed, or that a
//! disk failed where the event would have been done; and that a stop at any moment of it leaves of each log the list
//! before the event or the one behind it. Where memory is wanting behind the event of a call, the worker alone hasn't
//! read yet what was written.
//! It stands on the world, on the rules that say what a worker does next, and on what calls see, are answered and
//! write.
#![tactic(auto)]

mod answering_calls;
mod calls;
mod items;
mod leading;
mod op;
mod operations;
mod proposing;
mod reading;
mod records;
mod rounds;
mod submitting;
mod taking;
mod ticking;
mod writing_calls;

pub use op::{Op, OpDone};
pub use operations::op_step;
pub use submitting::submit;
pub use ticking::tick;
