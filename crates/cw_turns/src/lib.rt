//! One turn of each of a server's threads on the world that it holds alone for so long: of a worker's herder, a task's
//! runner, the cleaner and the desk. No lock and no thread is known here.
//!
//! Its public contract says of each turn what it does by the model, that the world goes on from where the server began
//! (`GoesOn`): its state is behind a run from there, or where a disk failed, so are the states before the event in
//! flight and behind it; and that only the desk's turn keeps an entry in the journal. A world that is given back leaves
//! of its disks what stands for these states.
//! It stands on the herder, on the tasks, on the desk, and on the run of a cluster.
#![tactic(auto)]

mod answering;
mod beginning;
mod closed;
mod delivering;
mod giving_back;
mod herding;
mod naming;
mod seen;
mod stepping;

pub use answering::answer;
pub use beginning::begin;
pub use delivering::deliver;
pub use giving_back::give_back;
pub use herding::{compact, expire, herd};
pub use seen::keep_seen;
pub use stepping::{step, step_found};
