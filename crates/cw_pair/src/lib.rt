//! A log of bodies on two disks, whose whole list can be replaced in one step.
//!
//! Its public contract says: whatever moment a stop comes at, the two disks stand for the list before the append or
//! the compaction in hand, or for the one after it; opening any two disks answers, and names the first harm and its
//! side exactly. It stands on the log of one disk in cw_log and on the disks of cw_disk.
#![tactic(auto)]

mod choice;
mod fault;
mod law;
mod open;
mod pair;
mod pair_body_log;
mod two;

pub use cw_log::CompactFault;
pub use fault::PairFault;
pub use law::pairs_read_one_way;
pub use pair::PairLog;
pub(crate) use two::Two;
