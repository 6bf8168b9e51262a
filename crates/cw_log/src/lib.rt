//! An append-only log of bodies on one disk, which survives a stop in any device call.
//!
//! Its public contract says: whatever moment a stop comes at, during a call or between two, what is
//! found again is the list of bodies before the append or after it, never less than what was
//! acknowledged and never anything else; opening any bytes answers, and names the first harm exactly.
//! It stands on the disks of cw_disk and on the names of the logs in cw_types.
#![tactic(auto)]

mod body_log;
mod calls;
mod compact;
mod fault;
mod find;
mod frame;
mod front;
mod law;
mod make;
mod open;
mod place;
mod scan;
mod topic;
mod topic_body_log;
mod visitor;
mod window;

pub use body_log::BodyLog;
pub use fault::{AppendFault, CompactFault, Harm, OpenCause, OpenFault, ReadFault};
pub use front::{Front, look};
pub use law::files_read_one_way;
pub(crate) use place::{Frame, Frames, Place};
pub use topic::TopicLog;
pub use visitor::{BodyVisitor, Nobody};
pub(crate) use window::Window;
