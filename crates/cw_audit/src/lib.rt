//! The report that `connect audit` prints: what the logs on the disks of a stopped cluster hold.
//!
//! Its public contract says what the one text of a state is and that it lists just what it should, that an audit writes
//! this text for the state that the files stand for, or says why not, and that the disks then stand for the same lists.
//! It stands on cw_open, which opens and judges the disks, on the model, and on the pieces whose states it tells.
#![tactic(auto)]

mod auditing;
mod connectors;
mod end;
mod ids;
mod laws;
mod lines;
mod parts;
mod printing;
mod rows;
mod text;

pub use auditing::audit;
pub use end::{AuditEnd, Audited};
pub use laws::{reports_list_just_these, texts_tell_ids_apart};
pub use printing::report;
