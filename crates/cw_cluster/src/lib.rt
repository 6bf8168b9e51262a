//! The player of a cluster's script.
//!
//! `drive` plays a script over a world and an outlet: its contract says, at each end, which answers were written, which
//! state is left, what a stop leaves of the eight disks, and what the outlet's files grew by. Where a disk fails in a
//! line, a stop leaves what stood before its event or behind it, and both are states of a run.
//! `Player` plays lines one by one for whoever makes them, with the same contract.
//! It stands on the run of a script as its definitions have it, on the world and the steps over it, on the cluster's
//! model, on the calls of the REST API, on what opens logs again, and on the language of scripts and its lines.
#![tactic(auto)]

mod answers;
mod begun;
mod directives;
mod driving;
mod events;
mod outcome;
mod player;
mod quiet;
mod requests;
mod running;
mod settling;
mod stepping;
mod texts;
mod turn;
mod turning;
mod wording;

pub use begun::Begun;
pub use cw_lines::DriveEnd;
pub use driving::{Driven, drive};
pub use player::Player;
pub use running::Running;
