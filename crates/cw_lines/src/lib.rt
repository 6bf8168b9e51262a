//! A script that is read piece by piece: its lines, and who plays them.
//!
//! Its public contract says, over any player of lines and any state, which answers were written and which state is
//! left at each end of a script: all answers where nothing failed, else those before the failure.
//! It stands on cw_io's sources and sinks, on cw_script's faults of lines and on cw_types.
#![tactic(auto)]

mod drive;
mod end;
mod lines;
mod player;
mod reading;
mod telling;

pub use drive::drive_lines;
pub use end::DriveEnd;
pub use player::LinePlayer;
