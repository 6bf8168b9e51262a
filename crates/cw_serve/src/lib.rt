//! Connect's distributed mode as a server: workers' herders, task runners, connection handlers and a cleaner, in
//! threads of their own around one lock.
//!
//! Its public contract promises that the world which is given back is one that a run of the model's events reaches from
//! the world that was handed in, that the receipts of all answered calls are its journal, each entry once, or which one
//! isn't, that over each link which was accepted there was one connection, and that the entries of all connections are
//! those of the receipts, and why it ended.
//! It stands on the turns of `cw_turns`, which are made under the lock, on the line of `cw_line` in which links wait,
//! on the connections of `cw_conn`, on the desk of `cw_desk`, and on the board of `cw_board`, from which calls that
//! read configs are answered.
#![tactic(auto)]

mod accepting;
mod answering;
mod beginning;
mod cleaning;
mod common;
mod copying;
mod crew;
mod desk;
mod ending;
mod ends;
mod handling;
mod herding;
mod kept;
mod named;
mod naming;
mod outlet;
mod polling;
mod publishing;
mod running;
mod seeing;
mod serving;
mod shared;
mod sizes;
mod stepping;
mod turns;

pub use ends::{ServeEnd, Served};
pub use serving::serve;
pub use sizes::Sizes;
