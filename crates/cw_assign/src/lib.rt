//! The plan of a round: which member of a group keeps, gives up and is newly given which items, and the
//! scheduled delay in which a lost member's items wait for it (KIP-415).
//!
//! Its public contract says that a plan is the one that its definition computes, and that it is valid:
//! it never gives away what a member still holds, and gives each item that is free once. Two plans one
//! after the other settle the group.
//! It stands on the items of `cw_types`.
#![tactic(auto)]

mod class;
mod delay;
mod items;
mod planning;
mod seat;
mod share;
mod standing;

pub use delay::Delay;
pub use items::{ItemSet, Kind};
pub use planning::{plan, plans_settle};
pub use share::{Holder, Plan, Share};
pub use standing::Standing;
