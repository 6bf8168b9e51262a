//! A large script that is made from a number, and what its run comes to.
//!
//! Its public contract says which script it is, directive by directive, and that what is printed sums up the run of
//! just this script over empty logs: how many transactions were committed, how many steps were answered that they are
//! fenced, and how many records are committed; at each other end, why nothing is printed.
//! It stands on the cluster's run of a script and on its player, and on what opens logs.
#![tactic(auto)]

mod commits;
mod directives;
mod draws;
mod end;
mod generating;
mod making;
mod nowhere;
mod opening;
mod records;
mod steady_disk;
mod summing;

pub use end::GenEnd;
pub use generating::generate;
