//! Feeds: what a source yields between two positions, and where a poll of it cuts.
//!
//! Its public contract says which bytes are loaded, that a cut ends behind the most whole lines that it may
//! take, and that a yield is the bytes between, cut at each `\n`.
//! It stands on the names and parts of `cw_types` and the shelves of `cw_io`; line ends are found by `memchr`.
#![tactic(auto)]

mod cut;
mod feeds;
mod laws;
mod yields;

pub use cut::CutAnswer;
pub use feeds::Feeds;
pub use laws::{cuts_are_most, cuts_have_yields, yields_are_joined, yields_are_one};
