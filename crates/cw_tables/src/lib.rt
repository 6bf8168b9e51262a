//! Ordered maps in which a missing row reads as a default.
//!
//! Its public contract says what a table reads at every key behind each call, in the words of std's maps.
//! It stands on std alone.
#![tactic(auto)]

mod rows;

pub use rows::{has_row, make_row, set_row, value_at};
