//! The board on which each worker's config view is published, so that whoever reads configs needn't wait for the
//! server's lock.
//!
//! Its public contract says that what a view shows of a worker is the view of a first part of the records that were
//! put for it, that no view is older than what its reader saw or was told of before, and which records are published
//! behind each put. It stands on `left_right`'s reader and writer over two copies of the config states, and on
//! `logbook`'s history, by which what is shown is tied to what was put.
#![tactic(auto)]

mod history;
mod opening;
mod posted;
mod press;
mod reader;
mod shelf;
mod shelves;
mod writer;

pub use history::{BoardNaming, History};
pub use opening::open_board;
pub use posted::Posted;
pub use reader::{Board, BoardView};
pub use writer::{BoardWriter, Note, Unpublished};

#[cfg(test)]
mod tests;
