//! The line in which accepted links wait for a connection handler.
//!
//! Its public contract promises that the links are numbered from 0 in the order in which they were accepted, that those
//! taken, followed by those that wait, are those pushed, in order, and that behind the joins each was taken once, as
//! the listener gave it.
//! It stands on `crossbeam_queue`'s queue under a rule, and on the listeners of cw_net.
#![tactic(auto)]

mod accepting;
mod acceptor;
mod opening;
mod rule;
mod seat;
mod taker;

pub use accepting::{Accepted, accept_links};
pub use acceptor::Acceptor;
pub use opening::{Opened, open_line};
pub use rule::{Hand, InOrder, Line, Ticket};
pub use seat::Seat;
pub use taker::Taker;

#[cfg(test)]
mod tests;
