//! The outside, as traits: where a script comes from, where its answers go, where feeds are kept,
//! where the lines of sinks go, and a connection with a peer.
//!
//! Its public contract says, for each call, which bytes were taken, added or found where the object tells
//! its content, and that a call fails only where the object's count of faults rose. Every object begins
//! with a count of 0. Those in memory tell everything and fail at the calls that they are told to.
//! It stands on cw_types. `standard`, `folder`, `folder_outlet` and `tcp` have the adapters over real streams, a folder
//! and a socket, which are the trusted edge.
#![tactic(auto)]

mod call_plan;
mod folder;
mod folder_outlet;
mod link;
mod memory;
mod memory_link;
mod memory_outlet;
mod memory_shelf;
mod outlet;
mod portions;
mod shelf;
mod standard;
mod tcp;
mod traits;

pub use call_plan::CallPlan;
pub use folder::FolderShelf;
pub use folder_outlet::FolderOutlet;
pub use link::{Link, send_all};
pub use memory::{MemSink, MemSource};
pub use memory_link::MemLink;
pub use memory_outlet::MemOutlet;
pub use memory_shelf::MemShelf;
pub use outlet::Outlet;
pub use shelf::{Shelf, ShelfFault};
pub use standard::{ReaderSource, WriterSink};
pub use tcp::TcpLink;
pub use traits::{Failed, Sink, Source, write_all};
