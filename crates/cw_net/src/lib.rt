//! The outside of a server, as traits: where its links come from, what time it is, and gates at which a test may hold
//! its threads.
//!
//! Its public contract tells the links that a listener gave, in order, and says whether it has ended and that it fails
//! only where its count of faults rose, and that a clock never falls. What is in memory tells all, and fails as it is
//! told to.
//! It stands on the links of `cw_io`. `tcp` and `system_clock` have the adapters over a socket and the system's clock,
//! which are the trusted edge.
#![tactic(auto)]

mod clock;
mod gate;
mod listener;
mod memory_clock;
mod memory_listener;
mod system_clock;
mod tcp;

pub use clock::Clock;
pub use gate::{Gate, OpenGate, Point};
pub use listener::Listener;
pub use memory_clock::MemClock;
pub use memory_listener::MemListener;
pub use system_clock::SystemClock;
pub use tcp::PortListener;
