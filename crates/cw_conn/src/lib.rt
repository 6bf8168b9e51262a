//! One connection of the REST server: requests are read off a link, a desk answers each by an entry of the journal,
//! and the replies are written.
//!
//! Its public contract says, for each way in which a connection ends, which requests were read, by which entries the
//! desk answered them, and which bytes were written.
//! It stands on the messages of `cw_http`, the links of `cw_io`, the calls of `cw_route` and the journal of `cw_model`.
#![tactic(auto)]

mod desk;
mod ends;
mod memory_desk;
mod refusing;
mod serving;

pub use desk::Desk;
pub use ends::ConnEnd;
pub use memory_desk::MemDesk;
pub use serving::serve_conn;
