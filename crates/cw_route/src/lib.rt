//! Which call of Connect's REST API a method and a target are, and the replies to calls.
//!
//! Its public contract says for each method, target and body just which call they are, which of the
//! faults comes where there is none, and in plain words which paths the table's patterns spell.
//! It stands on the names and numbers of `cw_types`, on `matchit` and on `percent_encoding`.
#![tactic(auto)]

mod call;
mod laws;
mod operation;
mod page;
mod part;
mod reply;
mod routing;

pub use call::{Call, RouteFault};
pub use laws::{calls_hold_names, pages_are_called, table_reads};
pub use page::Page;
pub use reply::Reply;
pub use routing::route;
