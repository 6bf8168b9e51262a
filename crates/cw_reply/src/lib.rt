//! Replies of Connect's REST API: what each call is answered, as JSON.
//!
//! Its public contract says that a reply is the one that the definitions of `cw_rest` give for what the call sees: the
//! first refusal that holds, else the success, byte for byte; and that what a body asks for is read by the same
//! definitions, for whoever writes it. Want of memory alone is an error.
//! It stands on these definitions, on the states of configs, statuses and transactions, and on `serde_json`.
#![tactic(auto)]

mod alteration;
mod body;
mod message;
mod offset;
mod page;
mod placed;
mod replies;
mod status;
mod texts;
mod view;

pub use body::{Asked, asked_in, config_in};
pub use message::{failed_reply, full_reply, memory_reply, rebalancing};
pub use offset::{partition_value, parts_seen, sets_in};
pub use replies::reply;
pub use view::View;
