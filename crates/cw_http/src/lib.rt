//! Messages of HTTP/1: requests are read from a link, and replies are written to it.
//!
//! Its public contract says what stands at the front of the bytes that a peer sent, whichever pieces they came
//! in, and which one text a reply is.
//! It stands on the links of `cw_io`, on `cw_route` for its replies, and on `httparse`, `http` and `itoa`.
#![tactic(auto)]

mod fields;
mod head;
mod head_end;
mod laws;
mod outline;
mod reading;
mod replying;
mod request;
mod sending;

pub use laws::requests_are_one;
pub use reading::read_request;
pub use replying::{refusal, write_reply};
pub use request::{HttpFault, Request};
