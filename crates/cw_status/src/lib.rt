//! The latest status of each connector and task: what the records of the status log make of it.
//!
//! Its public contract says that its meaning is the list of applied records, that an item's latest status is that
//! of the last record of it, that a record that was reserved can't want memory, and that a compacted log says the
//! same, now and behind any further records.
//! It stands on the items of `cw_types`, the records of `cw_bytes` and the statuses of `cw_keys`.
#![tactic(auto)]

mod laws;
mod record;
mod state;
mod table;

pub use laws::compacted_statuses_say_the_same;
pub use record::StatusRecord;
pub use state::StatusState;
