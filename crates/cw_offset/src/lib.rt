//! Committed offsets: what the offset log's records and the transaction list's sets make of each part (KIP-618).
//!
//! Its public contract says that its meaning is the list of calls made so far, that a part's committed offset is
//! the value of the last of its sets and committed puts, and that a call that was reserved can't want memory;
//! that bodies of the offset log are read and written by one exact form, that a compacted log opens and says the same,
//! and that which transaction is to be marked next goes by place in the log as it stands.
//! It stands on the ids of `cw_types`, the fields of `cw_bytes`, the rows of `cw_tables`, the keys of `cw_keys` and the
//! transaction list of `cw_txn`.
#![tactic(auto)]

mod body;
mod call;
mod laws;
mod state;
mod tables;
mod under;

pub use body::{OffsetEntry, read_offsets, write_offsets};
pub use call::OffsetCall;
pub use laws::{
    compacted_offsets_are_allowed, compacted_offsets_say_the_same, first_unmarked_goes_by_place,
};
pub use state::OffsetState;
