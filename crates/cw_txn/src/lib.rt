//! The transaction coordinator: epochs of producers, commits of spans, and set offsets (KIP-98, KIP-618).
//!
//! Its public contract says that its meaning is a list of entries, that this list is always legal and that
//! every part's spans chain, and that a commit or a set is refused exactly where its epoch isn't the
//! producer's last, whatever its generation.
//! It stands on the ids and spans of `cw_types`, the fields of `cw_bytes` and the rows of `cw_tables`.
#![tactic(auto)]

mod allowed;
mod body;
mod coordinator;
mod entry;
mod epochs;
mod history;
mod owning;
mod parts;
mod replay;
mod tables;

pub use body::{BodyFault, read_entries, write_entries};
pub use coordinator::{
    Coordinator, TxnFault, have_distinct_parts, lists_stay_allowed, raw_transactions_are_new,
};
pub use entry::{Entry, SetOffset};
pub use owning::{are_of_distinct_parts, commits_own, sets_own};
pub use replay::{ListFault, Replay};
