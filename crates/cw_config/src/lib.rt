//! Replay of the config log: what its records say of each connector (Connect's config topic, KIP-618, KIP-875).
//!
//! Its public contract says that its meaning is the list of records that were accepted, that each look-up is
//! the view of that list by the last record of a key, that a record is refused exactly where its offset
//! isn't above all earlier ones, it is no record of the log, or it commits a task that has no record, that the
//! records of a reserved frame are applied without memory, and that a compacted list says what the whole one
//! says, now and behind any further records.
//! It stands on the names of `cw_types`, the properties of `cw_json`, the records of `cw_bytes`, and the keys and
//! values of `cw_keys`.
#![tactic(auto)]

mod fault;
mod laws;
mod records;
mod reserved;
mod rows;
mod state;
mod tables;

pub use fault::ApplyFault;
pub use laws::compacted_configs_say_the_same;
pub use records::{ConfigRecord, record_in};
pub use reserved::ReservedConfigs;
pub use state::ConfigState;
