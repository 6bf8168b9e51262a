//! What each call of Connect's REST API is answered, as definitions over lists: the records of the config log, the
//! statuses, the transaction list and the names of the feeds.
//!
//! Its definitions also say what a call that writes appends: the records of each operation, and the entries by which
//! offsets are altered and reset. Its public functions carry worked cases, each as a contract.
//! It stands on the calls of `cw_route` and on the definitions of configs, statuses, transactions and classes.
#![tactic(auto)]

mod cases;

pub use cases::{
    absent_connector_is_not_found, connector_at_work_is_told, new_connector_is_told,
    refused_connector_is_told_why, stop_writes_two_records, stopped_connector_is_altered,
    stopped_connector_is_reset,
};
