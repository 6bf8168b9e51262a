//! What a leader is asked to do, and what it did.
use cw_json::Props;
use cw_keys::Target;
use cw_txn::SetOffset;
use cw_types::{Epoch, Listed, LogName, Name, Tag};

/// What a leader is asked to do. Each operation is one event.
#[derive(Debug, Drop)]
pub enum Op {
    /// It claims the next lead epoch.
    Lead,
    /// It writes the tasks that a connector's config asks for, or, once these stand, their commit.
    Propose(Name),
    /// It fences the next producer of a connector's older tasks, or, once all are, writes that (KIP-618).
    Fence(Name),
    /// It marks the first transaction that has ended and isn't marked, in the data log before the offset log.
    Mark,
    /// It gives a connector a config, which makes one that isn't there.
    Connector(Name, Props),
    /// It gives a connector a target state; one that is stopped loses its tasks in the same frame (KIP-875).
    SetTarget(Name, Target),
    /// It removes a connector.
    Delete(Name),
    /// It sets offsets of a stopped connector (KIP-875).
    Offsets(Name, Listed<SetOffset>),
}

/// What an operation did.
#[derive(Debug, Drop)]
pub enum OpDone {
    /// It claimed this epoch.
    Lead(Epoch),
    /// It wrote so many tasks' configs.
    Proposed(u32),
    /// It committed the tasks, by the record of this offset.
    Committed(u64),
    /// It fenced the task of this number by this epoch.
    Fenced(u32, Epoch),
    /// It wrote that all are fenced, by the record of this offset.
    Recorded(u64),
    /// It marked a transaction in a log, as committed or not.
    Marked(LogName, Tag, bool),
    /// It wrote what was asked for.
    Written,
}
