//! What the cluster knows of a worker.
use cw_types::{Epoch, Item, Listed, Name};

/// Where a worker stands in the group (KIP-415).
#[derive(Clone, Copy, Debug, PartialEq, Eq, Drop)]
pub enum RowPhase {
    /// It never joined.
    Out,
    /// It has joined, and has no assignment of the round yet.
    Joining,
    /// It has its assignment.
    Stable {
        /// The round of the assignment.
        round: u64,
        /// The worker that leads that round.
        leader: u32,
    },
}

/// How far a leader has fenced the producers of a connector's older task sets (KIP-618).
#[derive(Debug, Drop)]
pub struct Fencing {
    /// The connector.
    pub connector: Name,
    /// The generation of tasks before which the producers are fenced.
    pub generation: u64,
    /// The first task whose producer isn't fenced yet.
    pub next: u32,
    /// How many tasks' producers are to be fenced.
    pub count: u32,
}

/// A worker.
#[derive(Debug, Drop)]
pub struct Row {
    /// Whether it wasn't killed.
    pub live: bool,
    /// Whether it hears the group; one that is deaf goes on with what it runs.
    pub hearing: bool,
    /// As which member it entered the group last.
    pub incarnation: Option<u64>,
    /// Where it stands in the group.
    pub phase: RowPhase,
    /// The round of its last assignment, 0 before the first.
    pub round: u64,
    /// What it is to run.
    pub assigned: Listed<Item>,
    /// What it is to give up.
    pub revoked: Listed<Item>,
    /// How many records of the config log it has read.
    pub prefix: u64,
    /// Its epoch as leader, if it claimed one.
    pub lead: Option<Epoch>,
    /// How far it has fenced, if it began to.
    pub fencing: Option<Fencing>,
}
