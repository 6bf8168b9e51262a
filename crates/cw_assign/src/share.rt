//! Shares of a plan, and what is planned from.
use cw_types::{Item, Listed};

/// What a plan says of one member: what it keeps, what it is newly given, and what it must give up, each
/// in item order.
#[derive(Debug, Drop)]
pub struct Share {
    /// The member's worker.
    pub worker: u32,
    /// What it holds and keeps.
    pub kept: Listed<Item>,
    /// What it is newly given.
    pub fresh: Listed<Item>,
    /// What it holds and must give up, which is nobody's until a later plan gives it.
    pub revoked: Listed<Item>,
}

/// A plan: a share of each member, in the order of their numbers.
#[derive(Debug, Drop)]
pub struct Plan {
    /// The shares.
    pub shares: Listed<Share>,
}

/// A member with what it holds.
#[derive(Debug, Drop)]
pub struct Holder {
    /// The member's worker.
    pub worker: u32,
    /// What it holds, in item order.
    pub held: Listed<Item>,
}
