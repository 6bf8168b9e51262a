//! What a group answers.
ghost use Rattle.std.specs.Prelude.{◌≡◌};
ghost use Rattle.cw_group.specs.Phases.{is_open, is_closed};

use cw_types::{Item, Listed};
use std::alloc::AllocError;
use thiserror::Error;

/// Where a round stands.
#[derive(Clone, Copy, Debug, PartialEq, Eq, Drop)]
pub enum Phase {
    /// Members join.
    Open,
    /// All have joined, and the leader makes the plan.
    Closed,
    /// Each member may ask for its share.
    Planned,
}

impl Phase {
    pub(crate) fn is_open(self) -> bool
        ensures { result ≡ is_open self }
    {
        match self {
            Phase::Open => true,
            Phase::Closed | Phase::Planned => false,
        }
    }

    pub(crate) fn is_closed(self) -> bool
        ensures { result ≡ is_closed self }
    {
        match self {
            Phase::Closed => true,
            Phase::Open | Phase::Planned => false,
        }
    }
}

/// Why a call was refused, in the order in which the reasons are tested.
#[derive(Debug, PartialEq, Eq, Drop, Error)]
pub enum GroupFault {
    /// The worker is no member, or not with this incarnation.
    #[error("no such member")]
    Unknown,
    /// The member says that it holds this item, which isn't in its claim.
    #[error("an item that the member may not run")]
    NotClaimed(Item),
    /// The member has joined this round.
    #[error("the member has joined this round")]
    AlreadyJoined,
    /// This member hasn't joined yet; it is the lowest such.
    #[error("worker {0} has not joined")]
    Missing(u32),
    /// The round has no plan yet.
    #[error("the round has no plan")]
    NoPlan,
    /// A lower member leads.
    #[error("a lower member leads")]
    NotLeader,
    /// The round is another one, or in another phase.
    #[error("the round is {current}")]
    OldGeneration {
        /// The group's round.
        current: u64,
    },
    /// Want of memory.
    #[error("out of memory")]
    Memory,
}

impl From<AllocError> for GroupFault {
    ghost use Rattle.std.specs.Prelude.{◌≡◌};
    ghost use Rattle.cw_group.specs.declared.answers.GroupFault.TheVariants.{Memory};

    ghost from_gives = { λ _ fault. fault ≡ Memory };

    fn from(_: AllocError) -> Self {
        GroupFault::Memory
    }
}

/// What a member is told of the plan.
#[derive(Debug, Drop)]
pub struct Synced {
    /// The round.
    pub round: u64,
    /// The lowest member.
    pub leader: u32,
    /// What the member is to run, in item order.
    pub assigned: Listed<Item>,
    /// What it is to give up.
    pub revoked: Listed<Item>,
}
