//! Where a round and a worker stand.
ghost use Rattle.std.specs.Prelude.{◌≡◌};
ghost use Rattle.cw_group.specs.Phases.{is_open, is_closed};
ghost use Rattle.cw_model.specs.EventsLeading.{leads};
ghost use Rattle.cw_model.specs.Ready.{is_stable, is_stable_in};
ghost use Rattle.cw_model.specs.TickRules.{is_planned};

use cw_group::Phase;
use cw_model::RowPhase;

/// Whether members join.
pub(crate) fn is_open(phase: Phase) -> bool
    ensures { result ≡ is_open phase }
{
    match phase {
        Phase::Open => true,
        Phase::Closed | Phase::Planned => false,
    }
}

/// Whether the leader plans.
pub(crate) fn is_closed(phase: Phase) -> bool
    ensures { result ≡ is_closed phase }
{
    match phase {
        Phase::Closed => true,
        Phase::Open | Phase::Planned => false,
    }
}

/// Whether each member may ask for its share.
pub(crate) fn is_planned(phase: Phase) -> bool
    ensures { result ≡ is_planned phase }
{
    match phase {
        Phase::Planned => true,
        Phase::Open | Phase::Closed => false,
    }
}

/// Whether a worker has an assignment.
pub(crate) fn is_stable(phase: RowPhase) -> bool
    ensures { result ≡ is_stable phase }
{
    match phase {
        RowPhase::Stable { .. } => true,
        RowPhase::Out | RowPhase::Joining => false,
    }
}

/// Whether a worker has its assignment of a round.
pub(crate) fn is_stable_in(round: u64, phase: RowPhase) -> bool
    ensures { result ≡ is_stable_in round phase }
{
    match phase {
        RowPhase::Stable { round: own, .. } => own == round,
        RowPhase::Out | RowPhase::Joining => false,
    }
}

/// Whether a worker leads the round of its assignment.
pub(crate) fn leads(w: u32, phase: RowPhase) -> bool
    ensures { result ≡ leads w phase }
{
    match phase {
        RowPhase::Stable { leader, .. } => leader == w,
        RowPhase::Out | RowPhase::Joining => false,
    }
}
