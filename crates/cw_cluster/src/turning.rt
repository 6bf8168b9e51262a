//! Whose workers tick and whose instances step.
ghost use Rattle.std.specs.Prelude.{◌≡◌, ◌<◌, ℕ, true, length, IfOk, IfErr};
ghost use Rattle.cw_model.specs.State.{Setting, Cluster};
ghost use Rattle.cw_model.specs.Lookups.{row_of};
ghost use Rattle.cw_lines.specs.Players.{Faults, NoneFell};
ghost use Rattle.cw_run.specs.Ran.{Ran};
ghost use Rattle.cw_run.specs.Settling.{may_step};
ghost use Rattle.cw_cluster.specs.Turning.{IsTick, IsStep, TurnCaused, UnlessBroken, is_idle_at, rests_at};

use crate::turn::TurnFault;
use cw_model::{Did, Tick};
use std::alloc::{AllocError, Global};

/// A cluster, kept in some way with the files of its sinks' tasks, whose workers and instances take turns.
pub(crate) trait Turning {
    /// What it is set to.
    ghost setting: { Self → Setting };

    /// How far it ran: the cluster's state, and the files of its sinks' tasks.
    ghost ran: { Self → Ran };

    /// Whether its events can be made: nothing that it writes to is broken.
    ghost alive: { Self → Type 0 };

    /// The counts of faults of what it writes to.
    ghost faults: { Self → Faults };

    /// A disk failed where, from so far on, this was to become the cluster's state.
    ghost broken: { Self → Ran → Cluster → Type 0 };

    /// How many workers there are, those that were killed among them.
    fn workers(&self) -> u32
        ensures { result ≡ length (ran self.now).cluster.rows };

    /// How many instances there are, those that ended among them.
    fn instances(&self) -> u64
        ensures { result ≡ length (ran self.now).cluster.instances };

    /// Whether a worker lives.
    fn is_live(&self, w: u32) -> bool
        ensures { result ≡ (row_of w (ran self.now).cluster).live };

    /// Whether an instance neither ended nor failed.
    fn may_step(&self, i: u64) -> bool
        ensures { result ≡ may_step i (ran self.now).cluster };

    /// A worker ticks.
    fn tick(&mut self, w: u32) -> Result<Tick, TurnFault>
        requires alive { alive self.old }
        requires live { (row_of w (ran self.old).cluster).live ≡ true }
        ensures turn { IsTick (broken self.new) w (ran self.old) (ran self.new) result }
        ensures setting { setting self.new ≡ setting self.old }
        ensures alive { UnlessBroken (alive self.new) result }
        ensures later { NoneFell (faults self.old) (faults self.new) }
        ensures caused { IfErr result (TurnCaused (faults self.old) (faults self.new)) };

    /// An instance steps. Where a sink's task can't write its file, a first part of what it hands out may stand there.
    fn step(&mut self, i: u64) -> Result<Did, TurnFault>
        requires alive { alive self.old }
        requires may { may_step i (ran self.old).cluster ≡ true }
        ensures turn { IsStep (broken self.new) (setting self.old) i (ran self.old) (ran self.new) result }
        ensures setting { setting self.new ≡ setting self.old }
        ensures alive { UnlessBroken (alive self.new) result }
        ensures later { NoneFell (faults self.old) (faults self.new) }
        ensures caused { IfErr result (TurnCaused (faults self.old) (faults self.new)) };

    /// Whether a worker takes no part in the group, or its tick would find nothing to do.
    fn is_idle(&self, alloc: Global, w: u32) -> Result<bool, AllocError>
        requires there { w < length (ran self.now).cluster.rows }
        ensures { IfOk result (λ idle. idle ≡ is_idle_at w (ran self.now).cluster) };

    /// Whether an instance's step would find nothing to do, or that it ended.
    fn rests(&self, alloc: Global, i: u64) -> Result<bool, AllocError>
        requires there { i < length (ran self.now).cluster.instances }
        ensures { IfOk result (λ rests. rests ≡ rests_at (setting self.now) i (ran self.now).cluster) };
}
