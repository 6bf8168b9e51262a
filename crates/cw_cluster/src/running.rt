//! What runs while a script is played: a world with its logs, and the outlet of its sinks' tasks. Its workers and its
//! instances take turns, each as one event.
ghost use Rattle.std.specs.Prelude.{◌≡◌, ◌||◌, ℕ, List, is_some, not};
ghost use Rattle.cw_model.specs.Phases.{is_ended, has_failed};
ghost use Rattle.cw_world.specs.Ending.{disks_of};
ghost use Rattle.cw_run.specs.Ran.{Ran};
ghost use Rattle.cw_cluster.specs.Breaking.{IsAlive, ran_of};
ghost use Rattle.cw_cluster.specs.Driven.{IsLeft, IsLeftBroken};
ghost use Rattle.cw_cluster.specs.Lined.{IsBrokenInLine};
ghost use Rattle.cw_cluster.specs.Turning.{fault_of_turn};

use crate::begun::Begun;
use crate::quiet::{is_idle, rests};
use crate::stepping::step;
use crate::turn::TurnFault;
use crate::turning::Turning;
use cw_disk::{Disk, Disks};
use cw_herder::tick;
use cw_io::Outlet;
use cw_model::{Did, InstancePhase, Tick, WorldFault};
use cw_open::given_disks_leave_what_was_stored;
use cw_sinktask::SinkFault;
use cw_world::World;
use std::alloc::{AllocError, Global};
use std::marker::PhantomData;

/// A world, and the outlet that its sinks' tasks hand out to. What the cluster is set to and whether the outlet tells
/// its files stay as they were when the drive began.
pub struct Running<K: Begun, D: Disk, U: Outlet> {
    pub(crate) alloc: Global,
    pub(crate) world: World<D>,
    pub(crate) outlet: U,
    pub(crate) begun: PhantomData<K>,
    ghost setting: { world.setting ≡ K.setting },
    ghost told: { is_some (U.files outlet) ≡ K.told },
}

impl<K: Begun, D: Disk, U: Outlet> Running<K, D, U> {
    /// Begins over a world and an outlet.
    pub fn new(alloc: Global, world: World<D>, outlet: U) -> Running<K, D, U>
        requires setting { world.setting ≡ K.setting }
        requires told { is_some (U.files outlet) ≡ K.told }
        ensures world { result.world ≡ world }
        ensures outlet { result.outlet ≡ outlet }
    {
        Running {
            alloc,
            world,
            outlet,
            begun: PhantomData,
        }
    }

    /// Gives the disks and the outlet back: a stop leaves of the disks what stands in the cluster, or where a disk
    /// failed in a line what stood before its event or behind it.
    pub fn give_back(self) -> (Disks<D>, U)
        ensures disks { result.0 ≡ disks_of self.world.logs }
        ensures outlet { result.1 ≡ self.outlet }
        ensures left { IsAlive D.Disk self.world →
            IsLeft D.Disk U.Outlet result.0 result.1 (ran_of D.Disk U.Outlet self.world self.outlet) }
        ensures broken { (number : ℕ) (line : List ℕ) (ran : Ran) (said : List ℕ) →
            IsBrokenInLine D.Disk U.Outlet self.world self.outlet number line ran said →
            IsLeftBroken D.Disk U.Outlet self.world.setting result.0 result.1 number line ran said }
    {
        given_disks_leave_what_was_stored::<D>();
        let Running {
            alloc: _,
            world,
            outlet,
            begun: _,
        } = self;
        let (disks, _journal) = world.give_back();
        (disks, outlet)
    }
}

impl<K: Begun, D: Disk, U: Outlet> Turning for Running<K, D, U> {
    ghost use Rattle.cw_cluster.specs.Breaking.{IsAlive, ran_of};
    ghost use Rattle.cw_cluster.specs.Broken.{IsBrokenAt};
    ghost use Rattle.cw_cluster.specs.Driven.{faults_of};

    ghost setting = { λ p. p.world.setting };

    ghost ran = { λ p. ran_of D.Disk U.Outlet p.world p.outlet };

    ghost alive = { λ p. IsAlive D.Disk p.world };

    ghost faults = { λ p. faults_of D.Disk U.Outlet p.world p.outlet };

    ghost broken = { λ p at next. IsBrokenAt D.Disk at next p.world (U.files p.outlet) };

    fn workers(&self) -> u32 {
        self.world.cluster().workers()
    }

    fn instances(&self) -> u64 {
        self.world.cluster().instances()
    }

    fn is_live(&self, w: u32) -> bool {
        let cluster = self.world.cluster();
        w < cluster.workers() && cluster.row_of(w).live
    }

    fn may_step(&self, i: u64) -> bool {
        let cluster = self.world.cluster();
        i < cluster.instances() && does_go_on(cluster.instance_of(i).phase)
    }

    fn tick(&mut self, w: u32) -> Result<Tick, TurnFault> {
        self.world.is_safe();
        let now = self.world.cluster().moment();
        match tick(self.alloc, &mut self.world, w, now) {
            Ok(did) => Ok(did),
            Err(fault) => Err(fault_of_turn(fault)),
        }
    }

    fn step(&mut self, i: u64) -> Result<Did, TurnFault> {
        self.world.is_safe();
        match step(self.alloc, &mut self.world, i, &mut self.outlet) {
            Ok(did) => Ok(did),
            Err(SinkFault::World(fault)) => Err(fault_of_turn(fault)),
            Err(SinkFault::Outlet) => Err(TurnFault::Outlet),
        }
    }

    fn is_idle(&self, alloc: Global, w: u32) -> Result<bool, AllocError> {
        is_idle(alloc, &self.world, w)
    }

    fn rests(&self, alloc: Global, i: u64) -> Result<bool, AllocError> {
        rests(alloc, &self.world, i)
    }
}

// Whether an instance neither ended nor failed.
fn does_go_on(phase: InstancePhase) -> bool
    ensures { result ≡ not (is_ended phase || has_failed phase) }
{
    !matches!(phase, InstancePhase::Ended | InstancePhase::Failed)
}

// Why a turn couldn't be taken.
fn fault_of_turn(fault: WorldFault) -> TurnFault
    ensures { result ≡ fault_of_turn fault }
{
    match fault {
        WorldFault::Memory => TurnFault::Memory,
        WorldFault::StoreFault { disk, count } => TurnFault::Store { disk, count },
        refusal => TurnFault::Refused(refusal),
    }
}
