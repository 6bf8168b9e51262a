//! What a task runner looks up under the lock before it acts.
ghost use Rattle.std.specs.Prelude.{◌≡◌, ◌≢◌, ◌<◌, ◌⊎◌, true, false, length, None, IfSome, IfOk};
ghost use Rattle.cw_model.specs.Lookups.{instance_of};
ghost use Rattle.cw_model.specs.Tasks.{batch_limit_of};
ghost use Rattle.cw_model.specs.declared.instance.InstancePhase.TheVariants as phase;
ghost use Rattle.cw_serve.specs.Gathering.{IsGathered};
ghost use Rattle.cw_serve.specs.Sharing.{goes_on, stopped_for};
ghost use Rattle.cw_serve.specs.Working.{IsWork, work_in, work_for};

use crate::copying::copy_of;
use crate::naming::Begun;
use crate::shared::{Shared, Stop};
use cw_disk::Disk;
use cw_model::{Instance, InstancePhase};
use cw_sinktask::{Delivery, gather};
use cw_sourcetask::batches_take_some;
use cw_tasks::waits;
use cw_ticks::is_sink;
use cw_world::World;
use std::alloc::{AllocError, Global};
use std::sync::Wait;

/// What a runner does next with an instance.
#[derive(Clone, Copy, Debug, PartialEq, Eq, Drop)]
pub enum Work {
    /// The server ends.
    Over,
    /// There is no such instance, or it has ended.
    Nothing,
    /// It takes a step that isn't a poll.
    Step,
    /// It would poll, and is paused.
    Paused,
    /// It polls a source.
    Scan,
    /// It polls topics for a sink.
    Gather,
}

/// What a sink's poll found.
#[derive(Debug, Drop)]
pub enum Gathered {
    /// It isn't the time to poll, or memory is wanting.
    Refused,
    /// There is nothing to hand out.
    AtEnd,
    /// This is to be handed out.
    Found(Delivery),
}

impl<J: Begun, D: Disk, W: Wait + Drop> Shared<J, D, W> {
    /// How many instances there are; None where the server ends.
    pub fn instances(&self) -> Option<u64>
        ensures some { IfSome result (λ count. (goes_on self.now ≡ true) ×
            (count ≡ length self.now.world.state.instances)) }
        ensures none { result ≡ None → goes_on self.now ≡ false }
    {
        if self.goes_on() {
            Some(self.world.cluster().instances())
        } else {
            None
        }
    }

    /// What is to be done next with an instance.
    pub fn work_of(&self, i: u64) -> Work
        ensures is { result ≡ work_for i self.now }
        ensures may { IsWork i self.now.world.state result }
    {
        if !self.goes_on() {
            return Work::Over;
        }
        work_in(&self.world, i)
    }

    /// A copy of an instance that polls a source, to scan its feeds outside the lock; None where it isn't the time to
    /// poll, or memory is wanting.
    pub fn copy_polling(&mut self, alloc: Global, i: u64) -> Option<Instance>
        ensures some { IfSome result (λ copy. (work_for i self.old ≡ Work.Scan) ×
            (copy ≡ instance_of i self.old.world.state)) }
        ensures takes { IfSome result (λ copy. 0 < batch_limit_of copy) }
        ensures same { IfSome result (λ copy. self.new ≡ self.old) }
        ensures none { result ≡ None → ((work_for i self.old ≢ Work.Scan) × (self.new ≡ self.old)) ⊎
            (self.new ≡ stopped_for Stop.Memory self.old) }
    {
        if !matches!(self.work_of(i), Work::Scan) {
            return None;
        }
        match polling_copy(alloc, &self.world, i) {
            Ok(copy) => Some(copy),
            Err(AllocError) => {
                self.stop_for(Stop::Memory);
                None
            }
        }
    }

    /// What a sink's task would hand out.
    pub fn gather(&mut self, alloc: Global, i: u64) -> Gathered
        ensures { IsGathered i self.old self.new result }
    {
        if !matches!(self.work_of(i), Work::Gather) {
            return Gathered::Refused;
        }
        match gather(alloc, &self.world, i) {
            Ok(Some(delivery)) => Gathered::Found(delivery),
            Ok(None) => Gathered::AtEnd,
            Err(AllocError) => {
                self.stop_for(Stop::Memory);
                Gathered::Refused
            }
        }
    }
}

// What is to be done next with an instance of a world.
fn work_in<D: Disk>(world: &World<D>, i: u64) -> Work
    requires { world.now.state.closed ≡ None }
    ensures is { result ≡ work_in i world.now.state }
    ensures may { IsWork i world.now.state result }
{
    world.is_safe();
    let cluster = world.cluster();
    if !cluster.has_instance(i) {
        return Work::Nothing;
    }
    match cluster.instance_of(i).phase {
        InstancePhase::Ended => Work::Nothing,
        InstancePhase::Polling => {
            if waits(cluster, i) {
                Work::Paused
            } else if is_sink(cluster.instance_of(i)) {
                Work::Gather
            } else {
                Work::Scan
            }
        }
        _ => Work::Step,
    }
}

// A copy of an instance that polls.
fn polling_copy<D: Disk>(alloc: Global, world: &World<D>, i: u64) -> Result<Instance, AllocError>
    requires there { i < length world.now.state.instances }
    requires polling { (instance_of i world.now.state).phase ≡ phase.Polling }
    ensures is { IfOk result (λ copy. copy ≡ instance_of i world.now.state) }
    ensures takes { IfOk result (λ copy. 0 < batch_limit_of copy) }
{
    world.is_safe();
    batches_take_some();
    copy_of(alloc, world.cluster().instance_of(i))
}
