//! What tasks do that is written to no log: they verify their generation, fetch their positions, hand out and fail.
ghost use Rattle.std.specs.Prelude.{◌≡◌, ◌<◌, ◌≤◌, ℕ, length, map, true, false, unwrap_or, MatchResult, IfOk, Some};
ghost use Rattle.cw_config.specs.View.{generation_of, task_count_of, is_pending};
ghost use Rattle.cw_model.specs.EventsReports.{fail};
ghost use Rattle.cw_model.specs.EventsSinks.{deliver};
ghost use Rattle.cw_model.specs.EventsSources.{verify, fetch};
ghost use Rattle.cw_model.specs.Lookups.{end_or_start};
ghost use Rattle.cw_model.specs.Tasks.{parts_of, position_at};
ghost use Rattle.cw_model.specs.declared.fault.WorldFault.TheVariants as fault;
ghost use Rattle.cw_rows.specs.Kept.{Is, IsOrWants, generation_test};

use crate::cluster::Cluster;
use cw_config::ConfigState;
use cw_model::{Cut, Instance, InstancePhase, Trace, WorldFault};
use cw_txn::Coordinator;
use cw_types::{Item, Name, PartKey};
use std::alloc::{AllocError, Global};

impl Cluster {
    /// A task with an epoch goes on where its set is the newest, and all older ones are fenced: the answer is its
    /// generation.
    pub fn verify(&mut self, i: u64) -> Result<u64, WorldFault>
        requires { i < length self.old.state.instances }
        ensures { Is (verify i) self.old self.new result }
    {
        self.test_instance(i)?;
        let own = self.crew.instance(i);
        let generation = own.generation;
        let (name, index) = task_named(&own.item);
        test_generation(self.topics.configs(), name, index, generation)?;
        self.crew.set_phase(i, InstancePhase::Verified);
        Ok(generation)
    }

    /// A verified task goes on from the committed end of each of its parts.
    pub fn fetch(&mut self, i: u64) -> Result<(), WorldFault>
        requires { i < length self.old.state.instances }
        ensures { IsOrWants (fetch i) self.old self.new result }
    {
        self.test_instance(i)?;
        match ends_of(self.alloc, self.topics.coordinator(), self.crew.instance(i)) {
            Ok(positions) => {
                self.crew.poll(i, positions);
                Ok(())
            }
            Err(AllocError) => Err(WorldFault::Memory),
        }
    }

    /// A sink has handed out the records of a topic up to an offset.
    pub fn deliver(&mut self, i: u64, turn: u32, to: u64) -> Result<(), WorldFault>
        requires { i < length self.old.state.instances }
        ensures { Is (deliver i turn to) self.old self.new result }
    {
        self.test_instance(i)?;
        let from = position_at(self.crew.instance(i), turn);
        self.crew
            .take(i, InstancePhase::Delivered, Cut { turn, from, to });
        Ok(())
    }

    /// An instance fails, and keeps why.
    pub fn fail(&mut self, i: u64, trace: Trace) -> Result<(), WorldFault>
        requires { i < length self.old.state.instances }
        ensures { Is (fail i trace) self.old self.new result }
    {
        self.test_instance(i)?;
        self.crew.fail(i, trace);
        Ok(())
    }
}

// The task that an item is; a connector is none, and stands for its first one.
fn task_named(item: &Item) -> (&Name, u32)
    ensures name { result.0.now ≡ (task_id_of item.now).connector }
    ensures index { result.1 ≡ (task_id_of item.now).index }
{
    match item {
        Item::Connector(name) => (name, 0),
        Item::Task(id) => (&id.connector, id.index),
    }
}

// Whether a task is one of its connector's newest set, and all older ones are fenced.
fn test_generation(
    configs: &ConfigState,
    name: &Name,
    index: u32,
    own: u64,
) -> Result<(), WorldFault>
    ensures { result ≡ generation_test name.now index own configs.now }
{
    let current = configs.generation(name).unwrap_or(0);
    if own != current {
        return Err(WorldFault::StaleGeneration { own, current });
    }
    if index >= configs.task_count(name) {
        return Err(WorldFault::StaleGeneration { own, current });
    }
    if configs.is_pending(name) {
        return Err(WorldFault::PendingFence);
    }
    Ok(())
}

// Where the parts of a task end.
fn ends_of(
    alloc: Global,
    coordinator: &Coordinator,
    instance: &Instance,
) -> Result<Vec<u64>, AllocError>
    ensures { IfOk result (λ ends. ends.items ≡
        map (λ part. end_or_start part coordinator.now.entries) (parts_of instance.now)) }
{
    match &instance.task {
        Some(task) => ends(alloc, coordinator, task.parts.as_slice()),
        None => Ok(Vec::new(alloc)),
    }
}

fn ends(alloc: Global, coordinator: &Coordinator, parts: &[PartKey]) -> Result<Vec<u64>, AllocError>
    ensures { IfOk result (λ ends. ends.items ≡
        map (λ part. end_or_start part coordinator.now.entries) parts.now) }
{
    let mut ends = Vec::new(alloc);
    for part in parts {
        ends.push(coordinator.end_of(part).unwrap_or(0))?;
    }
    Ok(ends)
}

/// A task's position in the part of a turn.
pub(crate) fn position_at(instance: &Instance, turn: u32) -> u64
    ensures { result ≡ position_at turn instance.now }
{
    match instance.positions.as_slice().get(turn as usize) {
        Some(position) => *position,
        None => 0,
    }
}

ghost use Rattle.cw_model.specs.Updates.{task_id_of};
