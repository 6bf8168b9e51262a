//! The turns of task runners under the lock that do something.
ghost use Rattle.std.specs.Prelude.{◌≡◌, ◌≢◌, ◌<◌, ◌||◌, true, false, not, nat_lt, length, Ok, Err};
ghost use Rattle.cw_model.specs.declared.fault.WorldFault.TheVariants.{Memory};
ghost use Rattle.cw_model.specs.EventsSinks.{deliver};
ghost use Rattle.cw_model.specs.Lookups.{instance_of};
ghost use Rattle.cw_model.specs.Polls.{is_something};
ghost use Rattle.cw_model.specs.Steps.{step};
ghost use Rattle.cw_model.specs.Tasks.{parts_of, position_at};
ghost use Rattle.cw_world.specs.World.{Acts, Does};
ghost use Rattle.cw_sourcetask.specs.Sourced.{source_step};
ghost use Rattle.cw_desk.specs.Keeping.{KeepsJournal};
ghost use Rattle.cw_turns.specs.Due.{IsToTell};
ghost use Rattle.cw_serve.specs.Sharing.{first_stop};
ghost use Rattle.cw_serve.specs.Turning.{Lets, step_came, step_told};
ghost use Rattle.cw_serve.specs.Working.{work_for, fits};

use crate::naming::Begun;
use crate::polling::Work;
use crate::shared::{Shared, Stop};
use crate::turns::keep;
use cw_disk::Disk;
use cw_feed::CutAnswer;
use cw_model::{Did, Instance, WorldFault};
use cw_sinktask::Delivery;
use cw_ticks::parts_of;
use std::sync::Wait;

/// What a task's step came to.
#[derive(Clone, Copy, Debug, PartialEq, Eq, Drop)]
pub enum Stepped {
    /// It was refused, or it isn't the time for it.
    Refused,
    /// It was answered that there is nothing to do.
    Idle,
    /// It did something.
    Done,
}

impl<J: Begun, D: Disk, W: Wait + Drop> Shared<J, D, W> {
    /// An instance takes a step that isn't a poll.
    pub fn step(&mut self, i: u64) -> Stepped
        ensures kept { KeepsJournal self.old.world.state self.new.world.state }
        ensures turn { work_for i self.old ≡ Work.Step →
            Lets (Acts D.Disk (step self.old.world.setting i)) step_came self.old self.new result }
        ensures refused { work_for i self.old ≢ Work.Step →
            (result ≡ Stepped.Refused) × (self.new ≡ self.old) }
    {
        if !matches!(self.work_of(i), Work::Step) {
            return Stepped::Refused;
        }
        self.world.is_safe();
        let did = cw_turns::step(&mut self.world, i);
        after_step(&mut self.stop, did)
    }

    /// An instance polls a source: it takes what was found by a scan outside the lock. Where that no longer fits, the
    /// scan is dropped.
    pub fn take_found(&mut self, i: u64, found: &CutAnswer, turn: u32) -> Stepped
        ensures kept { KeepsJournal self.old.world.state self.new.world.state }
        ensures turn { work_for i self.old ≡ Work.Scan →
            fits (instance_of i self.old.world.state) found.now turn ≡ true →
            Lets (Acts D.Disk (source_step self.old.world.setting i turn found.now)) step_came
            self.old self.new result }
        ensures refused { work_for i self.old ≢ Work.Scan → (result ≡ Stepped.Refused) × (self.new ≡ self.old) }
        ensures unfit { fits (instance_of i self.old.world.state) found.now turn ≡ false →
            (result ≡ Stepped.Refused) × (self.new ≡ self.old) }
    {
        if !matches!(self.work_of(i), Work::Scan) {
            return Stepped::Refused;
        }
        if !fits(self.world.cluster().instance_of(i), found, turn) {
            return Stepped::Refused;
        }
        self.world.is_safe();
        let did = cw_turns::step_found(&mut self.world, i, found, turn);
        after_step(&mut self.stop, did)
    }

    /// The world knows that a delivery was handed out.
    pub fn deliver(&mut self, i: u64, delivery: &Delivery) -> Stepped
        ensures kept { KeepsJournal self.old.world.state self.new.world.state }
        ensures done { result ≡ Stepped.Done →
            Does (deliver i delivery.now.turn delivery.now.to) self.old.world self.new.world (Ok tt) }
        ensures there { result ≡ Stepped.Done →
            position_at delivery.now.turn (instance_of i self.old.world.state) ≡ delivery.now.from }
        ensures due { work_for i self.old ≡ Work.Gather → IsToTell i self.old.world.state delivery.now →
            result ≡ Stepped.Done }
        ensures rest { self.new ≡ record self.old { world = self.new.world } }
        ensures refused { result ≢ Stepped.Done → (result ≡ Stepped.Refused) × (self.new ≡ self.old) }
    {
        if !matches!(self.work_of(i), Work::Gather) {
            return Stepped::Refused;
        }
        self.world.is_safe();
        if cw_turns::deliver(&mut self.world, i, delivery) {
            Stepped::Done
        } else {
            Stepped::Refused
        }
    }
}

// Whether what was found may be taken: there is nothing, or the instance has the part.
fn fits(instance: &Instance, found: &CutAnswer, turn: u32) -> bool
    ensures is { result ≡ fits instance.now found.now turn }
    ensures within { result ≡ true → is_something found.now ≡ true → turn < length (parts_of instance.now) }
{
    match found {
        CutAnswer::AtEnd => true,
        _ => (turn as usize) < parts_of(instance).len(),
    }
}

// What a step came to. Want of memory stops the server; other faults are dropped.
fn after_step(stop: &mut Option<Stop>, did: Result<Did, WorldFault>) -> Stepped
    ensures told { result ≡ step_came did }
    ensures wants { did ≡ Err Memory → stop.new ≡ first_stop stop.old Stop.Memory }
    ensures keeps { did ≢ Err Memory → stop.new ≡ stop.old }
{
    match did {
        Ok(did) => told(&did),
        Err(fault) => {
            keep(stop, &fault);
            Stepped::Refused
        }
    }
}

// Whether a step did anything.
fn told(did: &Did) -> Stepped
    ensures { result ≡ step_told did.now }
{
    match did {
        Did::AtEnd | Did::Paused | Did::Pending | Did::Gone | Did::Failed => Stepped::Idle,
        Did::Stale { .. } => Stepped::Idle,
        _ => Stepped::Done,
    }
}
