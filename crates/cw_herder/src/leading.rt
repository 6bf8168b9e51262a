//! A worker's tick as the leader, or through it: the operation that its rule asks for.
ghost use Rattle.std.specs.Prelude.{◌≡◌, true, Err};
ghost use Rattle.cw_model.specs.Lookups.{row_of};
ghost use Rattle.cw_model.specs.Tick.{tick};
ghost use Rattle.cw_model.specs.TickRules.{or_lost};
ghost use Rattle.cw_herder.specs.Operations.{IsAsked, tick_of, proposed_tick, fenced_tick, led_tick};
ghost use Rattle.cw_world.specs.World.{Acts};

use crate::op::{Op, OpDone};
use crate::operations::op_step;
use cw_disk::Disk;
use cw_model::{Tick, WorldFault};
use cw_types::{Name, TaskId};
use cw_world::World;
use std::alloc::Global;

/// The operation is made at its leader, and told.
pub(crate) fn ask<D: Disk>(
    alloc: Global,
    world: &mut World<D>,
    w: u32,
    leader: u32,
    op: Op,
) -> Result<Tick, WorldFault>
    requires live { (row_of w world.old.state).live ≡ true }
    requires asked { IsAsked leader op w world.old.state }
    ensures { Acts D.Disk (tick w) world.old world.new result }
{
    match op_step(alloc, world, leader, &op) {
        Ok(done) => Ok(tick_of(op, done)),
        Err(fault) => unless_lost(fault),
    }
}

// What a tick tells of an operation.
#[tactic(auto, unfolding(crate::specs::Operations::tick_of))]
fn tick_of(op: Op, done: OpDone) -> Tick
    ensures { result ≡ tick_of op done }
{
    match op {
        Op::Propose(connector) => proposed(connector, done),
        Op::Fence(connector) => fenced(connector, done),
        Op::Lead
        | Op::Mark
        | Op::Connector(_, _)
        | Op::SetTarget(_, _)
        | Op::Delete(_)
        | Op::Offsets(_, _) => led(done),
    }
}

// What it tells of a connector's tasks; nothing else is done to them.
fn proposed(connector: Name, done: OpDone) -> Tick
    ensures { result ≡ proposed_tick connector done }
{
    match done {
        OpDone::Proposed(count) => Tick::Propose(connector, count),
        OpDone::Committed(offset) => Tick::Commit(connector, offset),
        OpDone::Lead(_)
        | OpDone::Fenced(_, _)
        | OpDone::Recorded(_)
        | OpDone::Marked(_, _, _)
        | OpDone::Written => Tick::Idle,
    }
}

// The same of its older tasks.
fn fenced(connector: Name, done: OpDone) -> Tick
    ensures { result ≡ fenced_tick connector done }
{
    match done {
        OpDone::Fenced(index, epoch) => Tick::Fence(TaskId { connector, index }, epoch.0),
        OpDone::Recorded(offset) => Tick::FenceRecord(connector, offset),
        OpDone::Lead(_)
        | OpDone::Proposed(_)
        | OpDone::Committed(_)
        | OpDone::Marked(_, _, _)
        | OpDone::Written => Tick::Idle,
    }
}

// The same of a lead and of a marker.
fn led(done: OpDone) -> Tick
    ensures { result ≡ led_tick done }
{
    match done {
        OpDone::Lead(epoch) => Tick::Lead(epoch.0),
        OpDone::Marked(log, tag, committed) => Tick::Mark(log, tag, committed),
        OpDone::Proposed(_)
        | OpDone::Committed(_)
        | OpDone::Fenced(_, _)
        | OpDone::Recorded(_)
        | OpDone::Written => Tick::Idle,
    }
}

// A leader that finds a later lead epoch has lost its lead; that is no fault of the tick.
fn unless_lost(fault: WorldFault) -> Result<Tick, WorldFault>
    ensures { result ≡ or_lost (Err fault) }
{
    match fault {
        WorldFault::Fenced { own, current } => Ok(Tick::LostLead { own, current }),
        other => Err(other),
    }
}
