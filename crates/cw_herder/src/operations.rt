//! What a leader does, one event an operation.
ghost use Rattle.std.specs.Prelude.{◌≡◌, ◌<◌, true, false, length, IsSome};
ghost use Rattle.cw_model.specs.EventsLeading.{MayAppendConfig, MaySetOffsets};
ghost use Rattle.cw_model.specs.TickRules.{mark_applies};
ghost use Rattle.cw_herder.specs.Operations.{claims, fences, has_left, IsToFence, marks, writes, records_of, sets};
ghost use Rattle.cw_herder.specs.Operations.{op_event, MayOp};
ghost use Rattle.cw_world.specs.World.{Acts};

use crate::op::{Op, OpDone};
use crate::proposing::propose;
use crate::records::records_of;
use cw_disk::Disk;
use cw_keys::{ConfigKey, ConfigValue};
use cw_model::WorldFault;
use cw_ticks::{has_producer_left, mark_applies};
use cw_txn::SetOffset;
use cw_types::Name;
use cw_world::World;
use std::alloc::{AllocError, Global};

/// Makes the one event of an operation at a leader, and tells what it did. The faults are those of the event: a leader
/// whose epoch isn't the last is fenced and gives its epoch up (KIP-618), a log that has no room is full, and a fencing
/// whose connector has a newer task set is stale. Want of memory changes nothing.
#[tactic(auto, unfolding(crate::specs::Operations::MayOp))]
pub fn op_step<D: Disk>(
    alloc: Global,
    world: &mut World<D>,
    w: u32,
    op: &Op,
) -> Result<OpDone, WorldFault>
    requires there { w < length world.old.state.rows }
    requires may { MayOp op.now w world.old.state }
    ensures { Acts D.Disk (op_event w op.now) world.old world.new result }
{
    match op {
        Op::Lead => claim(world, w),
        Op::Propose(connector) => propose(alloc, world, w, connector),
        Op::Fence(connector) => fence(world, w, connector),
        Op::Mark => mark(world, w),
        Op::Connector(_, _) => configure(alloc, world, w, op),
        Op::SetTarget(_, _) => configure(alloc, world, w, op),
        Op::Delete(_) => configure(alloc, world, w, op),
        Op::Offsets(connector, list) => set_offsets(world, w, connector, list.as_slice()),
    }
}

// The leader claims the next lead epoch.
fn claim<D: Disk>(world: &mut World<D>, w: u32) -> Result<OpDone, WorldFault>
    requires { w < length world.old.state.rows }
    ensures { Acts D.Disk (claims w) world.old world.new result }
{
    match world.claim_lead(w) {
        Ok(epoch) => Ok(OpDone::Lead(epoch)),
        Err(fault) => Err(fault),
    }
}

// It goes on with the fencing of a connector's older tasks.
fn fence<D: Disk>(world: &mut World<D>, w: u32, connector: &Name) -> Result<OpDone, WorldFault>
    requires there { w < length world.old.state.rows }
    requires due { IsToFence w connector.now world.old.state }
    ensures { Acts D.Disk (fences w connector.now) world.old world.new result }
{
    if has_producer_left(world.cluster(), w, connector) {
        fence_producer(world, w, connector)
    } else {
        write_fence(world, w, connector)
    }
}

// It fences the next producer.
fn fence_producer<D: Disk>(
    world: &mut World<D>,
    w: u32,
    connector: &Name,
) -> Result<OpDone, WorldFault>
    requires there { w < length world.old.state.rows }
    requires due { IsToFence w connector.now world.old.state }
    requires left { has_left w connector.now world.old.state ≡ true }
    ensures { Acts D.Disk (fences w connector.now) world.old world.new result }
{
    match world.fence_one(w, connector) {
        Ok((index, epoch)) => Ok(OpDone::Fenced(index, epoch)),
        Err(fault) => Err(fault),
    }
}

// It writes that all are fenced.
fn write_fence<D: Disk>(
    world: &mut World<D>,
    w: u32,
    connector: &Name,
) -> Result<OpDone, WorldFault>
    requires there { w < length world.old.state.rows }
    requires due { IsToFence w connector.now world.old.state }
    requires done { has_left w connector.now world.old.state ≡ false }
    ensures { Acts D.Disk (fences w connector.now) world.old world.new result }
{
    world.is_safe();
    match world.append_fence(w, connector) {
        Ok(offset) => Ok(OpDone::Recorded(offset)),
        Err(fault) => Err(fault),
    }
}

// It marks the first transaction that has ended and isn't marked.
fn mark<D: Disk>(world: &mut World<D>, w: u32) -> Result<OpDone, WorldFault>
    requires there { w < length world.old.state.rows }
    requires due { IsSome (mark_applies w world.old.state) }
    ensures { Acts D.Disk (marks w) world.old world.new result }
{
    let Some(log) = mark_applies(world.cluster(), w) else {
        unreachable!();
    };
    match world.mark(log) {
        Ok((tag, committed)) => Ok(OpDone::Marked(log, tag, committed)),
        Err(fault) => Err(fault),
    }
}

// It writes the records that are asked for.
fn configure<D: Disk>(
    alloc: Global,
    world: &mut World<D>,
    w: u32,
    op: &Op,
) -> Result<OpDone, WorldFault>
    requires there { w < length world.old.state.rows }
    requires may { MayAppendConfig w (records_of op.now) world.old.state }
    ensures { Acts D.Disk (writes w (records_of op.now)) world.old world.new result }
{
    match records_of(alloc, op) {
        Ok(records) => write_records(world, w, records.as_slice()),
        Err(AllocError) => Err(WorldFault::Memory),
    }
}

// It writes these.
fn write_records<D: Disk>(
    world: &mut World<D>,
    w: u32,
    records: &[(ConfigKey, Option<ConfigValue>)],
) -> Result<OpDone, WorldFault>
    requires there { w < length world.old.state.rows }
    requires may { MayAppendConfig w records.now world.old.state }
    ensures { Acts D.Disk (writes w records.now) world.old world.new result }
{
    match world.append_config(w, records) {
        Ok(_) => Ok(OpDone::Written),
        Err(fault) => Err(fault),
    }
}

// It sets these offsets.
fn set_offsets<D: Disk>(
    world: &mut World<D>,
    w: u32,
    connector: &Name,
    list: &[SetOffset],
) -> Result<OpDone, WorldFault>
    requires there { w < length world.old.state.rows }
    requires may { MaySetOffsets w connector.now list.now world.old.state }
    ensures { Acts D.Disk (sets w connector.now list.now) world.old world.new result }
{
    match world.set_offsets(w, connector, list) {
        Ok(()) => Ok(OpDone::Written),
        Err(fault) => Err(fault),
    }
}
