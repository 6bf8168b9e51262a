//! Calls that write: configs, and offsets of a stopped connector (KIP-875).
ghost use Rattle.std.specs.Prelude.{◌≡◌, ◌<◌, true, length, None, Some};
ghost use Rattle.cw_types.specs.declared.logs.LogName.TheVariants as log;
ghost use Rattle.cw_model.specs.Lookups.{row_of};
ghost use Rattle.cw_model.specs.Ready.{ready};
ghost use Rattle.cw_rest.specs.Calls.{writes_configs, writes_offsets, deed_of};
ghost use Rattle.cw_rest.specs.Replies.{connector_set};
ghost use Rattle.cw_ops.specs.Answering.{AreAnswers};
ghost use Rattle.cw_world.specs.World.{DoesOrWants};
ghost use Rattle.cw_herder.specs.Operations.{op_event};
ghost use Rattle.cw_herder.specs.Submits.{Submits, IsOpOf, IsWriteTo, log_of, told_refusal, reads_back};

use crate::answering_calls::answer;
use crate::calls::{configs_op, offsets_op};
use crate::op::Op;
use crate::operations::op_step;
use cw_disk::Disk;
use cw_laws::calls_write_what_may_be_written;
use cw_model::WorldFault;
use cw_ops::{Answering, Answers, answers_to, feeds_are_named, is_of_name, seen_now};
use cw_route::{Call, Reply};
use cw_ticks::ready;
use cw_types::{LogName, Name};
use cw_world::World;
use std::alloc::{AllocError, Global};

/// A call that writes configs.
pub(crate) fn write_configs<D: Disk>(
    alloc: Global,
    world: &mut World<D>,
    w: u32,
    call: &Call,
) -> Result<Reply, WorldFault>
    requires there { w < length world.old.state.rows }
    requires alive { world.old.state.closed ≡ None }
    requires live { (row_of w world.old.state).live ≡ true }
    requires deed { deed_of call.now ≡ writes_configs }
    ensures { Submits D.Disk w call.now world.old world.new result }
{
    let Some(leader) = ready(world.cluster(), w) else {
        return answer(alloc, world, w, call);
    };
    match answers_to(alloc, world.cluster(), w, call, LogName::Config) {
        Ok(Answering::Refused(reply)) => Ok(reply),
        Ok(Answering::Writes(answers)) => configure(alloc, world, w, leader, call, answers),
        Err(AllocError) => Err(WorldFault::Memory),
    }
}

// Its leader makes the operation that it asks for.
fn configure<D: Disk>(
    alloc: Global,
    world: &mut World<D>,
    w: u32,
    leader: u32,
    call: &Call,
    answers: Answers,
) -> Result<Reply, WorldFault>
    requires there { w < length world.old.state.rows }
    requires alive { world.old.state.closed ≡ None }
    requires live { (row_of w world.old.state).live ≡ true }
    requires deed { deed_of call.now ≡ writes_configs }
    requires through { ready w world.old.state ≡ Some leader }
    requires answers { AreAnswers world.old.setting w call.now log.Config world.old.state answers }
    ensures { Submits D.Disk w call.now world.old world.new result }
{
    world.is_safe();
    is_of_name(call);
    feeds_are_named(world.cluster().feeds().names());
    calls_write_what_may_be_written();
    match configs_op(alloc, call) {
        Ok(Some(op)) => make(alloc, world, w, leader, call, answers, &op),
        Ok(None) => unreachable!(),
        Err(AllocError) => Err(WorldFault::Memory),
    }
}

/// A call that sets offsets of a connector.
pub(crate) fn write_offsets<D: Disk>(
    alloc: Global,
    world: &mut World<D>,
    w: u32,
    call: &Call,
    name: &Name,
) -> Result<Reply, WorldFault>
    requires there { w < length world.old.state.rows }
    requires alive { world.old.state.closed ≡ None }
    requires live { (row_of w world.old.state).live ≡ true }
    requires deed { deed_of call.now ≡ writes_offsets }
    requires name { name.now ≡ connector_set call.now }
    ensures { Submits D.Disk w call.now world.old world.new result }
{
    let Some(leader) = ready(world.cluster(), w) else {
        return answer(alloc, world, w, call);
    };
    match answers_to(alloc, world.cluster(), w, call, LogName::Txn) {
        Ok(Answering::Refused(reply)) => Ok(reply),
        Ok(Answering::Writes(answers)) => {
            set_offsets(alloc, world, w, leader, call, name, answers)
        }
        Err(AllocError) => Err(WorldFault::Memory),
    }
}

// Its leader sets them.
fn set_offsets<D: Disk>(
    alloc: Global,
    world: &mut World<D>,
    w: u32,
    leader: u32,
    call: &Call,
    name: &Name,
    answers: Answers,
) -> Result<Reply, WorldFault>
    requires there { w < length world.old.state.rows }
    requires alive { world.old.state.closed ≡ None }
    requires live { (row_of w world.old.state).live ≡ true }
    requires deed { deed_of call.now ≡ writes_offsets }
    requires name { name.now ≡ connector_set call.now }
    requires through { ready w world.old.state ≡ Some leader }
    requires answers { AreAnswers world.old.setting w call.now log.Txn world.old.state answers }
    ensures { Submits D.Disk w call.now world.old world.new result }
{
    world.is_safe();
    calls_write_what_may_be_written();
    let seen = seen_now(world.cluster(), w, call, true);
    match offsets_op(alloc, &seen, call, name) {
        Ok(op) => make(alloc, world, w, leader, call, answers, &op),
        Err(AllocError) => Err(WorldFault::Memory),
    }
}

// The leader makes the operation, and the worker reads what was written.
fn make<D: Disk>(
    alloc: Global,
    world: &mut World<D>,
    w: u32,
    leader: u32,
    call: &Call,
    answers: Answers,
    op: &Op,
) -> Result<Reply, WorldFault>
    requires there { w < length world.old.state.rows }
    requires alive { world.old.state.closed ≡ None }
    requires live { (row_of w world.old.state).live ≡ true }
    requires through { ready w world.old.state ≡ Some leader }
    requires asked { IsOpOf world.old.setting w call.now leader op.now world.old.state }
    requires answers { AreAnswers world.old.setting w call.now (log_of op.now) world.old.state answers }
    requires writes { IsWriteTo (log_of op.now) (op_event leader op.now world.old.state) world.old.state }
    ensures { Submits D.Disk w call.now world.old world.new result }
{
    match op_step(alloc, world, leader, op) {
        Ok(_) => read_back(world, w, answers.done),
        Err(fault) => refusal_of(answers, fault),
    }
}

// The worker reads what was written.
fn read_back<D: Disk>(world: &mut World<D>, w: u32, reply: Reply) -> Result<Reply, WorldFault>
    requires there { w < length world.old.state.rows }
    requires alive { world.old.state.closed ≡ None }
    requires live { (row_of w world.old.state).live ≡ true }
    ensures { DoesOrWants (reads_back w reply) world.old world.new result }
{
    match world.read_config(w) {
        Ok(()) => Ok(reply),
        Err(fault) => Err(fault),
    }
}

// What is answered where nothing was written.
fn refusal_of(answers: Answers, fault: WorldFault) -> Result<Reply, WorldFault>
    ensures { result ≡ told_refusal answers fault }
{
    match fault {
        WorldFault::Full { .. } => Ok(answers.full),
        WorldFault::Fenced { .. } => Ok(answers.outrun),
        other => Err(other),
    }
}
