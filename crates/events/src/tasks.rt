//! Events of tasks: how they begin, and how those of sources and of sinks go on.
ghost use Rattle.std.specs.Prelude.{◌≡◌, ◌<◌, true, length, IfOk};
ghost use Rattle.cw_model.specs.EventsSinks.{MayDeliver};
ghost use Rattle.cw_model.specs.EventsSources.{IsIn};
ghost use Rattle.cw_model.specs.Tasks.{cut_of, is_sink, is_source};

use crate::items::instance;
use crate::line::Line;
use crate::refusal::{Made, Refusal, only_where};
use crate::stage::Trial;
use cw_model::{Cut, Instance, InstancePhase};
use cw_ticks::{is_sink, parts_of, position_at};
use cw_types::PartKey;

// The instance that the next word names, where it is in a phase.
fn instance_in(world: &Trial, line: &mut Line<'_>, phase: InstancePhase) -> Result<u64, Refusal>
    ensures there { IfOk result (λ i. i < length world.now.state.instances) }
    ensures phase { IfOk result (λ i. IsIn phase i world.now.state) }
{
    let i = instance(world, line)?;
    only_where(world.cluster().instance_of(i).phase == phase)?;
    Ok(i)
}

/// `init I` answers the epoch.
pub(crate) fn init(world: &mut Trial, line: &mut Line<'_>) -> Made {
    let i = instance_in(world, line, InstancePhase::New)?;
    let epoch = world.init(i)?;
    line.tell(epoch.0)
}

/// `verify I` answers the generation.
pub(crate) fn verify(world: &mut Trial, line: &mut Line<'_>) -> Made {
    let i = instance_in(world, line, InstancePhase::Inited)?;
    let generation = world.verify(i)?;
    line.tell(generation)
}

/// `fetch I`
pub(crate) fn fetch(world: &mut Trial, line: &mut Line<'_>) -> Made {
    let i = instance_in(world, line, InstancePhase::Verified)?;
    Ok(world.fetch(i)?)
}

/// `produce I TURN FROM TO`: a source's task writes the records of one of its parts between these positions.
pub(crate) fn produce(world: &mut Trial, line: &mut Line<'_>) -> Made {
    let i = instance_in(world, line, InstancePhase::Polling)?;
    let cut = Cut {
        turn: line.short()?,
        from: line.long()?,
        to: line.long()?,
    };
    let own = world.cluster().instance_of(i);
    only_where(is_source(own) && (cut.turn as usize) < parts_of(own).len())?;
    Ok(world.produce(i, cut)?)
}

fn is_source(own: &Instance) -> bool
    ensures { result ≡ is_source own.now }
{
    match &own.task {
        Some(task) => task.class.is_source(),
        None => false,
    }
}

/// `put_offsets I`
pub(crate) fn put_offsets(world: &mut Trial, line: &mut Line<'_>) -> Made {
    let i = instance_in(world, line, InstancePhase::Produced)?;
    Ok(world.put_offsets(i)?)
}

/// `commit I` answers the span.
pub(crate) fn commit(world: &mut Trial, line: &mut Line<'_>) -> Made {
    let i = instance_in(world, line, InstancePhase::Offered)?;
    let span = world.commit(i)?;
    line.tell_span(&span)
}

/// `deliver I TURN TO`: a sink's task has handed out one of its topics up to here.
pub(crate) fn deliver(world: &mut Trial, line: &mut Line<'_>) -> Made {
    let i = instance_in(world, line, InstancePhase::Polling)?;
    let turn = line.short()?;
    let to = line.long()?;
    only_where(may_deliver(world, i, turn, to))?;
    Ok(world.deliver(i, turn, to)?)
}

// Whether it is a sink's task, and the topic is stable up to there.
fn may_deliver(world: &Trial, i: u64, turn: u32, to: u64) -> bool
    requires there { i < length world.now.state.instances }
    requires polling { IsIn InstancePhase.Polling i world.now.state }
    ensures { result ≡ true → MayDeliver i turn to world.now.state }
{
    let own = world.cluster().instance_of(i);
    let place = turn as usize;
    if !is_sink(own) || place >= parts_of(own).len() || position_at(own, place) >= to {
        return false;
    }
    match &parts_of(own)[place] {
        PartKey::Sink { topic, .. } => to <= world.cluster().stable(topic),
        _ => false,
    }
}

/// `put_sink I`: it stores how far it handed out.
pub(crate) fn put_sink(world: &mut Trial, line: &mut Line<'_>) -> Made {
    let i = instance_in(world, line, InstancePhase::Delivered)?;
    let to = end_of_cut(world.cluster().instance_of(i));
    Ok(world.put_sink(i, to)?)
}

fn end_of_cut(own: &Instance) -> u64
    ensures { result ≡ (cut_of own.now).to }
{
    match own.cut {
        Some(cut) => cut.to,
        None => 0,
    }
}
