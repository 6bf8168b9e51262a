//! A source's task polls: it takes what was found of one of its parts (Kafka Connect's SourceTask).
ghost use Rattle.std.specs.Prelude.{◌≡◌, ◌<◌, true, false, length, IfOk};
ghost use Rattle.cw_feed.specs.declared.cut.CutAnswer.TheVariants as cut;
ghost use Rattle.cw_model.specs.EventsSinks.{sink_cut};
ghost use Rattle.cw_model.specs.EventsSources.{MayProduce};
ghost use Rattle.cw_model.specs.Lookups.{instance_of};
ghost use Rattle.cw_model.specs.Polls.{is_something};
ghost use Rattle.cw_model.specs.Steps.{span_to, takes_cut};
ghost use Rattle.cw_model.specs.Tasks.{parts_of, part_at, is_sink};
ghost use Rattle.cw_model.specs.declared.instance.InstancePhase.TheVariants as phase;
ghost use Rattle.cw_world.specs.World.{Acts};

use cw_disk::Disk;
use cw_feed::CutAnswer;
use cw_model::{Cut, Did, Instance, Trace, WorldFault};
use cw_rows::part_at;
use cw_tasks::refuse;
use cw_ticks::{parts_of, position_at};
use cw_types::Span;
use cw_world::World;
use std::alloc::AllocError;

/// It writes what was cut, or fails at a line that is too long.
pub(crate) fn at_polling<D: Disk>(
    world: &mut World<D>,
    i: u64,
    found: &CutAnswer,
    turn: u32,
) -> Result<Did, WorldFault>
    requires there { i < length world.old.state.instances }
    requires polling { (instance_of i world.old.state).phase ≡ phase.Polling }
    requires source { is_sink (instance_of i world.old.state) ≡ false }
    requires turn { is_something found.now ≡ true → turn < length (parts_of (instance_of i world.old.state)) }
    ensures { Acts D.Disk (λ s. takes_cut world.old.setting i s turn found.now) world.old world.new result }
{
    match found {
        CutAnswer::AtEnd => Ok(Did::AtEnd),
        CutAnswer::LineTooLong(at) => fail_at_line(world, i, *at, turn),
        CutAnswer::Cut { to } => take(world, i, turn, *to),
    }
}

// It fails at a line, which begins here.
fn fail_at_line<D: Disk>(
    world: &mut World<D>,
    i: u64,
    at: u64,
    turn: u32,
) -> Result<Did, WorldFault>
    requires there { i < length world.old.state.instances }
    ensures { Acts D.Disk (λ s. takes_cut world.old.setting i s turn (cut.LineTooLong at))
        world.old world.new result }
{
    let _ = world.fail(i, Trace::LineTooLong(at));
    Ok(Did::LineTooLong(at))
}

// It takes a part from its position up to here. What it tells of that is made before, since that takes memory.
fn take<D: Disk>(world: &mut World<D>, i: u64, turn: u32, to: u64) -> Result<Did, WorldFault>
    requires there { i < length world.old.state.instances }
    requires polling { (instance_of i world.old.state).phase ≡ phase.Polling }
    requires source { is_sink (instance_of i world.old.state) ≡ false }
    requires turn { turn < length (parts_of (instance_of i world.old.state)) }
    ensures { Acts D.Disk (λ s. takes_cut world.old.setting i s turn (cut.Cut to)) world.old world.new result }
{
    world.is_safe();
    match span_to(world.cluster().instance_of(i), turn, to) {
        Ok(span) => write(world, i, turn, span),
        Err(AllocError) => Err(WorldFault::Memory),
    }
}

// It writes the records of a span.
fn write<D: Disk>(world: &mut World<D>, i: u64, turn: u32, span: Span) -> Result<Did, WorldFault>
    requires there { i < length world.old.state.instances }
    requires may { MayProduce i (sink_cut turn span.to (instance_of i world.old.state)) world.old.state }
    requires span { span ≡ span_to turn span.to (instance_of i world.old.state) }
    ensures { Acts D.Disk (λ s. takes_cut world.old.setting i s turn (cut.Cut span.to))
        world.old world.new result }
{
    let cut = Cut {
        turn,
        from: span.from,
        to: span.to,
    };
    match world.produce(i, cut) {
        Ok(()) => Ok(Did::Produce(span)),
        Err(fault) => refuse(world, i, fault),
    }
}

// The span of a part from its position on.
fn span_to(instance: &Instance, turn: u32, to: u64) -> Result<Span, AllocError>
    requires { turn < length (parts_of instance.now) }
    ensures { IfOk result (λ span. span ≡ span_to turn to instance.now) }
{
    Ok(Span {
        part: part_at(instance, turn).copy()?,
        from: position_at(instance, turn as usize),
        to,
    })
}
