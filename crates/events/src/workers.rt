//! Events of workers: they come and go, hear the group or don't, and tick.
ghost use Rattle.std.specs.Prelude.{◌<◌, length, IfOk};

use crate::line::Line;
use crate::refusal::{Made, Refusal, only_where};
use crate::stage::Trial;
use cw_model::Tick;
use std::alloc::AllocError;
use std::fmt::Write;

/// The worker that the next word names.
pub(crate) fn worker(world: &Trial, line: &mut Line<'_>) -> Result<u32, Refusal>
    ensures { IfOk result (λ w. w < length world.now.state.rows) }
{
    let w = line.short()?;
    only_where(world.cluster().has_worker(w))?;
    Ok(w)
}

/// `spawn N`: so many workers come. It answers the last one's number.
pub(crate) fn spawn(world: &mut Trial, line: &mut Line<'_>) -> Made {
    let mut last = 0;
    for _ in 0..line.short()? {
        last = world.spawn()?;
    }
    line.tell(u64::from(last))
}

/// `kill W`
pub(crate) fn kill(world: &mut Trial, line: &mut Line<'_>) -> Made {
    let w = worker(world, line)?;
    Ok(world.kill(w)?)
}

/// `deaf W`
pub(crate) fn deaf(world: &mut Trial, line: &mut Line<'_>) -> Made {
    let w = worker(world, line)?;
    Ok(world.deaf(w)?)
}

/// `hear W`
pub(crate) fn hear(world: &mut Trial, line: &mut Line<'_>) -> Made {
    let w = worker(world, line)?;
    Ok(world.hear(w)?)
}

/// `expire W MS`
pub(crate) fn expire(world: &mut Trial, line: &mut Line<'_>) -> Made {
    let w = line.short()?;
    Ok(world.expire(w, line.long()?)?)
}

/// `clock MS` answers the time.
pub(crate) fn clock(world: &mut Trial, line: &mut Line<'_>) -> Made {
    let now = world.clock(line.long()?);
    line.tell(now)
}

/// `tick W N`: the worker ticks so often. The answer is what each tick did.
pub(crate) fn tick(world: &mut Trial, line: &mut Line<'_>) -> Made {
    let w = line.short()?;
    for _ in 0..line.short()? {
        tick_once(world, w, line)?;
    }
    Ok(())
}

fn tick_once(world: &mut Trial, w: u32, line: &mut Line<'_>) -> Made {
    only_where(world.cluster().has_worker(w))?;
    let now = world.cluster().moment();
    let tick = cw_herder::tick(line.alloc, world, w, now)?;
    let told = tell_tick(&tick, line);
    drop(tick);
    told
}

fn tell_tick(tick: &Tick, line: &mut Line<'_>) -> Made {
    Ok(write_tick(&mut line.answer, tick)?)
}

// What a tick did, with its numbers.
fn write_tick(text: &mut String, tick: &Tick) -> Result<(), AllocError> {
    match tick {
        Tick::Read(prefix) => write!(text, " Read {prefix}"),
        Tick::Stop(_) => write!(text, " Stop"),
        Tick::Join(round) => write!(text, " Join {round}"),
        Tick::Close(round) => write!(text, " Close {round}"),
        Tick::Planned(round) => write!(text, " Planned {round}"),
        Tick::Sync(round) => write!(text, " Sync {round}"),
        Tick::Lead(epoch) => write!(text, " Lead {epoch}"),
        Tick::Propose(_, count) => write!(text, " Propose {count}"),
        Tick::Commit(_, offset) => write!(text, " Commit {offset}"),
        Tick::Fence(_, epoch) => write!(text, " Fence {epoch}"),
        Tick::FenceRecord(_, offset) => write!(text, " FenceRecord {offset}"),
        Tick::Mark(log, _, committed) => write!(text, " Mark {log:?} {committed}"),
        Tick::Start(_, i) => write!(text, " Start {i}"),
        Tick::Report(_, state) => write!(text, " Report {state:?}"),
        Tick::Idle => write!(text, " Idle"),
        Tick::LostLead { own, current } => write!(text, " LostLead {own} {current}"),
        Tick::Dead => write!(text, " Dead"),
    }
}
