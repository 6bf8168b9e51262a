//! A cluster settles: its workers tick and its instances step in turns.
ghost use Rattle.std.specs.Prelude.{◌≡◌, ◌≤◌, ℕ, length, IfOk, IfErr};
ghost use Rattle.std.specs.List.{list_all, range_with_len};
ghost use Rattle.cw_lines.specs.Players.{NoneFell};
ghost use Rattle.cw_run.specs.Settling.{tick_moves, step_moves, all_tick, all_step, round, is_quiet};
ghost use Rattle.cw_cluster.specs.Turning.{TakesTurns, Settles, TurnCaused, UnlessBroken};
ghost use Rattle.cw_cluster.specs.Turning.{ticks_of, steps_of, is_idle_at, rests_at};

use crate::turn::TurnFault;
use crate::turning::Turning;
use cw_model::{Did, Tick};
use std::alloc::{AllocError, Global};

/// Rounds of turns, until a round moves nothing or so many turns have moved something. The answer is how many did.
pub(crate) fn settle<T: Turning>(turning: &mut T, most: u64) -> Result<u64, TurnFault>
    requires alive { T.alive turning.old }
    ensures settles { Settles (T.broken turning.new) (T.setting turning.old) most (T.ran turning.old)
        (T.ran turning.new) result }
    ensures setting { T.setting turning.new ≡ T.setting turning.old }
    ensures alive { UnlessBroken (T.alive turning.new) result }
    ensures later { NoneFell (T.faults turning.old) (T.faults turning.new) }
    ensures caused { IfErr result (TurnCaused (T.faults turning.old) (T.faults turning.new)) }
{
    let mut moved = 0;
    'rounds: loop {
        let now = take_round(turning, most, moved)?;
        if now == moved {
            return Ok(now);
        }
        moved = now;
    }
}

// A round: each worker ticks, and then each instance steps, with those that the ticks began.
fn take_round<T: Turning>(turning: &mut T, most: u64, moved: u64) -> Result<u64, TurnFault>
    requires alive { T.alive turning.old }
    requires few { moved ≤ most }
    ensures turns { TakesTurns (T.broken turning.new) (T.setting turning.old) (round (T.setting turning.old)) most
        moved (T.ran turning.old) (T.ran turning.new) result }
    ensures setting { T.setting turning.new ≡ T.setting turning.old }
    ensures alive { UnlessBroken (T.alive turning.new) result }
    ensures later { NoneFell (T.faults turning.old) (T.faults turning.new) }
    ensures caused { IfErr result (TurnCaused (T.faults turning.old) (T.faults turning.new)) }
{
    let ticked = tick_workers(turning, most, moved)?;
    step_instances(turning, most, ticked)
}

// Each worker ticks.
fn tick_workers<T: Turning>(turning: &mut T, most: u64, before: u64) -> Result<u64, TurnFault>
    requires alive { T.alive turning.old }
    requires few { before ≤ most }
    ensures turns { TakesTurns (T.broken turning.new) (T.setting turning.old) all_tick most
        before (T.ran turning.old) (T.ran turning.new) result }
    ensures setting { T.setting turning.new ≡ T.setting turning.old }
    ensures alive { UnlessBroken (T.alive turning.new) result }
    ensures later { NoneFell (T.faults turning.old) (T.faults turning.new) }
    ensures caused { IfErr result (TurnCaused (T.faults turning.old) (T.faults turning.new)) }
{
    let mut moved = before;
    for w in 0..turning.workers() {
        moved = tick_worker(turning, most, moved, w)?;
    }
    Ok(moved)
}

// A worker ticks, unless it was killed or enough has moved.
fn tick_worker<T: Turning>(turning: &mut T, most: u64, moved: u64, w: u32) -> Result<u64, TurnFault>
    requires alive { T.alive turning.old }
    requires few { moved ≤ most }
    ensures turns { TakesTurns (T.broken turning.new) (T.setting turning.old) (ticks_of w) most
        moved (T.ran turning.old) (T.ran turning.new) result }
    ensures setting { T.setting turning.new ≡ T.setting turning.old }
    ensures alive { UnlessBroken (T.alive turning.new) result }
    ensures later { NoneFell (T.faults turning.old) (T.faults turning.new) }
    ensures caused { IfErr result (TurnCaused (T.faults turning.old) (T.faults turning.new)) }
{
    if moved >= most {
        return Ok(moved);
    }
    if !turning.is_live(w) {
        return Ok(moved);
    }
    if does_tick_move(turning.tick(w)?) {
        Ok(moved + 1)
    } else {
        Ok(moved)
    }
}

// Whether a tick moved something.
fn does_tick_move(tick: Tick) -> bool
    ensures { result ≡ tick_moves tick }
{
    !matches!(tick, Tick::Idle)
}

// Each instance steps.
fn step_instances<T: Turning>(turning: &mut T, most: u64, before: u64) -> Result<u64, TurnFault>
    requires alive { T.alive turning.old }
    requires few { before ≤ most }
    ensures turns { TakesTurns (T.broken turning.new) (T.setting turning.old) (all_step (T.setting turning.old)) most
        before (T.ran turning.old) (T.ran turning.new) result }
    ensures setting { T.setting turning.new ≡ T.setting turning.old }
    ensures alive { UnlessBroken (T.alive turning.new) result }
    ensures later { NoneFell (T.faults turning.old) (T.faults turning.new) }
    ensures caused { IfErr result (TurnCaused (T.faults turning.old) (T.faults turning.new)) }
{
    let mut moved = before;
    for i in 0..turning.instances() {
        moved = step_instance(turning, most, moved, i)?;
    }
    Ok(moved)
}

// An instance steps, unless it ended, it failed, or enough has moved.
fn step_instance<T: Turning>(
    turning: &mut T,
    most: u64,
    moved: u64,
    i: u64,
) -> Result<u64, TurnFault>
    requires alive { T.alive turning.old }
    requires few { moved ≤ most }
    ensures turns { TakesTurns (T.broken turning.new) (T.setting turning.old) (steps_of (T.setting turning.old) i) most
        moved (T.ran turning.old) (T.ran turning.new) result }
    ensures setting { T.setting turning.new ≡ T.setting turning.old }
    ensures alive { UnlessBroken (T.alive turning.new) result }
    ensures later { NoneFell (T.faults turning.old) (T.faults turning.new) }
    ensures caused { IfErr result (TurnCaused (T.faults turning.old) (T.faults turning.new)) }
{
    if moved >= most {
        return Ok(moved);
    }
    if !turning.may_step(i) {
        return Ok(moved);
    }
    if does_step_move(turning.step(i)?) {
        Ok(moved + 1)
    } else {
        Ok(moved)
    }
}

// Whether a step moved something.
fn does_step_move(did: Did) -> bool
    ensures { result ≡ step_moves did }
{
    is_move(&did)
}

// The same of one that is looked at.
fn is_move(did: &Did) -> bool
    ensures { result ≡ step_moves did.now }
{
    match did {
        Did::AtEnd => false,
        Did::Paused => false,
        Did::Stale { .. } => false,
        Did::Pending => false,
        _ => true,
    }
}

/// Whether a cluster is quiet: each worker that takes part is idle, and each instance is at its end, paused or failed.
pub(crate) fn is_quiet<T: Turning>(alloc: Global, turning: &T) -> Result<bool, AllocError>
    ensures { IfOk result (λ quiet. quiet ≡ is_quiet (T.setting turning.now) (T.ran turning.now).cluster) }
{
    if !are_idle(alloc, turning)? {
        return Ok(false);
    }
    do_rest(alloc, turning)
}

// Whether each worker that takes part is idle.
fn are_idle<T: Turning>(alloc: Global, turning: &T) -> Result<bool, AllocError>
    ensures { IfOk result (λ idle. idle ≡ list_all (λ w. is_idle_at w (T.ran turning.now).cluster)
        (range_with_len 0 (length (T.ran turning.now).cluster.rows))) }
{
    for w in 0..turning.workers() {
        let idle = turning.is_idle(alloc, w)?;
        if !idle {
            return Ok(false);
        }
    }
    Ok(true)
}

// Whether each instance rests.
fn do_rest<T: Turning>(alloc: Global, turning: &T) -> Result<bool, AllocError>
    ensures { IfOk result (λ rest. rest ≡ list_all (λ i. rests_at (T.setting turning.now) i (T.ran turning.now).cluster)
        (range_with_len 0 (length (T.ran turning.now).cluster.instances))) }
{
    for i in 0..turning.instances() {
        let rests = turning.rests(alloc, i)?;
        if !rests {
            return Ok(false);
        }
    }
    Ok(true)
}
