//! The turns of herders and of the cleaner under the lock.
ghost use Rattle.std.specs.Prelude.{◌≡◌, ◌≢◌, ◌≤◌, ◌<◌, ℕ, true, false, length, slice_index, EachIndex, Err, IfSome};
ghost use Rattle.cw_model.specs.declared.fault.WorldFault.TheVariants.{Memory};
ghost use Rattle.cw_model.specs.EventsCompaction.{compact, MayCompact};
ghost use Rattle.cw_world.specs.Logs.{view_in};
ghost use Rattle.cw_world.specs.World.{Writes};
ghost use Rattle.cw_desk.specs.Keeping.{KeepsJournal};
ghost use Rattle.cw_serve.specs.Sharing.{SharedState, Publishes, goes_on, first_stop};
ghost use Rattle.cw_serve.specs.Turning.{Herds, Lets, Notes, is_late, is_worth};
ghost use Rattle.cw_serve.specs.Turning.{expiry_came, tick_came, compaction_came};

use crate::naming::Begun;
use crate::shared::{Shared, Stop, keep_first};
use cw_disk::Disk;
use cw_model::{Tick, WorldFault};
use cw_rows::Cluster;
use cw_types::LogName;
use cw_world::World;
use std::alloc::Global;
use std::sync::Wait;

// How long a member may be without a tick, in milliseconds (Kafka Connect's session.timeout.ms).
const SESSION: u64 = 10_000;

// The length in bytes from which on a log is compacted.
const WORTH_COMPACTING: u64 = 1_048_576;

/// What a herder's turn came to.
#[derive(Clone, Copy, Debug, PartialEq, Eq, Drop)]
pub enum Herded {
    /// The server ends.
    Over,
    /// There was nothing to do.
    Idle,
    /// A member that was gone too long was let go.
    Expired,
    /// The worker ticked, and did something.
    Ticked,
}

/// What the cleaner's turn came to.
#[derive(Clone, Copy, Debug, PartialEq, Eq, Drop)]
pub enum Cleaned {
    /// The server ends.
    Over,
    /// The log isn't worth compacting, or can't be.
    Idle,
    /// The log was compacted, and now has so many bytes.
    Compacted(u64),
}

impl<J: Begun, D: Disk, W: Wait + Drop> Shared<J, D, W> {
    /// A herder's turn: the group lets a member go whose last tick is too long ago; else the worker ticks. A herder
    /// that comes too late itself, as all do where the process stood still, judges nobody by what was before. What the
    /// worker has read of the config log is published then.
    pub fn herd(&mut self, alloc: Global, w: u32, now: u64) -> Herded
        ensures kept { KeepsJournal self.old.world.state self.new.world.state }
        ensures over { goes_on self.old ≡ false →
            (result ≡ Herded.Over) × Publishes J.workers w self.old self.new }
        ensures none { length self.old.world.state.rows ≤ w →
            (result ≡ Herded.Over) × Publishes J.workers w self.old self.new }
        ensures turn { goes_on self.old ≡ true → w < length self.old.world.state.rows → (left : SharedState D) ×
            Herds D.Disk w now self.old left result × Publishes J.workers w left self.new }
    {
        let herded = self.tick(alloc, w, now);
        self.publish(alloc, w);
        herded
    }

    // The same, before what the worker has read is published.
    fn tick(&mut self, alloc: Global, w: u32, now: u64) -> Herded
        ensures kept { KeepsJournal self.old.world.state self.new.world.state }
        ensures over { goes_on self.old ≡ false → (result ≡ Herded.Over) × (self.new ≡ self.old) }
        ensures none { length self.old.world.state.rows ≤ w → (result ≡ Herded.Over) × (self.new ≡ self.old) }
        ensures turn { goes_on self.old ≡ true → w < length self.old.world.state.rows →
            Herds D.Disk w now self.old self.new result }
    {
        if !self.goes_on() || !self.world.cluster().has_worker(w) {
            return Herded::Over;
        }
        self.world.is_safe();
        note(&mut self.moments, w, now);
        if let Some(member) = late_member(self.world.cluster(), &self.moments, now) {
            let expired = cw_turns::expire(&mut self.world, member, now);
            return after_expiry(&mut self.stop, expired);
        }
        let ticked = cw_turns::herd(alloc, &mut self.world, w, now);
        after_tick(&mut self.stop, ticked)
    }

    /// The cleaner's turn: a log is compacted that is long, and twice as long as it was behind its last compaction.
    pub fn clean(&mut self, log: LogName, last: u64) -> Cleaned
        requires { MayCompact log }
        ensures kept { KeepsJournal self.old.world.state self.new.world.state }
        ensures over { goes_on self.old ≡ false → (result ≡ Cleaned.Over) × (self.new ≡ self.old) }
        ensures idle { goes_on self.old ≡ true → is_worth last (view_in D.Disk log self.old.world.logs).bytes ≡ false →
            (result ≡ Cleaned.Idle) × (self.new ≡ self.old) }
        ensures turn { goes_on self.old ≡ true → is_worth last (view_in D.Disk log self.old.world.logs).bytes ≡ true →
            Lets (Writes D.Disk log (compact log)) (compaction_came (view_in D.Disk log self.new.world.logs).bytes)
            self.old self.new result }
    {
        if !self.goes_on() {
            return Cleaned::Over;
        }
        let bytes = self.world.log_size(log).1;
        if !is_worth(bytes, last) {
            return Cleaned::Idle;
        }
        self.world.is_safe();
        let compacted = cw_turns::compact(&mut self.world, log);
        after_compaction(&mut self.stop, &self.world, log, compacted)
    }
}

// Whether a log is worth compacting that is so long, and was as long as the last behind its last compaction.
fn is_worth(bytes: u64, last: u64) -> bool
    ensures { result ≡ is_worth last bytes }
{
    !(bytes < WORTH_COMPACTING) && !(bytes / 2 < last)
}

// The first member whose last tick is too long ago.
fn late_member(cluster: &Cluster, moments: &[u64], now: u64) -> Option<u32>
    ensures { IfSome result (λ w. is_late now moments.now w ≡ true) }
{
    for w in 0..cluster.workers() {
        if cluster.group().incarnation(w).is_some() && is_late(moments, w, now) {
            return Some(w);
        }
    }
    None
}

// Whether a worker's last tick is too long ago.
fn is_late(moments: &[u64], w: u32, now: u64) -> bool
    ensures { result ≡ is_late now moments.now w }
{
    match moments.get(w as usize) {
        Some(moment) => now.saturating_sub(*moment) > SESSION,
        None => false,
    }
}

// Notes that a worker ticks; where it comes too late itself, that all do.
fn note(moments: &mut [u64], w: u32, now: u64)
    ensures { Notes w now moments.old moments.new }
{
    if is_late(moments, w, now) {
        note_all(moments, now);
    } else if (w as usize) < moments.len() {
        // (a time that was read before others noted theirs takes nothing back)
        moments[w as usize] = now.max(moments[w as usize]);
    }
}

fn note_all(moments: &mut [u64], now: u64)
    ensures count { length moments.new ≡ length moments.old }
    ensures all { EachIndex moments.new (λ w. slice_index moments.new w ≡ now) }
{
    for moment in moments.iter_mut() {
        *moment = now;
    }
}

// What an expiry came to.
fn after_expiry(stop: &mut Option<Stop>, done: Result<(), WorldFault>) -> Herded
    ensures told { result ≡ expiry_came done }
    ensures wants { done ≡ Err Memory → stop.new ≡ first_stop stop.old Stop.Memory }
    ensures keeps { done ≢ Err Memory → stop.new ≡ stop.old }
{
    match done {
        Ok(()) => Herded::Expired,
        Err(fault) => {
            keep(stop, &fault);
            Herded::Idle
        }
    }
}

// What a tick came to. Want of memory stops the server; other faults are dropped.
fn after_tick(stop: &mut Option<Stop>, ticked: Result<Tick, WorldFault>) -> Herded
    ensures told { result ≡ tick_came ticked }
    ensures wants { ticked ≡ Err Memory → stop.new ≡ first_stop stop.old Stop.Memory }
    ensures keeps { ticked ≢ Err Memory → stop.new ≡ stop.old }
{
    match ticked {
        Ok(Tick::Idle) | Ok(Tick::Dead) => Herded::Idle,
        Ok(_) => Herded::Ticked,
        Err(fault) => {
            keep(stop, &fault);
            Herded::Idle
        }
    }
}

// What a compaction came to.
fn after_compaction<D: Disk>(
    stop: &mut Option<Stop>,
    world: &World<D>,
    log: LogName,
    compacted: Result<(u64, u64), WorldFault>,
) -> Cleaned
    ensures told { result ≡ compaction_came (view_in D.Disk log world.now.logs).bytes compacted }
    ensures wants { compacted ≡ Err Memory → stop.new ≡ first_stop stop.old Stop.Memory }
    ensures keeps { compacted ≢ Err Memory → stop.new ≡ stop.old }
{
    match compacted {
        Ok(_) => Cleaned::Compacted(world.log_size(log).1),
        Err(fault) => {
            keep(stop, &fault);
            Cleaned::Idle
        }
    }
}

/// Keeps the first want of memory. A failed disk needs no keeping, since the world is closed then.
pub(crate) fn keep(stop: &mut Option<Stop>, fault: &WorldFault)
    ensures wants { fault.now ≡ Memory → stop.new ≡ first_stop stop.old Stop.Memory }
    ensures keeps { fault.now ≢ Memory → stop.new ≡ stop.old }
{
    if matches!(fault, WorldFault::Memory) {
        keep_first(stop, Stop::Memory);
    }
}
