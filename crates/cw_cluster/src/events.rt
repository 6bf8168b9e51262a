//! The directives of a script that make one event of the cluster, or look at it.
ghost use Rattle.std.specs.Prelude.{◌≡◌, ◌<◌, length, map, Ok, IfOk};
ghost use Rattle.cw_data.specs.Log.{taken};
ghost use Rattle.cw_model.specs.Lookups.{held};
ghost use Rattle.cw_script.specs.Spelling.{IsCommit, IsCompacted};
ghost use Rattle.cw_script.specs.declared.directive.Directive.TheVariants as directive;
ghost use Rattle.cw_world.specs.World.{Acts};
ghost use Rattle.cw_run.specs.Answers.{pair_of};
ghost use Rattle.cw_cluster.specs.declared.outcome.Outcome.TheVariants as came;
ghost use Rattle.cw_cluster.specs.Events.{event_of, found, incarnation_of, IsLook};

use crate::outcome::Outcome;
use cw_disk::Disk;
use cw_model::WorldFault;
use cw_script::PartEnd;
use cw_types::{Epoch, Listed, LogName, Name};
use cw_world::World;
use std::alloc::{AllocError, Global};

/// A producer of a script gets its next epoch (KIP-98, InitProducerId).
pub(crate) fn init<D: Disk>(world: &mut World<D>, n: u32) -> Result<Outcome, WorldFault>
    ensures { Acts D.Disk (event_of world.old.setting (directive.Init n)) world.old world.new result }
{
    match world.raw_init(n) {
        Ok(epoch) => Ok(Outcome::Epoch(epoch)),
        Err(fault) => Err(fault),
    }
}

/// A producer of a script commits parts up to new ends, under the epoch that it holds (KIP-98).
pub(crate) fn commit<D: Disk>(
    alloc: Global,
    world: &mut World<D>,
    n: u32,
    epoch: u64,
    pairs: &[PartEnd],
) -> Result<Outcome, WorldFault>
    requires { IsCommit n epoch pairs.now }
    ensures { Acts D.Disk (event_of world.old.setting (directive.Commit n epoch pairs.now)) world.old world.new result }
{
    let Ok(list) = list_of(alloc, pairs) else {
        return Err(WorldFault::Memory);
    };
    match world.raw_commit(n, Epoch(epoch), &list) {
        Ok(spans) => Ok(Outcome::Committed(spans)),
        Err(fault) => Err(fault),
    }
}

// The parts of a commit, each with its new end.
fn list_of(alloc: Global, pairs: &[PartEnd]) -> Result<Vec<(u32, u64)>, AllocError>
    ensures { IfOk result (λ list. list.items ≡ map pair_of pairs.now) }
{
    let mut list = Vec::with_capacity(alloc, pairs.len())?;
    for pair in pairs {
        list.push((pair.part, pair.to))?;
    }
    Ok(list)
}

/// There is a new worker.
pub(crate) fn spawn<D: Disk>(world: &mut World<D>) -> Result<Outcome, WorldFault>
    ensures { Acts D.Disk (event_of world.old.setting directive.Spawn) world.old world.new result }
{
    match world.spawn() {
        Ok(w) => Ok(Outcome::Spawned(w)),
        Err(fault) => Err(fault),
    }
}

/// A worker stops at once.
pub(crate) fn kill<D: Disk>(world: &mut World<D>, w: u64) -> Result<Outcome, WorldFault>
    requires { w < length world.old.state.rows }
    ensures { Acts D.Disk (event_of world.old.setting (directive.Kill w)) world.old world.new result }
{
    let number = number_of(world, w);
    match world.kill(number) {
        Ok(()) => Ok(Outcome::Killed(number)),
        Err(fault) => Err(fault),
    }
}

/// A worker hears the group no longer.
pub(crate) fn deaf<D: Disk>(world: &mut World<D>, w: u64) -> Result<Outcome, WorldFault>
    requires { w < length world.old.state.rows }
    ensures { Acts D.Disk (event_of world.old.setting (directive.Deaf w)) world.old world.new result }
{
    let number = number_of(world, w);
    match world.deaf(number) {
        Ok(()) => Ok(Outcome::Deaf(number)),
        Err(fault) => Err(fault),
    }
}

/// A worker hears the group again.
pub(crate) fn hear<D: Disk>(world: &mut World<D>, w: u64) -> Result<Outcome, WorldFault>
    requires { w < length world.old.state.rows }
    ensures { Acts D.Disk (event_of world.old.setting (directive.Hear w)) world.old world.new result }
{
    let number = number_of(world, w);
    match world.hear(number) {
        Ok(()) => Ok(Outcome::Hears(number)),
        Err(fault) => Err(fault),
    }
}

/// The group takes a worker for dead (KIP-415).
pub(crate) fn expire<D: Disk>(world: &mut World<D>, w: u64) -> Result<Outcome, WorldFault>
    requires { w < length world.old.state.rows }
    ensures { Acts D.Disk (event_of world.old.setting (directive.Expire w)) world.old world.new result }
{
    let number = number_of(world, w);
    let now = world.cluster().moment();
    match world.expire(number, now) {
        Ok(()) => Ok(Outcome::Expired(number)),
        Err(fault) => Err(fault),
    }
}

/// The time is at least so many milliseconds.
pub(crate) fn clock<D: Disk>(world: &mut World<D>, to: u64) -> Outcome
    ensures { Acts D.Disk (event_of world.old.setting (directive.Clock to)) world.old world.new (Ok result) }
{
    Outcome::Clock(world.clock(to))
}

/// A worker's herder does the next thing.
pub(crate) fn tick<D: Disk>(
    alloc: Global,
    world: &mut World<D>,
    w: u64,
) -> Result<Outcome, WorldFault>
    requires { w < length world.old.state.rows }
    ensures { Acts D.Disk (event_of world.old.setting (directive.Tick w)) world.old world.new result }
{
    let number = number_of(world, w);
    let now = world.cluster().moment();
    match cw_herder::tick(alloc, world, number, now) {
        Ok(tick) => Ok(Outcome::Tick(number, tick)),
        Err(fault) => Err(fault),
    }
}

/// A log is compacted (Kafka's compacted topics).
pub(crate) fn compact<D: Disk>(world: &mut World<D>, log: LogName) -> Result<Outcome, WorldFault>
    requires { IsCompacted log }
    ensures { Acts D.Disk (event_of world.old.setting (directive.Compact log)) world.old world.new result }
{
    match world.compact(log) {
        Ok((before, after)) => Ok(Outcome::Compacted { log, before, after }),
        Err(fault) => Err(fault),
    }
}

/// The items that a worker holds.
pub(crate) fn held<D: Disk>(world: &World<D>, w: u64) -> Result<Outcome, WorldFault>
    requires { w < length world.now.state.rows }
    ensures { IsLook (came.Held w (held w world.now.state)) result }
{
    let number = number_of(world, w);
    match world.cluster().held(number) {
        Ok(items) => Ok(Outcome::Held(number, Listed::new(items))),
        Err(_) => Err(WorldFault::Memory),
    }
}

/// The member that a worker is.
pub(crate) fn member<D: Disk>(world: &World<D>, w: u64) -> Outcome
    requires { w < length world.now.state.rows }
    ensures { result ≡ came.Member w (incarnation_of w world.now.state) }
{
    let number = number_of(world, w);
    Outcome::Member(number, world.cluster().group().incarnation(number))
}

/// The first committed record of a topic at an offset or behind it (KIP-98, read_committed).
pub(crate) fn take<D: Disk>(
    alloc: Global,
    world: &World<D>,
    topic: &Name,
    from: u64,
) -> Result<Outcome, WorldFault>
    ensures { IsLook (found (taken topic.now from world.now.state.batches)) result }
{
    match world.cluster().data_state().take(topic, from) {
        Some((offset, value)) => match value.to_vec(alloc) {
            Ok(value) => Ok(Outcome::Record {
                offset,
                value: Listed::new(value),
            }),
            Err(_) => Err(WorldFault::Memory),
        },
        None => Ok(Outcome::NoRecord),
    }
}

/// The number of a worker that there is: there are fewer than 2^32.
pub(crate) fn number_of<D: Disk>(world: &World<D>, w: u64) -> u32
    requires { w < length world.now.state.rows }
    ensures { result ≡ w }
{
    let _ = world.cluster().workers();
    w as u32
}
