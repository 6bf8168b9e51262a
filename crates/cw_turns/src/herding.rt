//! A turn of a worker's herder, and of the cleaner.
ghost use Rattle.std.specs.Prelude.{◌≡◌, ◌<◌, length, None};
ghost use Rattle.cw_model.specs.EventsCompaction.{compact, MayCompact};
ghost use Rattle.cw_model.specs.EventsWorkers.{expire};
ghost use Rattle.cw_model.specs.Tick.{tick};
ghost use Rattle.cw_world.specs.Moments.{at_moment};
ghost use Rattle.cw_world.specs.World.{Acts, Does, Writes};
ghost use Rattle.cw_desk.specs.Keeping.{KeepsJournal};
ghost use Rattle.cw_turns.specs.Going.{Start, GoesOn};

use cw_disk::Disk;
use cw_herder::tick;
use cw_model::{Tick, WorldFault};
use cw_types::LogName;
use cw_world::World;
use std::alloc::Global;

/// A worker's herder does the next thing, at a time in milliseconds (Connect's distributed herder; KIP-415, KIP-618).
pub fn herd<D: Disk>(
    alloc: Global,
    world: &mut World<D>,
    w: u32,
    now: u64,
) -> Result<Tick, WorldFault>
    requires there { w < length world.old.state.rows }
    requires alive { world.old.state.closed ≡ None }
    ensures acts { Acts D.Disk (tick w) (at_moment now world.old) world.new result }
    ensures goes_on { (start : Start) → GoesOn D.Disk start world.old → GoesOn D.Disk start world.new }
    ensures kept { KeepsJournal world.old.state world.new.state }
{
    world.is_safe();
    tick(alloc, world, w, now)
}

/// The group lets a member go whose herder hasn't been heard of, at a time in milliseconds (KIP-415).
pub fn expire<D: Disk>(world: &mut World<D>, w: u32, now: u64) -> Result<(), WorldFault>
    requires alive { world.old.state.closed ≡ None }
    ensures does { Does (expire world.old.setting w) (at_moment now world.old) world.new result }
    ensures goes_on { (start : Start) → GoesOn D.Disk start world.old → GoesOn D.Disk start world.new }
    ensures kept { KeepsJournal world.old.state world.new.state }
{
    world.is_safe();
    world.expire(w, now)
}

/// A log of two sides is compacted onto its other side (Kafka's compacted topics). The answer is how many records there
/// were and are, markers not counted.
pub fn compact<D: Disk>(world: &mut World<D>, log: LogName) -> Result<(u64, u64), WorldFault>
    requires may { MayCompact log }
    requires alive { world.old.state.closed ≡ None }
    ensures writes { Writes D.Disk log (compact log) world.old world.new result }
    ensures goes_on { (start : Start) → GoesOn D.Disk start world.old → GoesOn D.Disk start world.new }
    ensures kept { KeepsJournal world.old.state world.new.state }
{
    world.is_safe();
    world.compact(log)
}
