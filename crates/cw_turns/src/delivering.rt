//! A turn of a task's runner: the world learns what a sink's task has handed out.
ghost use Rattle.std.specs.Prelude.{◌≡◌, ◌<◌, ◌≤◌, length, true, false, None, Ok};
ghost use Rattle.cw_data.specs.Log.{stable};
ghost use Rattle.cw_model.specs.EventsSinks.{deliver, topic_in, MayDeliver};
ghost use Rattle.cw_model.specs.Lookups.{instance_of};
ghost use Rattle.cw_model.specs.Tasks.{is_sink, part_at, parts_of, position_at};
ghost use Rattle.cw_world.specs.World.{Does};
ghost use Rattle.cw_desk.specs.Keeping.{KeepsJournal};
ghost use Rattle.cw_turns.specs.Due.{IsDue, IsToTell, IsTopic};
ghost use Rattle.cw_turns.specs.Going.{Start, GoesOn};

use cw_disk::Disk;
use cw_model::{Instance, InstancePhase};
use cw_rows::{Cluster, part_at};
use cw_sinktask::Delivery;
use cw_ticks::{is_sink, parts_of, position_at};
use cw_types::PartKey;
use cw_world::World;

/// The world learns that a sink's task has handed out what it gathered. Where the task no longer polls at the place
/// that was gathered, nothing is done, and the answer is false: a later step hands the records out again. Where it
/// polls a topic there, which is stable so far, it is done.
pub fn deliver<D: Disk>(world: &mut World<D>, i: u64, delivery: &Delivery) -> bool
    requires there { i < length world.old.state.instances }
    requires alive { world.old.state.closed ≡ None }
    ensures done { result ≡ true →
        Does (deliver i delivery.now.turn delivery.now.to) world.old world.new (Ok tt) }
    ensures there { result ≡ true →
        position_at delivery.now.turn (instance_of i world.old.state) ≡ delivery.now.from }
    ensures due { IsToTell i world.old.state delivery.now → result ≡ true }
    ensures stays { result ≡ false → world.new ≡ world.old }
    ensures goes_on { (start : Start) → GoesOn D.Disk start world.old → GoesOn D.Disk start world.new }
    ensures kept { KeepsJournal world.old.state world.new.state }
{
    world.is_safe();
    if !may_deliver(world.cluster(), i, delivery) {
        return false;
    }
    match world.deliver(i, delivery.turn, delivery.to) {
        Ok(()) => true,
        Err(_) => unreachable!(),
    }
}

// Whether a sink's task polls at the place where a delivery was gathered.
fn may_deliver(cluster: &Cluster, i: u64, delivery: &Delivery) -> bool
    requires { i < length cluster.now.state.instances }
    ensures may { result ≡ true → MayDeliver i delivery.now.turn delivery.now.to cluster.now.state }
    ensures there { result ≡ true →
        position_at delivery.now.turn (instance_of i cluster.now.state) ≡ delivery.now.from }
    ensures due { IsToTell i cluster.now.state delivery.now → result ≡ true }
{
    let own = cluster.instance_of(i);
    match own.phase {
        InstancePhase::Polling => is_sink(own) && is_due(cluster, own, delivery),
        _ => false,
    }
}

// Whether an instance stands where a delivery was gathered, and its topic is stable up to the end of that.
fn is_due(cluster: &Cluster, own: &Instance, delivery: &Delivery) -> bool
    ensures is { result ≡ true → IsDue own.now cluster.now.state.batches delivery.now }
    ensures due { IsDue own.now cluster.now.state.batches delivery.now →
        IsTopic (part_at delivery.now.turn own.now) → result ≡ true }
{
    if delivery.turn as usize >= parts_of(own).len() {
        return false;
    }
    let position = position_at(own, delivery.turn as usize);
    let stable = stable_of(cluster, part_at(own, delivery.turn));
    position == delivery.from && position < delivery.to && delivery.to <= stable
}

// Up to where a sink's part is stable; 0 where it is no topic.
fn stable_of(cluster: &Cluster, part: &PartKey) -> u64
    ensures most { result ≤ stable (topic_in part.now) cluster.now.state.batches }
    ensures topic { IsTopic part.now → result ≡ stable (topic_in part.now) cluster.now.state.batches }
{
    match part {
        PartKey::Sink { topic, .. } => cluster.stable(topic),
        PartKey::Raw(_) | PartKey::File { .. } | PartKey::Seq { .. } => 0,
    }
}
