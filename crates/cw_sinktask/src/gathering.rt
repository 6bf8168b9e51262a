//! What a sink's task hands out when it polls: of the first topic, in its turn, that has any, its committed records
//! below the last stable offset, at most 500 (Kafka Connect's SinkTask; KIP-98, read_committed).
ghost use Rattle.std.specs.Prelude.{◌≡◌, ◌<◌, true, length, Some, IsSome, IfOk};
ghost use Rattle.std.specs.Option.{option_map};
ghost use Rattle.std.specs.List.{AllByRecursion};
ghost use Rattle.cw_model.specs.EventsSinks.{topic_in};
ghost use Rattle.cw_model.specs.Lookups.{instance_of};
ghost use Rattle.cw_model.specs.Polls.{delivery_at, gathered};
ghost use Rattle.cw_model.specs.Tasks.{parts_of, is_sink};
ghost use Rattle.cw_edges.specs.Handing.{file_of};
ghost use Rattle.cw_ticks.specs.Polled.{IsTopic};
ghost use Rattle.cw_sinktask.specs.Gathered.{into_file, HasFile};

use crate::delivery::Delivery;
use crate::taking::take_from;
use cw_data::DataState;
use cw_disk::Disk;
use cw_model::Instance;
use cw_ticks::{parts_of, position_at, sink_turn};
use cw_types::{Listed, Name, PartKey};
use cw_world::World;
use std::alloc::{AllocError, Global};

/// What a sink's task hands out when it polls; none where none of its topics has a committed record that is stable.
pub fn gather<D: Disk>(
    alloc: Global,
    world: &World<D>,
    i: u64,
) -> Result<Option<Delivery>, AllocError>
    requires there { i < length world.now.state.instances }
    requires sink { is_sink (instance_of i world.now.state) ≡ true }
    ensures { IfOk result (λ found. let own = instance_of i world.now.state in
        found ≡ option_map (into_file (file_of own)) (gathered own world.now.state.batches)) }
{
    world.is_safe();
    let cluster = world.cluster();
    gather_of(alloc, cluster.data_state(), cluster.instance_of(i))
}

// What a task of topics and a file hands out of the data log.
fn gather_of(alloc: Global, log: &DataState, own: &Instance) -> Result<Option<Delivery>, AllocError>
    requires topics { AllByRecursion IsTopic (parts_of own.now) }
    requires file { HasFile own.now }
    ensures { IfOk result (λ found.
        found ≡ option_map (into_file (file_of own.now)) (gathered own.now log.now.entries)) }
{
    match sink_turn(log, own) {
        Some(turn) => Ok(Some(delivery_at(alloc, log, own, turn)?)),
        None => Ok(None),
    }
}

// What it hands out of the topic of a turn. No task has 2^32 parts.
fn delivery_at(
    alloc: Global,
    log: &DataState,
    own: &Instance,
    turn: usize,
) -> Result<Delivery, AllocError>
    requires within { turn < length (parts_of own.now) }
    requires topics { AllByRecursion IsTopic (parts_of own.now) }
    requires file { HasFile own.now }
    ensures { IfOk result (λ d. d ≡ into_file (file_of own.now) (delivery_at own.now log.now.entries turn)) }
{
    let Ok(place) = u32::try_from(turn) else {
        return Err(AllocError);
    };
    let topic = topic_of(&parts_of(own)[turn])?;
    let file = file_of(own)?;
    let from = position_at(own, turn);
    let taken = take_from(alloc, log, &topic, from)?;
    Ok(Delivery {
        turn: place,
        topic,
        file,
        from,
        to: taken.to,
        lines: Listed::new(taken.lines),
    })
}

// The topic of a sink's part.
fn topic_of(part: &PartKey) -> Result<Name, AllocError>
    requires { IsTopic part.now }
    ensures { IfOk result (λ topic. topic ≡ topic_in part.now) }
{
    match part {
        PartKey::Sink { topic, .. } => topic.copy(),
        PartKey::Raw(_) | PartKey::File { .. } | PartKey::Seq { .. } => unreachable!(),
    }
}

// The file that a sink's task writes.
fn file_of(own: &Instance) -> Result<Name, AllocError>
    requires { HasFile own.now }
    ensures { IfOk result (λ file. file ≡ file_of own.now) }
{
    match &own.task {
        Some(task) => copy_of(&task.file),
        None => unreachable!(),
    }
}

// A copy of a name that is there.
fn copy_of(name: &Option<Name>) -> Result<Name, AllocError>
    requires { IsSome name.now }
    ensures { IfOk result (λ copy. name.now ≡ Some copy) }
{
    match name {
        Some(name) => name.copy(),
        None => unreachable!(),
    }
}
