//! Which topic a sink's poll takes: the first behind the one that it took last, in its order and round about, that has
//! a committed record that is stable (Kafka Connect's SinkTask; KIP-98, read_committed).
ghost use Rattle.std.specs.Prelude.{◌≡◌, ◌<◌, ◌≤◌, ◌-◌, length, is_some};
ghost use Rattle.std.specs.List.{find, range_with_len, AllByRecursion};
ghost use Rattle.cw_data.specs.Log.{taken};
ghost use Rattle.cw_model.specs.EventsSinks.{topic_in};
ghost use Rattle.cw_model.specs.Tasks.{parts_of};
ghost use Rattle.cw_ticks.specs.Polled.{IsTopic, has_records, sink_turn};

use crate::polls::{parts_of, position_at, turn_behind};
use cw_data::DataState;
use cw_model::Instance;
use cw_types::PartKey;

/// The turn that a sink's poll takes, where a topic has a committed record that is stable. Its parts are topics, as
/// those of each sink's task are.
pub fn sink_turn(log: &DataState, instance: &Instance) -> Option<usize>
    requires { AllByRecursion IsTopic (parts_of instance.now) }
    ensures { result ≡ sink_turn instance.now log.now.entries }
{
    let count = parts_of(instance).len();
    let first = turn_behind(instance.last).min(count);
    match sink_turn_between(log, instance, first, count) {
        Some(turn) => Some(turn),
        None => sink_turn_between(log, instance, 0, first),
    }
}

// The first of a sink's turns between two whose topic has something.
fn sink_turn_between(log: &DataState, instance: &Instance, from: usize, to: usize) -> Option<usize>
    requires order { from ≤ to }
    requires within { to ≤ length (parts_of instance.now) }
    requires topics { AllByRecursion IsTopic (parts_of instance.now) }
    ensures { result ≡ find (has_records instance.now log.now.entries) (range_with_len from (to - from)) }
{
    for turn in from..to {
        if has_records(log, instance, turn) {
            return Some(turn);
        }
    }
    None
}

// Whether the topic of a turn has a committed record that is stable, from the task's position on.
fn has_records(log: &DataState, instance: &Instance, turn: usize) -> bool
    requires within { turn < length (parts_of instance.now) }
    requires topics { AllByRecursion IsTopic (parts_of instance.now) }
    ensures { result ≡ has_records instance.now log.now.entries turn }
{
    has_record(log, &parts_of(instance)[turn], position_at(instance, turn))
}

// Whether a topic has a committed record that is stable, from a position on.
fn has_record(log: &DataState, part: &PartKey, position: u64) -> bool
    requires { IsTopic part.now }
    ensures { result ≡ is_some (taken (topic_in part.now) position log.now.entries) }
{
    match part {
        PartKey::Sink { topic, .. } => log.take(topic, position).is_some(),
        PartKey::Raw(_) | PartKey::File { .. } | PartKey::Seq { .. } => unreachable!(),
    }
}
