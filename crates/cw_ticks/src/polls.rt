//! Which part a source's poll takes: the first behind the one that it took last, in its order and round about, that has
//! something (Kafka Connect's SourceTask).
ghost use Rattle.std.specs.Prelude.{◌≡◌, ◌<◌, ◌≤◌, ◌-◌, length};
ghost use Rattle.std.specs.List.{find, range_with_len};
ghost use Rattle.cw_model.specs.Polls.{turn_behind, cut_at, is_something, source_turn};
ghost use Rattle.cw_model.specs.Tasks.{parts_of, position_at, batch_limit_of, is_sink};

use cw_feed::{CutAnswer, Feeds};
use cw_model::Instance;
use cw_rows::count_of;
use cw_types::PartKey;

/// The turn that a source's poll takes, where a part has something: its next line or record, or a line that is too
/// long. A batch takes at least one record, as that of each task does.
pub fn source_turn(feeds: &Feeds, instance: &Instance) -> Option<usize>
    requires { 0 < batch_limit_of instance.now }
    ensures { result ≡ source_turn feeds.now instance.now }
{
    let count = parts_of(instance).len();
    let first = turn_behind(instance.last).min(count);
    match source_turn_between(feeds, instance, first, count) {
        Some(turn) => Some(turn),
        None => source_turn_between(feeds, instance, 0, first),
    }
}

/// What is cut of a source's part from its position on.
pub fn cut_at(feeds: &Feeds, instance: &Instance, turn: usize) -> CutAnswer
    requires within { turn < length (parts_of instance.now) }
    requires some { 0 < batch_limit_of instance.now }
    ensures { result ≡ cut_at feeds.now instance.now turn }
{
    let part = &parts_of(instance)[turn];
    let position = position_at(instance, turn);
    match part {
        PartKey::File { .. } | PartKey::Seq { .. } => {
            feeds.next_cut(part, count_of(instance), position, batch_limit_of(instance))
        }
        PartKey::Raw(_) | PartKey::Sink { .. } => CutAnswer::AtEnd,
    }
}

// The first of a source's turns between two that has something.
fn source_turn_between(feeds: &Feeds, instance: &Instance, from: usize, to: usize) -> Option<usize>
    requires order { from ≤ to }
    requires within { to ≤ length (parts_of instance.now) }
    requires some { 0 < batch_limit_of instance.now }
    ensures { result ≡
        find (λ turn. is_something (cut_at feeds.now instance.now turn)) (range_with_len from (to - from)) }
{
    for turn in from..to {
        if is_something(cut_at(feeds, instance, turn)) {
            return Some(turn);
        }
    }
    None
}

// Whether a cut is something: a part with a line that is too long has that.
fn is_something(cut: CutAnswer) -> bool
    ensures { result ≡ is_something cut }
{
    match cut {
        CutAnswer::Cut { .. } | CutAnswer::LineTooLong(_) => true,
        CutAnswer::AtEnd => false,
    }
}

/// The turn behind the last one that was taken; the first one where none was.
pub(crate) fn turn_behind(last: Option<u32>) -> usize
    ensures { result ≡ turn_behind last }
{
    match last {
        Some(turn) => turn as usize + 1,
        None => 0,
    }
}

/// The parts of a task, in its order.
pub fn parts_of(instance: &Instance) -> &[PartKey]
    ensures { result.now ≡ parts_of instance.now }
{
    match &instance.task {
        Some(task) => task.parts.as_slice(),
        None => &[],
    }
}

/// Whether an instance is a task of a sink.
pub fn is_sink(instance: &Instance) -> bool
    ensures { result ≡ is_sink instance.now }
{
    match &instance.task {
        Some(task) => !task.class.is_source(),
        None => false,
    }
}

/// A task's position in the part of a turn.
pub fn position_at(instance: &Instance, turn: usize) -> u64
    ensures { result ≡ position_at turn instance.now }
{
    match instance.positions.as_slice().get(turn) {
        Some(position) => *position,
        None => 0,
    }
}

// How many records a batch of it has at most.
fn batch_limit_of(instance: &Instance) -> u32
    ensures { result ≡ batch_limit_of instance.now }
{
    match &instance.task {
        Some(task) => task.batch,
        None => 0,
    }
}
