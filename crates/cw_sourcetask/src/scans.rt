//! What a poll of a source's task takes (Kafka Connect's SourceTask).
ghost use Rattle.std.specs.Prelude.{◌≡◌, ◌<◌, true, length, IfOk};
ghost use Rattle.cw_model.specs.Polls.{is_something};
ghost use Rattle.cw_model.specs.Tasks.{parts_of, batch_limit_of};
ghost use Rattle.cw_sourcetask.specs.Sourced.{scan};

use cw_feed::{CutAnswer, Feeds};
use cw_model::Instance;
use cw_ticks::{cut_at, source_turn};
use std::alloc::AllocError;

/// What a poll of a source's task takes: the turn of the first of its parts, from behind the one that it took last
/// and round about, that isn't at its end, and what is cut of it from its position on; where all are at their end,
/// AtEnd and turn 0. It takes no memory; its one error is that the turn has no number below 2^32, which no task's has
/// that fits into memory.
pub fn scan(feeds: &Feeds, instance: &Instance) -> Result<(u32, CutAnswer), AllocError>
    requires { 0 < batch_limit_of instance.now }
    ensures found { IfOk result (λ found. found ≡ scan feeds.now instance.now) }
    ensures within { IfOk result (λ found. is_something found.1 ≡ true → found.0 < length (parts_of instance.now)) }
{
    let Some(place) = source_turn(feeds, instance) else {
        return Ok((0, CutAnswer::AtEnd));
    };
    let Ok(turn) = u32::try_from(place) else {
        return Err(AllocError);
    };
    Ok((turn, cut_at(feeds, instance, place)))
}
