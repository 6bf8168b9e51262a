//! A sink's task takes the committed records of a topic, below the last stable offset (KIP-98, read_committed).
ghost use Rattle.std.specs.Prelude.{◌≡◌, ◌+◌, ◌<◌, take, IfOk};
ghost use Rattle.cw_model.specs.Polls.{most_records, records_from};
ghost use Rattle.cw_sinktask.specs.Gathered.{values_of, place_behind};

use cw_data::DataState;
use cw_types::{Listed, Name};
use std::alloc::{AllocError, Global};

// The most records that a sink takes at once.
const MOST: usize = 500;

/// The values of some records of a topic, in order, and the place behind the last of them.
#[derive(Drop)]
pub(crate) struct Values {
    pub(crate) lines: Vec<Listed<u8>>,
    pub(crate) to: u64,
}

/// Takes the first records from a place on, at most 500.
pub(crate) fn take_from(
    alloc: Global,
    log: &DataState,
    topic: &Name,
    from: u64,
) -> Result<Values, AllocError>
    ensures lines { IfOk result (λ taken. taken.lines.items ≡
        values_of (take most_records (records_from topic.now from log.now.entries))) }
    ensures to { IfOk result (λ taken. taken.to ≡
        place_behind from (take most_records (records_from topic.now from log.now.entries))) }
{
    let end = log.end(topic);
    let mut lines = Vec::new(alloc);
    let mut to = from;
    for count in 0..MOST {
        let Some((offset, value)) = log.take(topic, to) else {
            return Ok(Values { lines, to });
        };
        lines.push(Listed::new(value.to_vec(alloc)?))?;
        to = behind(offset, end);
    }
    Ok(Values { lines, to })
}

// The place behind one that lies below the end.
fn behind(offset: u64, end: u64) -> u64
    requires { offset < end }
    ensures { result ≡ offset + 1 }
{
    offset + 1
}
