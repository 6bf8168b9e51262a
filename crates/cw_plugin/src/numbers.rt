//! Numbers in properties.
ghost use Rattle.std.specs.Prelude.{◌≡◌};
ghost use Rattle.cw_plugin.specs.Numbers.{within, number_in, or_default, tasks_max, batch_size, sequences, count};

use cw_json::{Props, Text};
use cw_types::read_u32;

// The number from `least` to `most` that a text is.
fn number_in(least: u32, most: u32, text: &str) -> Option<u32>
    ensures { result ≡ number_in least most text.now }
{
    let number = read_u32(text.as_bytes())?;
    if number < least {
        return None;
    }
    if most < number {
        return None;
    }
    Some(number)
}

// How many tasks there may be: 1 to 1,000, by default 1.
pub(crate) fn tasks_max(props: &Props) -> Option<u32>
    ensures { result ≡ tasks_max props.now }
{
    match props.get("tasks.max") {
        Some(text) => number_in(1, 1000, text.as_str()),
        None => Some(1),
    }
}

// How many records a batch has at most: 1 to 100,000, by default 2,000.
pub(crate) fn batch_size(props: &Props) -> Option<u32>
    ensures { result ≡ batch_size props.now }
{
    match props.get("batch.size") {
        Some(text) => number_in(1, 100000, text.as_str()),
        None => Some(2000),
    }
}

// The number of a sequence: 0 to 999.
pub(crate) fn part_number(text: &Text) -> Option<u32>
    ensures { result ≡ number_in 0 999 text.now }
{
    number_in(0, 999, text.as_str())
}

// How many sequences there are: 1 to 1,000.
pub(crate) fn sequences(text: &Text) -> Option<u32>
    ensures { result ≡ sequences text.now }
{
    number_in(1, 1000, text.as_str())
}

// How many records a sequence has: 0 to 2^32 - 1.
pub(crate) fn count(text: &Text) -> Option<u32>
    ensures { result ≡ count text.now }
{
    number_in(0, 4294967295, text.as_str())
}
