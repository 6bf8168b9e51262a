//! Where a poll of a source cuts.
ghost use Rattle.std.specs.Prelude.{◌≡◌, ◌+◌, ◌-◌, ◌<◌, ◌≤◌, length, drop, take, MatchOption};
ghost use Rattle.cw_feed.specs.Cut.{line_lengths, LineEndsIn, NoLineEndsIn, fitting, longest_line, most_bytes};
ghost use Rattle.cw_feed.specs.Cut.{cut_of_feed, cut_of_sequence};

use memchr::memchr;

// The most bytes of a line with its `\n`, where it is the first of a cut.
const LONGEST_LINE: usize = 65536;

// The most bytes of a cut.
const MOST_BYTES: usize = 1048576;

/// Where a poll of a source cuts.
#[derive(Clone, Copy, Debug, PartialEq, Eq, Drop)]
pub enum CutAnswer {
    /// Behind a whole line or record.
    Cut {
        /// The position behind it.
        to: u64,
    },
    /// There is no whole line or record.
    AtEnd,
    /// The first line, which begins at this position, has more than 65,536 bytes with its `\n`; or the rest
    /// of the feed from there has more, and no `\n`.
    LineTooLong(u64),
}

/// The cut of a feed of these bytes.
pub(crate) fn cut_of_feed(bytes: &[u8], from: u64, max: u32) -> CutAnswer
    requires { 0 < max }
    ensures { result ≡ cut_of_feed bytes.now from max }
{
    if from >= bytes.len() as u64 {
        return CutAnswer::AtEnd;
    }
    let rest = &bytes[from as usize..];
    match first_line(rest) {
        Some(first) => {
            let to = lines_end(rest, first, max - 1);
            CutAnswer::Cut {
                to: from + to as u64,
            }
        }
        None if rest.len() > LONGEST_LINE => CutAnswer::LineTooLong(from),
        None => CutAnswer::AtEnd,
    }
}

/// The cut of a sequence of `count` records.
pub(crate) fn cut_of_sequence(count: u64, from: u64, max: u32) -> CutAnswer
    ensures { result ≡ cut_of_sequence count from max }
{
    if from >= count {
        return CutAnswer::AtEnd;
    }
    CutAnswer::Cut {
        to: from.saturating_add(u64::from(max)).min(count),
    }
}

// How many bytes the first whole line has with its `\n`, if these are at most 65,536.
fn first_line(rest: &[u8]) -> Option<usize>
    ensures { MatchOption result (NoLineEndsIn (take longest_line rest.now)) (LineEndsIn (take longest_line rest.now)) }
{
    line_within(front(rest, LONGEST_LINE))
}

// Where the last line ends that a cut takes: behind the first line there may be `more`.
fn lines_end(rest: &[u8], first: usize, more: u32) -> usize
    requires { LineEndsIn (take longest_line rest.now) first }
    ensures end { result ≡ first + fitting (most_bytes - first) (take more (line_lengths (drop first rest.now))) }
    ensures within { result ≤ length rest.now }
{
    let window = front(rest, MOST_BYTES);
    let mut to = first;
    for taken in 0..more {
        match line_within(&window[to..]) {
            Some(line) => to += line,
            None => return to,
        }
    }
    to
}

// How many bytes the first line has with its `\n`, if it ends in this part.
fn line_within(part: &[u8]) -> Option<usize>
    ensures { MatchOption result (NoLineEndsIn part.now) (LineEndsIn part.now) }
{
    let at = memchr(b'\n', part)?;
    Some(at + 1)
}

// The first of some bytes, `most` where there are as many.
fn front(bytes: &[u8], most: usize) -> &[u8]
    ensures { result.now ≡ take most bytes.now }
{
    bytes.get(..most).unwrap_or(bytes)
}
