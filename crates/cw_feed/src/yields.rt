//! What a source yields between two positions.
ghost use Rattle.std.specs.Prelude.{◌≡◌, ◌≤◌, ◌↔◌, length, map, IfOk, IsTrue};
ghost use Rattle.cw_feed.specs.Yield.{EndsLine, AreLinesOf, between, record_text, records_between};

use memchr::memchr;
use std::alloc::{AllocError, Global};

/// The lines of a feed of these bytes between two positions.
pub(crate) fn lines_between(
    alloc: Global,
    bytes: &[u8],
    from: u64,
    to: u64,
) -> Result<Vec<Vec<u8>>, AllocError>
    requires { EndsLine bytes.now from to }
    ensures { IfOk result (λ lines. AreLinesOf (between bytes.now from to) (map (λ line. line.items) lines.items)) }
{
    if from == to {
        return Ok(Vec::new(alloc));
    }
    cut_lines(alloc, &bytes[from as usize..to as usize])
}

/// Whether a feed of these bytes yields something between two positions.
pub(crate) fn ends_line(bytes: &[u8], from: u64, to: u64) -> bool
    ensures { IsTrue result ↔ EndsLine bytes.now from to }
{
    from == to || from < to && to <= bytes.len() as u64 && bytes[to as usize - 1] == b'\n'
}

// Bytes of which the last is `\n`, cut at each.
fn cut_lines(alloc: Global, bytes: &[u8]) -> Result<Vec<Vec<u8>>, AllocError>
    requires { EndsLine bytes.now 0 (length bytes.now) }
    ensures { IfOk result (λ lines. AreLinesOf bytes.now (map (λ line. line.items) lines.items)) }
{
    let mut lines = Vec::new(alloc);
    let mut at = 0;
    while let Some(line) = memchr(b'\n', &bytes[at..]) {
        lines.push(Vec::from_slice(alloc, &bytes[at..at + line])?)?;
        at += line + 1;
    }
    Ok(lines)
}

/// The records of a sequence between two positions.
pub(crate) fn records_between(
    alloc: Global,
    index: u32,
    from: u64,
    to: u64,
) -> Result<Vec<Vec<u8>>, AllocError>
    requires { from ≤ to }
    ensures { IfOk result (λ records. map (λ text. text.items) records.items ≡ records_between index from to) }
{
    let mut records = Vec::new(alloc);
    for k in from..to {
        records.push(record_text(alloc, index, k)?)?;
    }
    Ok(records)
}

// The text of a record of a sequence.
fn record_text(alloc: Global, index: u32, k: u64) -> Result<Vec<u8>, AllocError>
    ensures { IfOk result (λ text. text.items ≡ record_text index k) }
{
    Ok(format!(in alloc; "{index}-{k}")?.into_bytes())
}
