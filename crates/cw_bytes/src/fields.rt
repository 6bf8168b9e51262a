//! Reading one field behind the other.
ghost use Rattle.std.specs.Prelude.{◌≡◌, IfOk, IfErr, OnErr};
ghost use Rattle.cw_bytes.specs.Input.{unread};
ghost use Rattle.cw_bytes.specs.Reading.{Fails, Reads, PutsSpan, cut_at, text_at, name_at, task_at, raw_id_at, tid_at};
ghost use Rattle.cw_bytes.specs.Reading.{tag_at, flag_at, mark_at, raw_part_at, file_at, seq_at, sink_at, part_at};
ghost use Rattle.cw_bytes.specs.Reading.{span_at, some_text_at, value_at, record_at, many_at, records_at};

use crate::applied::Applied;
use crate::fault::FieldFault;
use crate::input::Input;
use crate::mark::Mark;
use crate::numbers::{past, u8_of, u32_of, u64_of};
use cw_types::{Epoch, Listed, Name, PartKey, Span, Tag, TaskId, Tid};
use std::alloc::Global;

#[inline]
fn cut<'a>(place: usize, count: usize, from: Input<'a>) -> Result<(&'a [u8], Input<'a>), FieldFault>
    ensures { Reads (λ x. (x.0.now, unread x.1)) result (cut_at place count (unread from.entry)) }
{
    if from.rest.len() < count {
        return Err(FieldFault::Short(place));
    }
    Ok((&from.rest[..count], past(from, count)))
}

/// A text's bytes, behind their length.
#[tactic(auto, unfolding(crate::specs::Reading::text_at))]
#[inline]
pub fn text_of(from: Input<'_>) -> Result<(&[u8], Input<'_>), FieldFault>
    ensures { Reads (λ x. (x.0.now, unread x.1)) result (text_at (unread from.entry)) }
{
    let (count, rest) = u32_of(from)?;
    cut(from.place, count as usize, rest)
}

#[tactic(auto, unfolding(crate::specs::Reading::name_at))]
#[inline]
fn name_of(alloc: Global, from: Input<'_>) -> Result<(Name, Input<'_>), FieldFault>
    ensures { Reads (λ x. (x.0, unread x.1)) result (name_at (unread from.entry)) }
{
    let (text, rest) = text_of(from)?;
    match Name::from_bytes(alloc, text)? {
        Some(name) => Ok((name, rest)),
        None => Err(FieldFault::BadName(from.place)),
    }
}

// Out of line, as other fields with names are, so that those of scripts are read in place.
#[tactic(auto, unfolding(crate::specs::Reading::task_at))]
#[inline(never)]
fn task_of(alloc: Global, from: Input<'_>) -> Result<(Tid, Input<'_>), FieldFault>
    ensures { Reads (λ x. (x.0, unread x.1)) result (task_at (unread from.entry)) }
{
    let (connector, rest) = name_of(alloc, from)?;
    let (index, rest) = u32_of(rest)?;
    Ok((Tid::Task(TaskId { connector, index }), rest))
}

#[tactic(auto, unfolding(crate::specs::Reading::raw_id_at))]
#[inline(always)]
fn raw_id_of(from: Input<'_>) -> Result<(Tid, Input<'_>), FieldFault>
    ensures { Reads (λ x. (x.0, unread x.1)) result (raw_id_at (unread from.entry)) }
{
    let (number, rest) = u32_of(from)?;
    Ok((Tid::Raw(number), rest))
}

/// A producer's id.
#[tactic(auto, unfolding(crate::specs::Reading::tid_at))]
#[inline(always)]
pub fn tid_of(alloc: Global, from: Input<'_>) -> Result<(Tid, Input<'_>), FieldFault>
    ensures { Reads (λ x. (x.0, unread x.1)) result (tid_at (unread from.entry)) }
{
    let (kind, rest) = u8_of(from)?;
    match kind {
        1 => Ok((Tid::Lead, rest)),
        2 => task_of(alloc, rest),
        3 => raw_id_of(rest),
        _ => Err(FieldFault::BadKind(kind)),
    }
}

/// A transaction's tag.
#[tactic(auto, unfolding(crate::specs::Reading::tag_at))]
#[inline]
pub fn tag_of(alloc: Global, from: Input<'_>) -> Result<(Tag, Input<'_>), FieldFault>
    ensures { Reads (λ x. (x.0, unread x.1)) result (tag_at (unread from.entry)) }
{
    let (tid, rest) = tid_of(alloc, from)?;
    let (epoch, rest) = u64_of(rest)?;
    let (number, rest) = u64_of(rest)?;
    let tag = Tag {
        tid,
        epoch: Epoch(epoch),
        number,
    };
    Ok((tag, rest))
}

#[tactic(auto, unfolding(crate::specs::Reading::flag_at))]
fn flag_of(from: Input<'_>) -> Result<(bool, Input<'_>), FieldFault>
    ensures { Reads (λ x. (x.0, unread x.1)) result (flag_at (unread from.entry)) }
{
    let (kind, rest) = u8_of(from)?;
    match kind {
        0 => Ok((false, rest)),
        1 => Ok((true, rest)),
        _ => Err(FieldFault::BadKind(kind)),
    }
}

/// A marker: a transaction, and whether it committed.
#[tactic(auto, unfolding(crate::specs::Reading::mark_at))]
pub fn mark_of(alloc: Global, from: Input<'_>) -> Result<(Mark, Input<'_>), FieldFault>
    ensures { Reads (λ x. (x.0, unread x.1)) result (mark_at (unread from.entry)) }
{
    let (tag, rest) = tag_of(alloc, from)?;
    let (committed, rest) = flag_of(rest)?;
    Ok((Mark { tag, committed }, rest))
}

#[tactic(auto, unfolding(crate::specs::Reading::raw_part_at))]
#[inline(always)]
fn raw_part_of(from: Input<'_>) -> Result<(PartKey, Input<'_>), FieldFault>
    ensures { Reads (λ x. (x.0, unread x.1)) result (raw_part_at (unread from.entry)) }
{
    let (number, rest) = u32_of(from)?;
    Ok((PartKey::Raw(number), rest))
}

#[tactic(auto, unfolding(crate::specs::Reading::file_at))]
#[inline(never)]
fn file_of(alloc: Global, from: Input<'_>) -> Result<(PartKey, Input<'_>), FieldFault>
    ensures { Reads (λ x. (x.0, unread x.1)) result (file_at (unread from.entry)) }
{
    let (connector, rest) = name_of(alloc, from)?;
    let (feed, rest) = name_of(alloc, rest)?;
    Ok((PartKey::File { connector, feed }, rest))
}

#[tactic(auto, unfolding(crate::specs::Reading::seq_at))]
#[inline(never)]
fn seq_of(alloc: Global, from: Input<'_>) -> Result<(PartKey, Input<'_>), FieldFault>
    ensures { Reads (λ x. (x.0, unread x.1)) result (seq_at (unread from.entry)) }
{
    let (connector, rest) = name_of(alloc, from)?;
    let (index, rest) = u32_of(rest)?;
    Ok((PartKey::Seq { connector, index }, rest))
}

#[tactic(auto, unfolding(crate::specs::Reading::sink_at))]
#[inline(never)]
fn sink_of(alloc: Global, from: Input<'_>) -> Result<(PartKey, Input<'_>), FieldFault>
    ensures { Reads (λ x. (x.0, unread x.1)) result (sink_at (unread from.entry)) }
{
    let (connector, rest) = name_of(alloc, from)?;
    let (topic, rest) = name_of(alloc, rest)?;
    Ok((PartKey::Sink { connector, topic }, rest))
}

/// A part's key.
#[tactic(auto, unfolding(crate::specs::Reading::part_at))]
#[inline(always)]
pub fn part_of(alloc: Global, from: Input<'_>) -> Result<(PartKey, Input<'_>), FieldFault>
    ensures { Reads (λ x. (x.0, unread x.1)) result (part_at (unread from.entry)) }
{
    let (kind, rest) = u8_of(from)?;
    match kind {
        1 => raw_part_of(rest),
        2 => file_of(alloc, rest),
        3 => seq_of(alloc, rest),
        4 => sink_of(alloc, rest),
        _ => Err(FieldFault::BadKind(kind)),
    }
}

/// A span of a part.
#[tactic(auto, unfolding(crate::specs::Reading::span_at))]
#[inline(always)]
pub fn span_of(alloc: Global, from: Input<'_>) -> Result<(Span, Input<'_>), FieldFault>
    ensures { Reads (λ x. (x.0, unread x.1)) result (span_at (unread from.entry)) }
{
    let (part, rest) = part_of(alloc, from)?;
    let (from, rest) = u64_of(rest)?;
    let (to, rest) = u64_of(rest)?;
    Ok((Span { part, from, to }, rest))
}

/// A span more behind others. One of a script's part, whose bytes are numbers, is made where it stays.
#[tactic(auto, unfolding(crate::specs::Reading::span_at, crate::specs::Reading::raw_part_at))]
#[inline(always)]
pub fn span_onto<'a>(
    alloc: Global,
    from: Input<'a>,
    spans: &mut Vec<Span>,
) -> Result<Input<'a>, FieldFault>
    ensures put { IfOk result (λ rest. PutsSpan (unread from.entry) (unread rest) spans.old.items spans.new.items) }
    ensures same { OnErr result (spans.new.items ≡ spans.old.items) }
    ensures fault { IfErr result (λ fault. Fails fault (span_at (unread from.entry))) }
{
    match from.rest {
        [1, rest @ ..] => {
            let place = from.place + 1;
            let (number, rest) = u32_of(Input { place, rest })?;
            let (start, rest) = u64_of(rest)?;
            let (end, rest) = u64_of(rest)?;
            spans.push(Span {
                part: PartKey::Raw(number),
                from: start,
                to: end,
            })?;
            Ok(rest)
        }
        _ => {
            let (span, rest) = span_of(alloc, from)?;
            spans.push(span)?;
            Ok(rest)
        }
    }
}

#[tactic(auto, unfolding(crate::specs::Reading::some_text_at))]
fn some_text_of(
    alloc: Global,
    from: Input<'_>,
) -> Result<(Option<Listed<u8>>, Input<'_>), FieldFault>
    ensures { Reads (λ x. (x.0, unread x.1)) result (some_text_at (unread from.entry)) }
{
    let (text, rest) = text_of(from)?;
    let bytes = text.to_vec(alloc)?;
    Ok((Some(Listed::new(bytes)), rest))
}

#[tactic(auto, unfolding(crate::specs::Reading::value_at))]
fn value_of(alloc: Global, from: Input<'_>) -> Result<(Option<Listed<u8>>, Input<'_>), FieldFault>
    ensures { Reads (λ x. (x.0, unread x.1)) result (value_at (unread from.entry)) }
{
    let (kind, rest) = u8_of(from)?;
    match kind {
        0 => Ok((None, rest)),
        1 => some_text_of(alloc, rest),
        _ => Err(FieldFault::BadKind(kind)),
    }
}

#[tactic(auto, unfolding(crate::specs::Reading::record_at))]
fn record_of(alloc: Global, from: Input<'_>) -> Result<(Applied, Input<'_>), FieldFault>
    ensures { Reads (λ x. (x.0, unread x.1)) result (record_at (unread from.entry)) }
{
    let (offset, rest) = u64_of(from)?;
    let (stamp, rest) = u64_of(rest)?;
    let (text, rest) = text_of(rest)?;
    let key = Listed::new(text.to_vec(alloc)?);
    let (value, rest) = value_of(alloc, rest)?;
    let applied = Applied {
        offset,
        stamp,
        key,
        value,
    };
    Ok((applied, rest))
}

fn many_records_of(
    alloc: Global,
    count: u32,
    from: Input<'_>,
) -> Result<(Vec<Applied>, Input<'_>), FieldFault>
    ensures { Reads (λ x. (x.0.items, unread x.1)) result (many_at record_at count (unread from.entry)) }
{
    let mut records = Vec::new(alloc);
    let mut rest = from;
    for _ in 0..count {
        let (applied, next) = record_of(alloc, rest)?;
        records.push(applied)?;
        rest = next;
    }
    Ok((records, rest))
}

/// Records behind their number.
#[tactic(auto, unfolding(crate::specs::Reading::records_at))]
pub fn records_of(alloc: Global, from: Input<'_>) -> Result<(Vec<Applied>, Input<'_>), FieldFault>
    ensures { Reads (λ x. (x.0.items, unread x.1)) result (records_at (unread from.entry)) }
{
    let (count, rest) = u32_of(from)?;
    if count == 0 {
        return Err(FieldFault::BadKind(0));
    }
    many_records_of(alloc, count, rest)
}
