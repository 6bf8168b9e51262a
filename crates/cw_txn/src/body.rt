//! Bodies of the transaction log.
ghost use Rattle.std.specs.Prelude.{◌≡◌, ◌≢◌, ◌++◌, List, length, Some, None, Ok, Err, IfOk, OnOk, MatchResult, ◌<◌};
ghost use Rattle.std.specs.Prelude.{◌^◌};
ghost use Rattle.cw_bytes.specs.Reading.{Reads, many_at, span_at};
ghost use Rattle.cw_txn.specs.declared.entry.Entry.{Entry};
ghost use Rattle.cw_txn.specs.declared.body.BodyFault.{BodyFault};
ghost use Rattle.cw_txn.specs.Body.{entries_bytes, entry_bytes, set_bytes, list_bytes, IsEntry, IsSet, IsList};
ghost use Rattle.cw_txn.specs.Body.{AreEntries, AreShort, IsShort};
ghost use Rattle.cw_bytes.specs.Spelling.{span_bytes, IsSpan};
ghost use Rattle.cw_txn.specs.BodyReading.{some_offset_at, offset_at, set_at, list_at, spans_at, sets_at, bump_at};
ghost use Rattle.cw_txn.specs.BodyReading.{commit_at, set_entry_at, entry_at, count_at, entries_at, body_at};

use crate::entry::{Entry, SetOffset};
use cw_bytes::{
    FieldFault, Reader, Writer, read_part, read_span, read_tag, read_tid, write_part, write_span,
    write_tag, write_tid,
};
use cw_types::{Epoch, Listed, Span};
use std::alloc::{AllocError, Global};
use thiserror::Error;

// For so many elements room is made before they are read, so that a short list takes no more than it needs.
const MOST_AT_ONCE: u32 = 16;

/// Why a body has no entries.
#[derive(Clone, Copy, Debug, PartialEq, Eq, Drop, Error)]
pub enum BodyFault {
    /// It isn't the bytes of any entries.
    #[error("the bytes are no entries")]
    NotEntries,
    /// Want of memory.
    #[error("out of memory")]
    Memory,
}

impl From<FieldFault> for BodyFault {
    ghost use Rattle.std.specs.Prelude.{◌≡◌};
    ghost use Rattle.cw_txn.specs.Body.{body_fault};

    ghost from_gives = { λ field fault. fault ≡ body_fault field };

    fn from(fault: FieldFault) -> Self {
        match fault {
            FieldFault::Memory => BodyFault::Memory,
            FieldFault::Short(_) => BodyFault::NotEntries,
            FieldFault::BadKind(_) => BodyFault::NotEntries,
            FieldFault::BadName(_) => BodyFault::NotEntries,
        }
    }
}

#[tactic(auto, unfolding(crate::specs::BodyReading::some_offset_at))]
fn read_some_offset(from: &mut Reader<'_>) -> Result<Option<u64>, FieldFault>
    ensures { Reads (λ to. (to, from.new)) result (some_offset_at from.old) }
{
    Ok(Some(from.take_u64()?))
}

#[tactic(auto, unfolding(crate::specs::BodyReading::offset_at))]
fn read_offset(from: &mut Reader<'_>) -> Result<Option<u64>, FieldFault>
    ensures { Reads (λ to. (to, from.new)) result (offset_at from.old) }
{
    let kind = from.take_u8()?;
    match kind {
        0 => Ok(None),
        1 => read_some_offset(from),
        _ => Err(FieldFault::BadKind(kind)),
    }
}

#[tactic(auto, unfolding(crate::specs::BodyReading::set_at))]
fn read_set(alloc: Global, from: &mut Reader<'_>) -> Result<SetOffset, FieldFault>
    ensures { Reads (λ set. (set, from.new)) result (set_at from.old) }
{
    let part = read_part(alloc, from)?;
    let to = read_offset(from)?;
    Ok(SetOffset { part, to })
}

fn read_many_spans(
    alloc: Global,
    count: u32,
    from: &mut Reader<'_>,
) -> Result<Vec<Span>, FieldFault>
    ensures { Reads (λ spans. (spans.items, from.new)) result (many_at span_at count from.old) }
{
    let mut spans = Vec::with_capacity(alloc, count.min(MOST_AT_ONCE) as usize)?;
    for _ in 0..count {
        let span = read_span(alloc, from)?;
        spans.push(span)?;
    }
    Ok(spans)
}

fn read_many_sets(
    alloc: Global,
    count: u32,
    from: &mut Reader<'_>,
) -> Result<Vec<SetOffset>, FieldFault>
    ensures { Reads (λ list. (list.items, from.new)) result (many_at set_at count from.old) }
{
    let mut list = Vec::new(alloc);
    for _ in 0..count {
        let set = read_set(alloc, from)?;
        list.push(set)?;
    }
    Ok(list)
}

fn read_many_entries(
    alloc: Global,
    count: u32,
    from: &mut Reader<'_>,
) -> Result<Vec<Entry>, FieldFault>
    ensures { Reads (λ entries. (entries.items, from.new)) result (many_at entry_at count from.old) }
{
    let mut entries = Vec::with_capacity(alloc, count.min(MOST_AT_ONCE) as usize)?;
    for _ in 0..count {
        let entry = read_entry(alloc, from)?;
        entries.push(entry)?;
    }
    Ok(entries)
}

#[tactic(auto, unfolding(crate::specs::BodyReading::list_at))]
fn read_spans(alloc: Global, from: &mut Reader<'_>) -> Result<Listed<Span>, FieldFault>
    ensures { Reads (λ spans. (spans, from.new)) result (list_at span_at from.old) }
{
    let count = from.take_u32()?;
    let spans = read_many_spans(alloc, count, from)?;
    Ok(Listed::new(spans))
}

#[tactic(auto, unfolding(crate::specs::BodyReading::list_at))]
fn read_sets(alloc: Global, from: &mut Reader<'_>) -> Result<Listed<SetOffset>, FieldFault>
    ensures { Reads (λ list. (list, from.new)) result (list_at set_at from.old) }
{
    let count = from.take_u32()?;
    let list = read_many_sets(alloc, count, from)?;
    Ok(Listed::new(list))
}

#[tactic(auto, unfolding(crate::specs::BodyReading::bump_at))]
fn read_bump(alloc: Global, from: &mut Reader<'_>) -> Result<Entry, FieldFault>
    ensures { Reads (λ entry. (entry, from.new)) result (bump_at from.old) }
{
    let tid = read_tid(alloc, from)?;
    Ok(Entry::Bump(tid))
}

#[tactic(auto, unfolding(crate::specs::BodyReading::commit_at, crate::specs::BodyReading::spans_at))]
fn read_commit(alloc: Global, from: &mut Reader<'_>) -> Result<Entry, FieldFault>
    ensures { Reads (λ entry. (entry, from.new)) result (commit_at from.old) }
{
    let tag = read_tag(alloc, from)?;
    let generation = from.take_u64()?;
    let spans = read_spans(alloc, from)?;
    Ok(Entry::Commit {
        tag,
        generation,
        spans,
    })
}

#[tactic(auto, unfolding(crate::specs::BodyReading::set_entry_at, crate::specs::BodyReading::sets_at))]
fn read_set_entry(alloc: Global, from: &mut Reader<'_>) -> Result<Entry, FieldFault>
    ensures { Reads (λ entry. (entry, from.new)) result (set_entry_at from.old) }
{
    let tid = read_tid(alloc, from)?;
    let epoch = Epoch(from.take_u64()?);
    let list = read_sets(alloc, from)?;
    Ok(Entry::Set { tid, epoch, list })
}

/// An entry at the front of what is left.
#[tactic(auto, unfolding(crate::specs::BodyReading::entry_at))]
pub fn read_entry(alloc: Global, from: &mut Reader<'_>) -> Result<Entry, FieldFault>
    ensures { Reads (λ entry. (entry, from.new)) result (entry_at from.old) }
{
    let kind = from.take_u8()?;
    match kind {
        1 => read_bump(alloc, from),
        2 => read_commit(alloc, from),
        3 => read_set_entry(alloc, from),
        _ => Err(FieldFault::BadKind(kind)),
    }
}

/// How many entries a body has, which are some.
#[tactic(auto, unfolding(crate::specs::BodyReading::count_at))]
pub fn read_count(from: &mut Reader<'_>) -> Result<u32, FieldFault>
    ensures { Reads (λ count. (count, from.new)) result (count_at from.old) }
{
    let count = from.take_u32()?;
    if count == 0 {
        return Err(FieldFault::BadKind(0));
    }
    Ok(count)
}

#[tactic(auto, unfolding(crate::specs::BodyReading::entries_at))]
fn read_all(alloc: Global, from: &mut Reader<'_>) -> Result<Vec<Entry>, FieldFault>
    ensures { Reads (λ entries. (entries.items, from.new)) result (entries_at from.old) }
{
    let count = read_count(from)?;
    read_many_entries(alloc, count, from)
}

// The entries of a body.
fn read_body(alloc: Global, body: &[u8]) -> Result<Vec<Entry>, BodyFault>
    ensures { MatchResult result (λ entries. body_at body.now ≡ Some entries.items)
        (λ fault. fault ≢ BodyFault.Memory → body_at body.now ≡ None) }
{
    let mut from = Reader::new(body);
    let entries = read_all(alloc, &mut from)?;
    if !from.is_empty() {
        return Err(BodyFault::NotEntries);
    }
    Ok(entries)
}

/// Reads the entries of a body. NotEntries comes exactly where it isn't the bytes of any entries.
pub fn read_entries(alloc: Global, body: &[u8]) -> Result<Vec<Entry>, BodyFault>
    // What is read is spelled so, to the last byte.
    ensures found { IfOk result (λ entries. AreEntries entries.items × (body.now ≡ entries_bytes entries.items)) }
    // What is spelled so is read.
    ensures only { (entries : List Entry) → AreEntries entries → body.now ≡ entries_bytes entries →
        IfOk result (λ read. read.items ≡ entries) }
    ensures refused { (entries : List Entry) → AreEntries entries → body.now ≡ entries_bytes entries →
        result ≢ Err BodyFault.NotEntries }
{
    read_body(alloc, body)
}

/// Writes a body of entries. They are read again from it.
pub fn write_entries(alloc: Global, entries: &[Entry]) -> Result<Vec<u8>, AllocError>
    requires { AreShort entries.now }
    ensures bytes { IfOk result (λ bytes. bytes.items ≡ entries_bytes entries.now) }
    ensures fits { IfOk result (λ bytes. AreEntries entries.now) }
{
    let mut into = Writer::new(alloc);
    into.put_u32(entries.len() as u32)?;
    for entry in entries {
        write_entry(&mut into, entry)?;
    }
    Ok(into.into_bytes())
}

fn write_entry(into: &mut Writer, entry: &Entry) -> Result<(), AllocError>
    requires { IsShort entry.now }
    ensures ok { OnOk result (into.new ≡ into.old ++ entry_bytes entry.now) }
    ensures fits { OnOk result (IsEntry entry.now) }
{
    match entry {
        Entry::Bump(tid) => {
            into.put_u8(1)?;
            write_tid(into, tid)?;
            Ok(())
        }
        Entry::Commit {
            tag,
            generation,
            spans,
        } => {
            into.put_u8(2)?;
            write_tag(into, tag)?;
            into.put_u64(*generation)?;
            write_spans(into, spans.as_slice())?;
            Ok(())
        }
        Entry::Set { tid, epoch, list } => {
            into.put_u8(3)?;
            write_tid(into, tid)?;
            into.put_u64(epoch.0)?;
            write_sets(into, list.as_slice())?;
            Ok(())
        }
    }
}

fn write_spans(into: &mut Writer, spans: &[Span]) -> Result<(), AllocError>
    requires { length spans.now < 2 ^ 32 }
    ensures ok { OnOk result (into.new ≡ into.old ++ list_bytes span_bytes spans.now) }
    ensures fits { OnOk result (IsList IsSpan spans.now) }
{
    into.put_u32(spans.len() as u32)?;
    for span in spans {
        write_span(into, span)?;
    }
    Ok(())
}

fn write_sets(into: &mut Writer, list: &[SetOffset]) -> Result<(), AllocError>
    requires { length list.now < 2 ^ 32 }
    ensures ok { OnOk result (into.new ≡ into.old ++ list_bytes set_bytes list.now) }
    ensures fits { OnOk result (IsList IsSet list.now) }
{
    into.put_u32(list.len() as u32)?;
    for set in list {
        write_set(into, set)?;
    }
    Ok(())
}

fn write_set(into: &mut Writer, set: &SetOffset) -> Result<(), AllocError>
    ensures ok { OnOk result (into.new ≡ into.old ++ set_bytes set.now) }
    ensures fits { OnOk result (IsSet set.now) }
{
    write_part(into, &set.part)?;
    match set.to {
        None => into.put_u8(0),
        Some(to) => {
            into.put_u8(1)?;
            into.put_u64(to)
        }
    }
}
