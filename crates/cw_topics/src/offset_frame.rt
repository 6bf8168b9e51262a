//! A frame of the offset log, and what is told of it.
ghost use Rattle.std.specs.Prelude.{◌≡◌, ◌++◌, ◌∷◌, [], length, ◌≤◌, option_map, option_and_then, IfOk, OnOk};
ghost use Rattle.std.specs.List.{filter_map};
ghost use Rattle.cw_keys.specs.Parts.{part_of};
ghost use Rattle.cw_keys.specs.Offsets.{offset_of};
ghost use Rattle.cw_offset.specs.Body.{HasRecords, entry_bytes};
ghost use Rattle.cw_offset.specs.Replay.{put_in, told_in};
ghost use Rattle.cw_offset.specs.declared.call.OffsetCall.TheVariants as call;
ghost use Rattle.cw_offset.specs.declared.body.OffsetEntry.TheVariants as entry;

use cw_bytes::{Applied, Mark};
use cw_compact::{copy_offset, one_frame};
use cw_keys::{KeyFault, read_offset, read_part};
use cw_offset::{OffsetCall, OffsetEntry, write_offsets};
use cw_types::{Listed, PartKey, Tag};
use std::alloc::{AllocError, Global};
use std::collections::LinkedList;
use std::marker::Model;

/// A frame of the offset log: its entry, the list of a copy of it, which is hung to the log's frames, its bytes, and
/// the calls that tell of it. Clauses see its entry.
#[derive(Drop)]
pub struct OffsetFrame {
    entry: OffsetEntry,
    list: LinkedList<OffsetEntry>,
    calls: Vec<OffsetCall>,
    body: Vec<u8>,
}

impl Model for OffsetFrame {
    ghost use Rattle.cw_offset.specs.declared.body.OffsetEntry.{OffsetEntry};
    ghost use Rattle.cw_topics.specs.Offsets.{IsFrame};

    ghost Value = { OffsetEntry };

    ghost view = { λ f. f.entry };

    ghost invariant = { λ f. IsFrame f.entry f.list f.body.items f.calls.items };
}

impl OffsetFrame {
    /// The frame of an entry.
    pub(crate) fn new(alloc: Global, entry: OffsetEntry) -> Result<OffsetFrame, AllocError>
        requires { HasRecords entry }
        ensures { IfOk result (λ frame. frame ≡ entry) }
    {
        let body = write_offsets(alloc, &entry)?;
        let calls = calls_of(alloc, &entry)?;
        let list = one_frame(alloc, copy_offset(alloc, &entry)?)?;
        Ok(OffsetFrame {
            entry,
            list,
            calls,
            body,
        })
    }

    /// Its bytes.
    pub fn body(&self) -> &[u8]
        ensures bytes { result.now ≡ entry_bytes self.now }
        ensures some { 1 ≤ length result.now }
    {
        self.body.as_slice()
    }

    /// The calls that tell of it.
    pub(crate) fn calls(&self) -> &[OffsetCall]
        ensures { result.now ≡ told_in self.now }
    {
        self.calls.as_slice()
    }

    /// Its entry, the list that is hung to the log's frames, and the calls that tell of it, once its bytes stand in the
    /// log.
    pub(crate) fn into_parts(self) -> (OffsetEntry, LinkedList<OffsetEntry>, Vec<OffsetCall>)
        ensures entry { result.0 ≡ self }
        ensures list { result.1 ≡ self ∷ [] }
        ensures calls { result.2.items ≡ told_in self }
    {
        (self.entry, self.list, self.calls)
    }
}

// The calls that tell of an entry.
fn calls_of(alloc: Global, entry: &OffsetEntry) -> Result<Vec<OffsetCall>, AllocError>
    ensures { IfOk result (λ calls. calls.items ≡ told_in entry.now) }
{
    match entry {
        OffsetEntry::Records { tag, records } => calls_of_records(alloc, tag, records.as_slice()),
        OffsetEntry::Mark(mark) => call_of_mark(alloc, mark),
    }
}

// The calls that tell of records of a transaction.
fn calls_of_records(
    alloc: Global,
    tag: &Tag,
    records: &[Applied],
) -> Result<Vec<OffsetCall>, AllocError>
    ensures { IfOk result (λ calls. calls.items ≡ told_in (entry.Records tag.now records.now)) }
{
    let mut calls = Vec::new(alloc);
    calls.push(OffsetCall::Stand(tag.copy()?))?;
    push_puts(alloc, &mut calls, tag, records)?;
    Ok(calls)
}

// The call that tells of a marker.
fn call_of_mark(alloc: Global, mark: &Mark) -> Result<Vec<OffsetCall>, AllocError>
    ensures { IfOk result (λ calls. calls.items ≡ told_in (entry.Mark mark.now)) }
{
    let mut calls = Vec::new(alloc);
    let tag = mark.tag.copy()?;
    if mark.committed {
        calls.push(OffsetCall::Commit(tag))?;
        Ok(calls)
    } else {
        calls.push(OffsetCall::Abort(tag))?;
        Ok(calls)
    }
}

/// The puts of records behind other calls.
pub(crate) fn push_puts(
    alloc: Global,
    calls: &mut Vec<OffsetCall>,
    tag: &Tag,
    records: &[Applied],
) -> Result<(), AllocError>
    ensures { OnOk result (calls.new.items ≡ calls.old.items ++ filter_map (put_in tag.now) records.now) }
{
    for record in records {
        push_put(alloc, calls, tag, record)?;
    }
    Ok(())
}

// The put of a record behind other calls, if it is one.
fn push_put(
    alloc: Global,
    calls: &mut Vec<OffsetCall>,
    tag: &Tag,
    record: &Applied,
) -> Result<(), AllocError>
    ensures { OnOk result (calls.new.items ≡ calls.old.items ++ filter_map (put_in tag.now) (record.now ∷ [])) }
{
    match put_of(alloc, tag, record)? {
        Some(put) => {
            calls.push(put)?;
            Ok(())
        }
        None => Ok(()),
    }
}

// The put of a record, where its key is that of a part and its value an offset of it.
fn put_of(alloc: Global, tag: &Tag, record: &Applied) -> Result<Option<OffsetCall>, AllocError>
    ensures { IfOk result (λ put. put ≡ put_in tag.now record.now) }
{
    match part_of(alloc, record.key.as_slice())? {
        Some(part) => put_of_part(alloc, tag, part, &record.value),
        None => Ok(None),
    }
}

// The put of a part by a value that may be an offset of it.
fn put_of_part(
    alloc: Global,
    tag: &Tag,
    part: PartKey,
    value: &Option<Listed<u8>>,
) -> Result<Option<OffsetCall>, AllocError>
    ensures { IfOk result (λ put. put ≡
        option_map (call.Put tag.now part) (option_and_then (offset_of part) value.now)) }
{
    match offset_in(alloc, &part, value)? {
        Some(to) => Ok(Some(OffsetCall::Put {
            tag: tag.copy()?,
            part,
            to,
        })),
        None => Ok(None),
    }
}

// The part that a key names.
fn part_of(alloc: Global, key: &[u8]) -> Result<Option<PartKey>, AllocError>
    ensures { IfOk result (λ part. part ≡ part_of key.now) }
{
    match read_part(alloc, key) {
        Ok(part) => Ok(Some(part)),
        Err(KeyFault::Memory) => Err(AllocError),
        Err(KeyFault::BadKey) => Ok(None),
        Err(KeyFault::BadValue) => Ok(None),
    }
}

// The offset of a part that a record's value tells.
fn offset_in(
    alloc: Global,
    part: &PartKey,
    value: &Option<Listed<u8>>,
) -> Result<Option<u64>, AllocError>
    ensures { IfOk result (λ to. to ≡ option_and_then (offset_of part.now) value.now) }
{
    match value {
        Some(value) => offset_of(alloc, part, value.as_slice()),
        None => Ok(None),
    }
}

// The offset of a part that bytes tell.
fn offset_of(alloc: Global, part: &PartKey, value: &[u8]) -> Result<Option<u64>, AllocError>
    ensures { IfOk result (λ to. to ≡ offset_of part.now value.now) }
{
    match read_offset(alloc, part, value) {
        Ok(to) => Ok(Some(to)),
        Err(KeyFault::Memory) => Err(AllocError),
        Err(KeyFault::BadKey) => Ok(None),
        Err(KeyFault::BadValue) => Ok(None),
    }
}
