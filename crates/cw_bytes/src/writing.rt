//! Writing fields.
ghost use Rattle.std.specs.Prelude.{◌≡◌, ◌++◌, OnOk, OnErr};
ghost use Rattle.cw_bytes.specs.Spelling.{text, tid_bytes, tag_bytes, flag_bytes, mark_bytes, part_bytes, span_bytes};
ghost use Rattle.cw_bytes.specs.Spelling.{value_bytes, record_bytes, records_bytes, IsText, IsTid, IsTag, IsMark};
ghost use Rattle.cw_bytes.specs.Spelling.{IsPart, IsSpan, IsRecord, AreRecords};
ghost use Rattle.cw_types.specs.Name.{IsName};

use crate::applied::Applied;
use crate::mark::Mark;
use crate::writer::{SHORT, Writer, add_text, add_u32, add_u64};
use cw_types::{Name, PartKey, Span, Tag, Tid};
use std::alloc::AllocError;

/// Writes a producer's id. What is written fits its field, so it is read again.
pub fn write_tid(into: &mut Writer, tid: &Tid) -> Result<(), AllocError>
    ensures ok { OnOk result (into.new ≡ into.old ++ tid_bytes tid.now) }
    ensures err { OnErr result (into.new ≡ into.old) }
    ensures fits { OnOk result (IsTid tid.now) }
{
    let mut field = Vec::with_capacity(into.alloc(), SHORT)?;
    add_tid(&mut field, tid)?;
    into.put(field.as_slice())
}

/// Writes a transaction.
pub fn write_tag(into: &mut Writer, tag: &Tag) -> Result<(), AllocError>
    ensures ok { OnOk result (into.new ≡ into.old ++ tag_bytes tag.now) }
    ensures err { OnErr result (into.new ≡ into.old) }
    ensures fits { OnOk result (IsTag tag.now) }
{
    let mut field = Vec::with_capacity(into.alloc(), SHORT)?;
    add_tag(&mut field, tag)?;
    into.put(field.as_slice())
}

/// Writes a mark.
pub fn write_mark(into: &mut Writer, mark: &Mark) -> Result<(), AllocError>
    ensures ok { OnOk result (into.new ≡ into.old ++ mark_bytes mark.now) }
    ensures err { OnErr result (into.new ≡ into.old) }
    ensures fits { OnOk result (IsMark mark.now) }
{
    let mut field = Vec::with_capacity(into.alloc(), SHORT)?;
    add_tag(&mut field, &mark.tag)?;
    add_flag(&mut field, mark.committed)?;
    into.put(field.as_slice())
}

/// Writes a part.
pub fn write_part(into: &mut Writer, part: &PartKey) -> Result<(), AllocError>
    ensures ok { OnOk result (into.new ≡ into.old ++ part_bytes part.now) }
    ensures err { OnErr result (into.new ≡ into.old) }
    ensures fits { OnOk result (IsPart part.now) }
{
    let mut field = Vec::with_capacity(into.alloc(), SHORT)?;
    add_part(&mut field, part)?;
    into.put(field.as_slice())
}

/// Writes a span.
pub fn write_span(into: &mut Writer, span: &Span) -> Result<(), AllocError>
    ensures ok { OnOk result (into.new ≡ into.old ++ span_bytes span.now) }
    ensures err { OnErr result (into.new ≡ into.old) }
    ensures fits { OnOk result (IsSpan span.now) }
{
    let mut field = Vec::with_capacity(into.alloc(), SHORT)?;
    add_part(&mut field, &span.part)?;
    add_u64(&mut field, span.from)?;
    add_u64(&mut field, span.to)?;
    into.put(field.as_slice())
}

/// Writes a list of records.
pub fn write_records(into: &mut Writer, records: &[Applied]) -> Result<(), AllocError>
    requires { AreRecords records.now }
    ensures ok { OnOk result (into.new ≡ into.old ++ records_bytes records.now) }
    ensures err { OnErr result (into.new ≡ into.old) }
{
    let mut field = Vec::new(into.alloc());
    add_u32(&mut field, records.len() as u32)?;
    for applied in records {
        add_record(&mut field, applied)?;
    }
    into.put(field.as_slice())
}

fn add_tid(field: &mut Vec<u8>, tid: &Tid) -> Result<(), AllocError>
    ensures ok { OnOk result (field.new.items ≡ field.old.items ++ tid_bytes tid.now) }
    ensures fits { OnOk result (IsTid tid.now) }
{
    match tid {
        Tid::Lead => {
            field.push(1)?;
            Ok(())
        }
        Tid::Task(id) => {
            field.push(2)?;
            add_name(field, &id.connector)?;
            add_u32(field, id.index)
        }
        Tid::Raw(number) => {
            field.push(3)?;
            add_u32(field, *number)
        }
    }
}

fn add_tag(field: &mut Vec<u8>, tag: &Tag) -> Result<(), AllocError>
    ensures ok { OnOk result (field.new.items ≡ field.old.items ++ tag_bytes tag.now) }
    ensures fits { OnOk result (IsTag tag.now) }
{
    add_tid(field, &tag.tid)?;
    add_u64(field, tag.epoch.0)?;
    add_u64(field, tag.number)
}

fn add_flag(field: &mut Vec<u8>, committed: bool) -> Result<(), AllocError>
    ensures { OnOk result (field.new.items ≡ field.old.items ++ flag_bytes committed) }
{
    match committed {
        false => field.push(0)?,
        true => field.push(1)?,
    }
    Ok(())
}

fn add_part(field: &mut Vec<u8>, part: &PartKey) -> Result<(), AllocError>
    ensures ok { OnOk result (field.new.items ≡ field.old.items ++ part_bytes part.now) }
    ensures fits { OnOk result (IsPart part.now) }
{
    match part {
        PartKey::Raw(number) => {
            field.push(1)?;
            add_u32(field, *number)
        }
        PartKey::File { connector, feed } => {
            field.push(2)?;
            add_name(field, connector)?;
            add_name(field, feed)
        }
        PartKey::Seq { connector, index } => {
            field.push(3)?;
            add_name(field, connector)?;
            add_u32(field, *index)
        }
        PartKey::Sink { connector, topic } => {
            field.push(4)?;
            add_name(field, connector)?;
            add_name(field, topic)
        }
    }
}

fn add_name(field: &mut Vec<u8>, name: &Name) -> Result<(), AllocError>
    ensures ok { OnOk result (field.new.items ≡ field.old.items ++ text name.now) }
    ensures fits { IsName name.now }
{
    add_text(field, name.as_bytes())
}

fn add_record(field: &mut Vec<u8>, applied: &Applied) -> Result<(), AllocError>
    requires { IsRecord applied.now }
    ensures { OnOk result (field.new.items ≡ field.old.items ++ record_bytes applied.now) }
{
    add_u64(field, applied.offset)?;
    add_u64(field, applied.stamp)?;
    add_text(field, applied.key.as_slice())?;
    match &applied.value {
        None => {
            field.push(0)?;
            Ok(())
        }
        Some(value) => {
            field.push(1)?;
            add_text(field, value.as_slice())
        }
    }
}
