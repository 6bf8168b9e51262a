//! Bodies of the data log.
ghost use Rattle.std.specs.Prelude.{◌≡◌, ◌≢◌, ◌++◌, Some, None, Err, IfOk, OnOk, MatchResult};
ghost use Rattle.cw_bytes.specs.declared.body.BodyFault.TheVariants.{NotBody, Memory};
ghost use Rattle.cw_bytes.specs.Reading.{Reads, name_at, text_at, many_at, body_at};
ghost use Rattle.cw_types.specs.Name.{IsName};
ghost use Rattle.cw_bytes.specs.Spelling.{text, tag_bytes, flag_bytes, span_bytes};
ghost use Rattle.cw_data.specs.declared.entry.DataEntry.{DataEntry};
ghost use Rattle.cw_data.specs.Body.{span_of, values_bytes, entry_bytes, AreValues, IsEntry, IsShort};
ghost use Rattle.cw_data.specs.BodyReading.{values_at, stored_at, marked_at, entry_at};

use crate::entry::{Batch, DataEntry};
use cw_bytes::{
    BodyFault, FieldFault, Mark, Reader, Writer, read_mark, read_span, read_tag, write_part,
    write_tag,
};
use cw_types::{Listed, Name, NameFault, Span};
use std::alloc::{AllocError, Global};

#[tactic(auto, unfolding(cw_bytes::specs::Reading::name_at))]
fn read_name(alloc: Global, from: &mut Reader<'_>) -> Result<Name, FieldFault>
    ensures { Reads (λ name. (name, from.new)) result (name_at from.old) }
{
    let place = from.place();
    let text = from.take_text()?;
    match Name::read(alloc, text) {
        Ok(name) => Ok(name),
        Err(NameFault::Empty) => Err(FieldFault::BadName(place)),
        Err(NameFault::TooLong) => Err(FieldFault::BadName(place)),
        Err(NameFault::BadByte(_)) => Err(FieldFault::BadName(place)),
        Err(NameFault::Memory) => Err(FieldFault::Memory),
    }
}

fn read_value(alloc: Global, from: &mut Reader<'_>) -> Result<Listed<u8>, FieldFault>
    ensures { Reads (λ value. (value, from.new)) result (text_at from.old) }
{
    let text = from.take_text()?;
    Ok(Listed::new(text.to_vec(alloc)?))
}

fn read_many_values(
    alloc: Global,
    count: u32,
    from: &mut Reader<'_>,
) -> Result<Vec<Listed<u8>>, FieldFault>
    ensures { Reads (λ values. (values.items, from.new)) result (many_at text_at count from.old) }
{
    let mut values = Vec::new(alloc);
    for _ in 0..count {
        let value = read_value(alloc, from)?;
        values.push(value)?;
    }
    Ok(values)
}

#[tactic(auto, unfolding(crate::specs::BodyReading::values_at))]
fn read_values(alloc: Global, from: &mut Reader<'_>) -> Result<Listed<Listed<u8>>, FieldFault>
    ensures { Reads (λ values. (values, from.new)) result (values_at from.old) }
{
    let count = from.take_u32()?;
    let values = read_many_values(alloc, count, from)?;
    Ok(Listed::new(values))
}

#[tactic(auto, unfolding(crate::specs::BodyReading::stored_at, crate::specs::BodyReading::named_at))]
fn read_stored(alloc: Global, from: &mut Reader<'_>) -> Result<DataEntry, FieldFault>
    ensures { Reads (λ entry. (entry, from.new)) result (stored_at from.old) }
{
    let tag = read_tag(alloc, from)?;
    let topic = read_name(alloc, from)?;
    let span = read_span(alloc, from)?;
    let values = read_values(alloc, from)?;
    let Span {
        part,
        from: start,
        to,
    } = span;
    Ok(DataEntry::Batch(Batch {
        tag,
        topic,
        part,
        from: start,
        to,
        values,
    }))
}

#[tactic(auto, unfolding(crate::specs::BodyReading::marked_at))]
fn read_marked(alloc: Global, from: &mut Reader<'_>) -> Result<DataEntry, FieldFault>
    ensures { Reads (λ entry. (entry, from.new)) result (marked_at from.old) }
{
    let Mark { tag, committed } = read_mark(alloc, from)?;
    Ok(DataEntry::Mark { tag, committed })
}

#[tactic(auto, unfolding(crate::specs::BodyReading::entry_at))]
fn read_entry(alloc: Global, from: &mut Reader<'_>) -> Result<DataEntry, FieldFault>
    ensures { Reads (λ entry. (entry, from.new)) result (entry_at from.old) }
{
    let kind = from.take_u8()?;
    match kind {
        1 => read_stored(alloc, from),
        2 => read_marked(alloc, from),
        _ => Err(FieldFault::BadKind(kind)),
    }
}

// The entry of a body.
fn read_body(alloc: Global, body: &[u8]) -> Result<DataEntry, BodyFault>
    ensures { MatchResult result (λ entry. body_at entry_at body.now ≡ Some entry) (λ fault. fault ≢ Memory →
        body_at entry_at body.now ≡ None) }
{
    let mut from = Reader::new(body);
    match read_entry(alloc, &mut from) {
        Ok(entry) => {
            if from.is_empty() {
                Ok(entry)
            } else {
                Err(BodyFault::NotBody)
            }
        }
        Err(FieldFault::Memory) => Err(BodyFault::Memory),
        Err(FieldFault::Short(_)) => Err(BodyFault::NotBody),
        Err(FieldFault::BadKind(_)) => Err(BodyFault::NotBody),
        Err(FieldFault::BadName(_)) => Err(BodyFault::NotBody),
    }
}

/// Reads the entry of a body. NotBody comes exactly where it isn't the bytes of any entry.
pub fn read_data(alloc: Global, body: &[u8]) -> Result<DataEntry, BodyFault>
    // What is read is spelled so, to the last byte.
    ensures found { IfOk result (λ entry. IsEntry entry × (body.now ≡ entry_bytes entry)) }
    // What is spelled so is read.
    ensures only { (entry : DataEntry) → IsEntry entry → body.now ≡ entry_bytes entry →
        IfOk result (λ read. read ≡ entry) }
    ensures refused { (entry : DataEntry) → IsEntry entry → body.now ≡ entry_bytes entry → result ≢ Err NotBody }
{
    read_body(alloc, body)
}

/// Writes a body of an entry. It is read again from it.
pub fn write_data(alloc: Global, entry: &DataEntry) -> Result<Vec<u8>, AllocError>
    requires { IsShort entry.now }
    ensures bytes { IfOk result (λ bytes. bytes.items ≡ entry_bytes entry.now) }
    ensures fits { IfOk result (λ bytes. IsEntry entry.now) }
{
    let mut into = Writer::new(alloc);
    write_entry(&mut into, entry)?;
    Ok(into.into_bytes())
}

fn write_entry(into: &mut Writer, entry: &DataEntry) -> Result<(), AllocError>
    requires { IsShort entry.now }
    ensures ok { OnOk result (into.new ≡ into.old ++ entry_bytes entry.now) }
    ensures fits { OnOk result (IsEntry entry.now) }
{
    match entry {
        DataEntry::Batch(batch) => {
            into.put_u8(1)?;
            write_batch(into, batch)
        }
        DataEntry::Mark { tag, committed } => {
            into.put_u8(2)?;
            write_tag(into, tag)?;
            write_flag(into, *committed)
        }
    }
}

fn write_batch(into: &mut Writer, batch: &Batch) -> Result<(), AllocError>
    requires { IsShort (DataEntry.Batch batch.now) }
    ensures ok { OnOk result (into.new ≡ into.old ++ (tag_bytes batch.now.tag
        ++ (text batch.now.topic ++ (span_bytes (span_of batch.now) ++ values_bytes batch.now.values)))) }
    ensures fits { OnOk result (IsEntry (DataEntry.Batch batch.now)) }
{
    write_tag(into, &batch.tag)?;
    write_name(into, &batch.topic)?;
    write_part(into, &batch.part)?;
    into.put_u64(batch.from)?;
    into.put_u64(batch.to)?;
    write_values(into, batch.values.as_slice())
}

fn write_name(into: &mut Writer, name: &Name) -> Result<(), AllocError>
    ensures ok { OnOk result (into.new ≡ into.old ++ text name.now) }
    ensures fits { IsName name.now }
{
    into.put_text(name.as_bytes())
}

fn write_flag(into: &mut Writer, flag: bool) -> Result<(), AllocError>
    ensures { OnOk result (into.new ≡ into.old ++ flag_bytes flag) }
{
    if flag { into.put_u8(1) } else { into.put_u8(0) }
}

fn write_values(into: &mut Writer, values: &[Listed<u8>]) -> Result<(), AllocError>
    requires { AreValues values.now }
    ensures { OnOk result (into.new ≡ into.old ++ values_bytes values.now) }
{
    into.put_u32(values.len() as u32)?;
    for value in values {
        into.put_text(value.as_slice())?;
    }
    Ok(())
}
