//! Bodies of the offset log.
ghost use Rattle.std.specs.Prelude.{◌≡◌, ◌≢◌, ◌++◌, Some, None, Err, IfOk, OnOk, MatchResult};
ghost use Rattle.cw_bytes.specs.declared.body.BodyFault.TheVariants.{NotBody, Memory};
ghost use Rattle.cw_bytes.specs.Reading.{Reads, body_at};
ghost use Rattle.cw_offset.specs.declared.body.OffsetEntry.{OffsetEntry};
ghost use Rattle.cw_offset.specs.Body.{entry_bytes, IsEntry, HasRecords};
ghost use Rattle.cw_offset.specs.BodyReading.{stored_at, marked_at, entry_at};

use cw_bytes::{
    Applied, BodyFault, FieldFault, Mark, Reader, Writer, read_mark, read_records, read_tag,
    write_mark, write_records, write_tag,
};
use cw_types::{Listed, Tag};
use std::alloc::{AllocError, Global};

/// An entry of the offset log.
#[derive(Debug, Drop)]
pub enum OffsetEntry {
    /// Offset records that were stored in one transaction.
    Records {
        /// The transaction.
        tag: Tag,
        /// The records, the oldest first.
        records: Listed<Applied>,
    },
    /// How a transaction ended.
    Mark(Mark),
}

#[tactic(auto, unfolding(crate::specs::BodyReading::stored_at))]
fn read_stored(alloc: Global, from: &mut Reader<'_>) -> Result<OffsetEntry, FieldFault>
    ensures { Reads (λ entry. (entry, from.new)) result (stored_at from.old) }
{
    let tag = read_tag(alloc, from)?;
    let records = read_records(alloc, from)?;
    Ok(OffsetEntry::Records {
        tag,
        records: Listed::new(records),
    })
}

#[tactic(auto, unfolding(crate::specs::BodyReading::marked_at))]
fn read_marked(alloc: Global, from: &mut Reader<'_>) -> Result<OffsetEntry, FieldFault>
    ensures { Reads (λ entry. (entry, from.new)) result (marked_at from.old) }
{
    let mark = read_mark(alloc, from)?;
    Ok(OffsetEntry::Mark(mark))
}

#[tactic(auto, unfolding(crate::specs::BodyReading::entry_at))]
fn read_entry(alloc: Global, from: &mut Reader<'_>) -> Result<OffsetEntry, FieldFault>
    ensures { Reads (λ entry. (entry, from.new)) result (entry_at from.old) }
{
    let kind = from.take_u8()?;
    match kind {
        1 => read_stored(alloc, from),
        2 => read_marked(alloc, from),
        _ => Err(FieldFault::BadKind(kind)),
    }
}

// The entry of a body.
fn read_body(alloc: Global, body: &[u8]) -> Result<OffsetEntry, BodyFault>
    ensures { MatchResult result (λ entry. body_at entry_at body.now ≡ Some entry) (λ fault. fault ≢ Memory →
        body_at entry_at body.now ≡ None) }
{
    let mut from = Reader::new(body);
    match read_entry(alloc, &mut from) {
        Ok(entry) => {
            if from.is_empty() {
                Ok(entry)
            } else {
                Err(BodyFault::NotBody)
            }
        }
        Err(FieldFault::Memory) => Err(BodyFault::Memory),
        Err(FieldFault::Short(_)) => Err(BodyFault::NotBody),
        Err(FieldFault::BadKind(_)) => Err(BodyFault::NotBody),
        Err(FieldFault::BadName(_)) => Err(BodyFault::NotBody),
    }
}

/// Reads the entry of a body. NotBody comes exactly where it isn't the bytes of any entry.
pub fn read_offsets(alloc: Global, body: &[u8]) -> Result<OffsetEntry, BodyFault>
    // What is read is spelled so, to the last byte.
    ensures found { IfOk result (λ entry. IsEntry entry × (body.now ≡ entry_bytes entry)) }
    // What is spelled so is read.
    ensures only { (entry : OffsetEntry) → IsEntry entry → body.now ≡ entry_bytes entry →
        IfOk result (λ read. read ≡ entry) }
    ensures refused { (entry : OffsetEntry) → IsEntry entry → body.now ≡ entry_bytes entry → result ≢ Err NotBody }
{
    read_body(alloc, body)
}

/// Writes a body of an entry. It is read again from it.
pub fn write_offsets(alloc: Global, entry: &OffsetEntry) -> Result<Vec<u8>, AllocError>
    requires { HasRecords entry.now }
    ensures bytes { IfOk result (λ bytes. bytes.items ≡ entry_bytes entry.now) }
    ensures fits { IfOk result (λ bytes. IsEntry entry.now) }
{
    let mut into = Writer::new(alloc);
    write_entry(&mut into, entry)?;
    Ok(into.into_bytes())
}

fn write_entry(into: &mut Writer, entry: &OffsetEntry) -> Result<(), AllocError>
    requires { HasRecords entry.now }
    ensures ok { OnOk result (into.new ≡ into.old ++ entry_bytes entry.now) }
    ensures fits { OnOk result (IsEntry entry.now) }
{
    match entry {
        OffsetEntry::Records { tag, records } => {
            into.put_u8(1)?;
            write_tag(into, tag)?;
            write_records(into, records.as_slice())
        }
        OffsetEntry::Mark(mark) => {
            into.put_u8(2)?;
            write_mark(into, mark)
        }
    }
}
