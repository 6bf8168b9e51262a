//! Fields of bodies.

use crate::answer::Answer;
use crate::fault::Fault;
use crate::fields::Fields;
use cw_bytes::{
    Applied, FieldFault, Reader, Writer, read_mark, read_part, read_records, read_span, read_tag,
    read_tid, write_mark, write_part, write_records, write_span, write_tag, write_tid,
};
use std::alloc::Global;

/// `field KIND BYTES`: the value, where the reader stands behind it, and how the value is written; or the
/// fault.
pub fn read(alloc: Global, fields: &mut Fields<'_>, answer: &mut Answer) -> Result<(), Fault> {
    let kind = fields.word()?;
    let bytes = fields.text(alloc)?;
    match kind {
        "u8" => byte(alloc, &bytes, answer),
        "u32" => word(alloc, &bytes, answer),
        "u64" => long(alloc, &bytes, answer),
        "text" => text(alloc, &bytes, answer),
        "tid" => tid(alloc, &bytes, answer),
        "tag" => tag(alloc, &bytes, answer),
        "mark" => mark(alloc, &bytes, answer),
        "part" => part(alloc, &bytes, answer),
        "span" => span(alloc, &bytes, answer),
        "records" => records(alloc, &bytes, answer),
        _ => Err(Fault::NoCall),
    }
}

// Where the reader stands, and what was written.
fn say_end(place: usize, into: Writer, answer: &mut Answer) -> Result<(), Fault> {
    answer.count(place)?;
    answer.text(&into.into_bytes())
}

fn say_fault(fault: FieldFault, answer: &mut Answer) -> Result<(), Fault> {
    match fault {
        FieldFault::Short(at) => say_place("Short", at, answer),
        FieldFault::BadName(at) => say_place("BadName", at, answer),
        FieldFault::BadKind(byte) => {
            answer.word("BadKind")?;
            answer.long(u64::from(byte))
        }
        FieldFault::Memory => Err(Fault::Memory),
    }
}

fn say_place(word: &str, at: usize, answer: &mut Answer) -> Result<(), Fault> {
    answer.word(word)?;
    answer.count(at)
}

/// Says records.
pub fn say_records(records: &[Applied], answer: &mut Answer) -> Result<(), Fault> {
    answer.count(records.len())?;
    for record in records {
        answer.long(record.offset)?;
        answer.long(record.stamp)?;
        answer.text(record.key.as_slice())?;
        answer.some_text(record.value.as_ref().map(|value| value.as_slice()))?;
    }
    Ok(())
}

fn byte(alloc: Global, bytes: &[u8], answer: &mut Answer) -> Result<(), Fault> {
    let mut from = Reader::new(bytes);
    match from.take_u8() {
        Ok(byte) => {
            answer.long(u64::from(byte))?;
            let mut into = Writer::new(alloc);
            into.put_u8(byte)?;
            say_end(from.place(), into, answer)
        }
        Err(fault) => say_fault(fault, answer),
    }
}

fn word(alloc: Global, bytes: &[u8], answer: &mut Answer) -> Result<(), Fault> {
    let mut from = Reader::new(bytes);
    match from.take_u32() {
        Ok(word) => {
            answer.long(u64::from(word))?;
            let mut into = Writer::new(alloc);
            into.put_u32(word)?;
            say_end(from.place(), into, answer)
        }
        Err(fault) => say_fault(fault, answer),
    }
}

fn long(alloc: Global, bytes: &[u8], answer: &mut Answer) -> Result<(), Fault> {
    let mut from = Reader::new(bytes);
    match from.take_u64() {
        Ok(long) => {
            answer.long(long)?;
            let mut into = Writer::new(alloc);
            into.put_u64(long)?;
            say_end(from.place(), into, answer)
        }
        Err(fault) => say_fault(fault, answer),
    }
}

fn text(alloc: Global, bytes: &[u8], answer: &mut Answer) -> Result<(), Fault> {
    let mut from = Reader::new(bytes);
    match from.take_text() {
        Ok(text) => {
            answer.text(text)?;
            let mut into = Writer::new(alloc);
            into.put_text(text)?;
            say_end(from.place(), into, answer)
        }
        Err(fault) => say_fault(fault, answer),
    }
}

fn tid(alloc: Global, bytes: &[u8], answer: &mut Answer) -> Result<(), Fault> {
    let mut from = Reader::new(bytes);
    match read_tid(alloc, &mut from) {
        Ok(tid) => {
            answer.tid(&tid)?;
            let mut into = Writer::new(alloc);
            write_tid(&mut into, &tid)?;
            say_end(from.place(), into, answer)
        }
        Err(fault) => say_fault(fault, answer),
    }
}

fn tag(alloc: Global, bytes: &[u8], answer: &mut Answer) -> Result<(), Fault> {
    let mut from = Reader::new(bytes);
    match read_tag(alloc, &mut from) {
        Ok(tag) => {
            answer.tag(&tag)?;
            let mut into = Writer::new(alloc);
            write_tag(&mut into, &tag)?;
            say_end(from.place(), into, answer)
        }
        Err(fault) => say_fault(fault, answer),
    }
}

fn part(alloc: Global, bytes: &[u8], answer: &mut Answer) -> Result<(), Fault> {
    let mut from = Reader::new(bytes);
    match read_part(alloc, &mut from) {
        Ok(part) => {
            answer.part(&part)?;
            let mut into = Writer::new(alloc);
            write_part(&mut into, &part)?;
            say_end(from.place(), into, answer)
        }
        Err(fault) => say_fault(fault, answer),
    }
}

fn span(alloc: Global, bytes: &[u8], answer: &mut Answer) -> Result<(), Fault> {
    let mut from = Reader::new(bytes);
    match read_span(alloc, &mut from) {
        Ok(span) => {
            answer.span(&span)?;
            let mut into = Writer::new(alloc);
            write_span(&mut into, &span)?;
            say_end(from.place(), into, answer)
        }
        Err(fault) => say_fault(fault, answer),
    }
}

fn mark(alloc: Global, bytes: &[u8], answer: &mut Answer) -> Result<(), Fault> {
    let mut from = Reader::new(bytes);
    match read_mark(alloc, &mut from) {
        Ok(mark) => {
            answer.tag(&mark.tag)?;
            answer.flag(mark.committed)?;
            let mut into = Writer::new(alloc);
            write_mark(&mut into, &mark)?;
            say_end(from.place(), into, answer)
        }
        Err(fault) => say_fault(fault, answer),
    }
}

fn records(alloc: Global, bytes: &[u8], answer: &mut Answer) -> Result<(), Fault> {
    let mut from = Reader::new(bytes);
    match read_records(alloc, &mut from) {
        Ok(records) => {
            say_records(&records, answer)?;
            let mut into = Writer::new(alloc);
            write_records(&mut into, &records)?;
            say_end(from.place(), into, answer)
        }
        Err(fault) => say_fault(fault, answer),
    }
}
