//! Bodies of the logs.
ghost use Rattle.cw_data.specs.Body.{IsEntry as IsDataEntry};
ghost use Rattle.cw_offset.specs.Body.{IsEntry as IsOffsetEntry};
ghost use Rattle.cw_txn.specs.Body.{AreEntries};

use crate::answer::Answer;
use crate::fault::Fault;
use crate::fields::Fields;
use crate::tables::spellings::say_records;
use cw_bytes::{BodyFault, read_record_body, write_record_body};
use cw_data::{Batch, DataEntry, read_data, write_data};
use cw_offset::{OffsetEntry, read_offsets, write_offsets};
use cw_txn::{Entry, SetOffset, read_entries, write_entries};
use cw_types::{Listed, Span, Tag};
use std::alloc::{AllocError, Global};

/// `body LOG BYTES`: what the body has and how it is written, or `Content` where it has nothing.
pub fn read(alloc: Global, fields: &mut Fields<'_>, answer: &mut Answer) -> Result<(), Fault> {
    let log = fields.word()?;
    let body = fields.text(alloc)?;
    match log {
        "config" | "status" => records(alloc, &body, answer),
        "offsets" => offsets(alloc, &body, answer),
        "transactions" => transactions(alloc, &body, answer),
        "batches" => batches(alloc, &body, answer),
        _ => Err(Fault::NoCall),
    }
}

fn say_fault(fault: BodyFault, answer: &mut Answer) -> Result<(), Fault> {
    match fault {
        BodyFault::NotBody => answer.word("Content"),
        BodyFault::Memory => Err(Fault::Memory),
    }
}

fn records(alloc: Global, body: &[u8], answer: &mut Answer) -> Result<(), Fault> {
    match read_record_body(alloc, body) {
        Ok(records) => {
            say_records(&records, answer)?;
            answer.text(&write_record_body(alloc, &records)?)
        }
        Err(fault) => say_fault(fault, answer),
    }
}

fn offsets(alloc: Global, body: &[u8], answer: &mut Answer) -> Result<(), Fault> {
    match read_offsets(alloc, body) {
        Ok(entry) => {
            say_offsets(&entry, answer)?;
            answer.text(&offset_body(alloc, &entry)?)
        }
        Err(fault) => say_fault(fault, answer),
    }
}

// What was read may be written.
fn offset_body(alloc: Global, entry: &OffsetEntry) -> Result<Vec<u8>, AllocError>
    requires { IsOffsetEntry entry.now }
{
    write_offsets(alloc, entry)
}

fn say_offsets(entry: &OffsetEntry, answer: &mut Answer) -> Result<(), Fault> {
    match entry {
        OffsetEntry::Records { tag, records } => {
            answer.word("records")?;
            answer.tag(tag)?;
            say_records(records.as_slice(), answer)
        }
        OffsetEntry::Mark(mark) => say_mark(&mark.tag, mark.committed, answer),
    }
}

fn say_mark(tag: &Tag, committed: bool, answer: &mut Answer) -> Result<(), Fault> {
    answer.word("mark")?;
    answer.tag(tag)?;
    answer.flag(committed)
}

fn batches(alloc: Global, body: &[u8], answer: &mut Answer) -> Result<(), Fault> {
    match read_data(alloc, body) {
        Ok(entry) => {
            say_data(&entry, answer)?;
            answer.text(&data_body(alloc, &entry)?)
        }
        Err(fault) => say_fault(fault, answer),
    }
}

// What was read may be written.
fn data_body(alloc: Global, entry: &DataEntry) -> Result<Vec<u8>, AllocError>
    requires { IsDataEntry entry.now }
{
    write_data(alloc, entry)
}

fn say_data(entry: &DataEntry, answer: &mut Answer) -> Result<(), Fault> {
    match entry {
        DataEntry::Batch(batch) => say_batch(batch, answer),
        DataEntry::Mark { tag, committed } => say_mark(tag, *committed, answer),
    }
}

fn say_batch(batch: &Batch, answer: &mut Answer) -> Result<(), Fault> {
    answer.word("batch")?;
    answer.tag(&batch.tag)?;
    answer.name(&batch.topic)?;
    answer.part(&batch.part)?;
    answer.long(batch.from)?;
    answer.long(batch.to)?;
    say_values(batch.values.as_slice(), answer)
}

fn say_values(values: &[Listed<u8>], answer: &mut Answer) -> Result<(), Fault> {
    answer.count(values.len())?;
    for value in values {
        answer.text(value.as_slice())?;
    }
    Ok(())
}

fn transactions(alloc: Global, body: &[u8], answer: &mut Answer) -> Result<(), Fault> {
    match read_entries(alloc, body) {
        Ok(entries) => {
            say_entries(&entries, answer)?;
            answer.text(&entries_body(alloc, &entries)?)
        }
        Err(cw_txn::BodyFault::NotEntries) => answer.word("Content"),
        Err(cw_txn::BodyFault::Memory) => Err(Fault::Memory),
    }
}

// What was read may be written.
fn entries_body(alloc: Global, entries: &[Entry]) -> Result<Vec<u8>, AllocError>
    requires { AreEntries entries.now }
{
    write_entries(alloc, entries)
}

fn say_entries(entries: &[Entry], answer: &mut Answer) -> Result<(), Fault> {
    answer.count(entries.len())?;
    for entry in entries {
        say_entry(entry, answer)?;
    }
    Ok(())
}

fn say_entry(entry: &Entry, answer: &mut Answer) -> Result<(), Fault> {
    match entry {
        Entry::Bump(tid) => {
            answer.word("bump")?;
            answer.tid(tid)
        }
        Entry::Commit {
            tag,
            generation,
            spans,
        } => {
            answer.word("commit")?;
            answer.tag(tag)?;
            answer.long(*generation)?;
            say_spans(spans.as_slice(), answer)
        }
        Entry::Set { tid, epoch, list } => {
            answer.word("set")?;
            answer.tid(tid)?;
            answer.long(epoch.0)?;
            say_set(list.as_slice(), answer)
        }
    }
}

fn say_spans(spans: &[Span], answer: &mut Answer) -> Result<(), Fault> {
    answer.count(spans.len())?;
    for span in spans {
        answer.span(span)?;
    }
    Ok(())
}

fn say_set(offsets: &[SetOffset], answer: &mut Answer) -> Result<(), Fault> {
    answer.count(offsets.len())?;
    for offset in offsets {
        answer.part(&offset.part)?;
        answer.some_long(offset.to)?;
    }
    Ok(())
}
