//! Calls of the data log.

use crate::answer::Answer;
use crate::fault::Fault;
use crate::fields::Fields;
use crate::states::States;
use cw_data::{Batch, DataState};
use cw_types::{Listed, Span, Tag};
use std::alloc::Global;

/// `data CALL ..`: a change, or a look-up. What is still unmarked is told by the transactions of
/// `coordinator`.
pub fn call(
    states: &mut States,
    fields: &mut Fields<'_>,
    answer: &mut Answer,
) -> Result<(), Fault> {
    let alloc = states.alloc;
    match fields.word()? {
        "begin" => {
            states.records = DataState::new(alloc);
            answer.word("ok")
        }
        "batch" => add(alloc, &mut states.records, fields, answer),
        "mark" => mark(alloc, &mut states.records, fields, answer),
        "stable" => answer.long(states.records.stable(&fields.name(alloc)?)),
        "end" => answer.long(states.records.end(&fields.name(alloc)?)),
        "take" => take(alloc, &states.records, fields, answer),
        "first_unmarked" => answer.some_tag(states.records.first_unmarked(&states.coordinator)),
        word => reserve(alloc, &mut states.records, word, fields, answer),
    }
}

fn reserve(
    alloc: Global,
    records: &mut DataState,
    word: &str,
    fields: &mut Fields<'_>,
    answer: &mut Answer,
) -> Result<(), Fault> {
    match word {
        "reserve_batch" => reserve_batch(alloc, records, fields)?,
        "reserve_mark" => reserve_mark(alloc, records, fields)?,
        "unreserve" => records.unreserve(),
        _ => return Err(Fault::NoCall),
    }
    answer.word("ok")
}

fn reserve_batch(
    alloc: Global,
    records: &mut DataState,
    fields: &mut Fields<'_>,
) -> Result<(), Fault> {
    let batch = read_batch(alloc, fields)?;
    let reserved = records.reserve_batch(&batch);
    drop(batch);
    Ok(reserved?)
}

fn reserve_mark(
    alloc: Global,
    records: &mut DataState,
    fields: &mut Fields<'_>,
) -> Result<(), Fault> {
    let (tag, committed) = read_mark(alloc, fields)?;
    let reserved = records.reserve_mark(&tag, committed);
    drop(tag);
    Ok(reserved?)
}

fn add(
    alloc: Global,
    records: &mut DataState,
    fields: &mut Fields<'_>,
    answer: &mut Answer,
) -> Result<(), Fault> {
    let batch = read_batch(alloc, fields)?;
    let count = batch.values.as_slice().len() as u64;
    if records.end(&batch.topic) > u64::MAX - count {
        return Err(Fault::NoCall);
    }
    records.batch(batch)?;
    answer.word("ok")
}

fn read_batch(alloc: Global, fields: &mut Fields<'_>) -> Result<Batch, Fault> {
    let batch = batch_as_read(alloc, fields)?;
    let copy = batch.copy(alloc);
    drop(batch);
    Ok(copy?)
}

fn batch_as_read(alloc: Global, fields: &mut Fields<'_>) -> Result<Batch, Fault> {
    let tag = fields.tag(alloc)?;
    let topic = fields.name(alloc)?;
    let Span { part, from, to } = fields.span(alloc)?;
    let values = Listed::new(values(alloc, fields)?);
    Ok(Batch {
        tag,
        topic,
        part,
        from,
        to,
        values,
    })
}

fn values(alloc: Global, fields: &mut Fields<'_>) -> Result<Vec<Listed<u8>>, Fault> {
    let count = fields.short()?;
    let mut values = Vec::new(alloc);
    for _ in 0..count {
        values.push(Listed::new(fields.text(alloc)?))?;
    }
    Ok(values)
}

fn mark(
    alloc: Global,
    records: &mut DataState,
    fields: &mut Fields<'_>,
    answer: &mut Answer,
) -> Result<(), Fault> {
    let (tag, committed) = read_mark(alloc, fields)?;
    let marked = records.mark(&tag, committed);
    drop(tag);
    marked?;
    answer.word("ok")
}

// A transaction, and whether it is committed.
fn read_mark(alloc: Global, fields: &mut Fields<'_>) -> Result<(Tag, bool), Fault> {
    let tag = fields.tag(alloc)?;
    match fields.flag() {
        Ok(committed) => Ok((tag, committed)),
        Err(fault) => {
            drop(tag);
            Err(fault)
        }
    }
}

fn take(
    alloc: Global,
    records: &DataState,
    fields: &mut Fields<'_>,
    answer: &mut Answer,
) -> Result<(), Fault> {
    let topic = fields.name(alloc)?;
    let from = fields.long()?;
    match records.take(&topic, from) {
        Some((offset, value)) => {
            answer.long(offset)?;
            answer.text(value)
        }
        None => answer.word("#-"),
    }
}
