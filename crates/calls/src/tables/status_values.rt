//! Records of the status log, and why tasks fail.

use crate::answer::Answer;
use crate::fault::Fault;
use crate::fields::Fields;
use crate::tables::config_values::say_fault;
use cw_keys::{StatusValue, fenced_trace, long_line_trace, read_status, write_status};
use cw_types::Item;
use std::alloc::Global;

/// `status KEY VALUE`: the item's status and how it is written, or why there is none.
pub fn read(alloc: Global, fields: &mut Fields<'_>, answer: &mut Answer) -> Result<(), Fault> {
    let key = fields.text(alloc)?;
    let value = fields.text(alloc)?;
    match read_status(alloc, &key, &value) {
        Ok((item, status)) => {
            answer.item(&item)?;
            say_status(&status.copy()?, answer)?;
            say_written(alloc, &item, &status, answer)
        }
        Err(fault) => say_fault(fault, answer),
    }
}

/// Says a status.
pub fn say_status(status: &StatusValue, answer: &mut Answer) -> Result<(), Fault> {
    answer.word(status.state.name())?;
    match &status.trace {
        Some(trace) => answer.json_text(trace)?,
        None => answer.word("#-")?,
    }
    answer.long(u64::from(status.worker))?;
    answer.long(status.round)
}

fn say_written(
    alloc: Global,
    item: &Item,
    status: &StatusValue,
    answer: &mut Answer,
) -> Result<(), Fault> {
    match write_status(alloc, item, status) {
        Ok((key, value)) => {
            answer.text(&key)?;
            answer.text(&value)
        }
        Err(fault) => say_fault(fault, answer),
    }
}

/// `trace fenced OWN CURRENT` and `trace line AT`: the trace of a task that failed so.
pub fn trace(alloc: Global, fields: &mut Fields<'_>, answer: &mut Answer) -> Result<(), Fault> {
    let trace = match fields.word()? {
        "fenced" => fenced_trace(alloc, fields.long()?, fields.long()?)?,
        "line" => long_line_trace(alloc, fields.long()?)?,
        _ => return Err(Fault::NoCall),
    };
    answer.json_text(&trace)
}
