//! Calls of the state of the status log.

use crate::answer::Answer;
use crate::fault::Fault;
use crate::fields::Fields;
use crate::states::States;
use crate::tables::config_values::say_fault;
use crate::tables::status_values::say_status;
use cw_keys::read_status;
use cw_status::StatusState;
use std::alloc::Global;

/// `statuses CALL ..`: a record, or the latest status of an item.
pub fn call(
    states: &mut States,
    fields: &mut Fields<'_>,
    answer: &mut Answer,
) -> Result<(), Fault> {
    let alloc = states.alloc;
    match fields.word()? {
        "begin" => {
            states.statuses = StatusState::new(alloc);
            answer.word("ok")
        }
        "apply" => apply(alloc, &mut states.statuses, fields, answer),
        "reserve_apply" => reserve(alloc, &mut states.statuses, fields, answer),
        "unreserve" => {
            states.statuses.unreserve();
            answer.word("ok")
        }
        "latest" => latest(alloc, &states.statuses, fields, answer),
        _ => Err(Fault::NoCall),
    }
}

fn apply(
    alloc: Global,
    statuses: &mut StatusState,
    fields: &mut Fields<'_>,
    answer: &mut Answer,
) -> Result<(), Fault> {
    let offset = fields.long()?;
    let key = fields.text(alloc)?;
    let value = fields.text(alloc)?;
    match read_status(alloc, &key, &value) {
        Ok((item, status)) => {
            statuses.apply(offset, &item, status)?;
            answer.word("ok")
        }
        Err(fault) => say_fault(fault, answer),
    }
}

fn reserve(
    alloc: Global,
    statuses: &mut StatusState,
    fields: &mut Fields<'_>,
    answer: &mut Answer,
) -> Result<(), Fault> {
    let offset = fields.long()?;
    let key = fields.text(alloc)?;
    let value = fields.text(alloc)?;
    match read_status(alloc, &key, &value) {
        Ok((item, status)) => {
            statuses.reserve_apply(offset, &item, &status)?;
            answer.word("ok")
        }
        Err(fault) => say_fault(fault, answer),
    }
}

fn latest(
    alloc: Global,
    statuses: &StatusState,
    fields: &mut Fields<'_>,
    answer: &mut Answer,
) -> Result<(), Fault> {
    let item = fields.item(alloc)?;
    match statuses.latest(&item) {
        Some(status) => say_status(status, answer),
        None => answer.word("#-"),
    }
}
