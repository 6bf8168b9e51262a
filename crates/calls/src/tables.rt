//! The tables, a module each, and which table a line's first word names.

mod bodies;
mod checks;
mod config_values;
mod configs;
mod coordinator;
mod data_log;
mod delays;
mod fault_replies;
mod feeds;
mod group;
mod names;
mod offsets;
mod parts;
mod plans;
mod props;
mod requests;
mod routes;
mod script_lines;
mod spellings;
mod status_values;
mod statuses;

use crate::answer::Answer;
use crate::fault::Fault;
use crate::fields::Fields;
use crate::states::States;
use std::alloc::Global;

/// Makes the call that the fields name.
pub fn make_call(
    states: &mut States,
    fields: &mut Fields<'_>,
    answer: &mut Answer,
) -> Result<(), Fault> {
    match fields.word()? {
        "feed" => feeds::load(states, fields, answer),
        "cut" => feeds::next_cut(states, fields, answer),
        "yield" => feeds::yield_of(states, fields, answer),
        "group" => group::call(states, fields, answer),
        "coordinator" => coordinator::call(states, fields, answer),
        "data" => data_log::call(states, fields, answer),
        "offsets" => offsets::call(states, fields, answer),
        "configs" => configs::call(states, fields, answer),
        "statuses" => statuses::call(states, fields, answer),
        word => make_pure_call(states.alloc, word, fields, answer),
    }
}

// A call that no state stands behind.
fn make_pure_call(
    alloc: Global,
    word: &str,
    fields: &mut Fields<'_>,
    answer: &mut Answer,
) -> Result<(), Fault> {
    match word {
        "name" => names::read(alloc, fields, answer),
        "number" => names::number(alloc, fields, answer),
        "tid" => names::tid(alloc, fields, answer),
        "order" => names::order(alloc, fields, answer),
        "props" => props::read(alloc, fields, answer),
        "config" => config_values::read(alloc, fields, answer),
        "status" => status_values::read(alloc, fields, answer),
        "trace" => status_values::trace(alloc, fields, answer),
        "part" => parts::write(alloc, fields, answer),
        "part_key" => parts::read(alloc, fields, answer),
        "offset" => parts::offset(alloc, fields, answer),
        word => make_other_call(alloc, word, fields, answer),
    }
}

// One of the others of these.
fn make_other_call(
    alloc: Global,
    word: &str,
    fields: &mut Fields<'_>,
    answer: &mut Answer,
) -> Result<(), Fault> {
    match word {
        "check" => checks::check(alloc, fields, answer),
        "tasks" => checks::tasks(alloc, fields, answer),
        "task" => checks::task(alloc, fields, answer),
        "route" => routes::route_call(alloc, fields, answer),
        "requests" => requests::read(alloc, fields, answer),
        "line" => script_lines::read(alloc, fields, answer),
        "plan" => plans::plan_call(alloc, fields, answer),
        "delay" => delays::delay(fields, answer),
        "field" => spellings::read(alloc, fields, answer),
        "body" => bodies::read(alloc, fields, answer),
        "fault" => fault_replies::reply_to(alloc, fields, answer),
        _ => Err(Fault::NoCall),
    }
}
