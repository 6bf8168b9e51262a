//! Requests of the REST interface.

use crate::answer::Answer;
use crate::fault::Fault;
use crate::fields::Fields;
use cw_route::{Call, RouteFault, route};
use cw_types::{Listed, Name, TaskId};
use std::alloc::Global;

/// `route METHOD TARGET BODY`: the call, or why the request is none.
pub fn route_call(
    alloc: Global,
    fields: &mut Fields<'_>,
    answer: &mut Answer,
) -> Result<(), Fault> {
    let method = fields.text(alloc)?;
    let target = fields.text(alloc)?;
    let body = fields.text(alloc)?;
    match route(alloc, &method, &target, &body) {
        Ok(call) => say_call(&call, answer),
        Err(fault) => say_fault(fault, answer),
    }
}

fn say_fault(fault: RouteFault, answer: &mut Answer) -> Result<(), Fault> {
    match fault {
        RouteFault::NotFound => answer.word("NotFound"),
        RouteFault::NotAllowed => answer.word("NotAllowed"),
        RouteFault::BadPath => answer.word("BadPath"),
        RouteFault::BadQuery => answer.word("BadQuery"),
        RouteFault::Memory => Err(Fault::Memory),
    }
}

fn say_call(call: &Call, answer: &mut Answer) -> Result<(), Fault> {
    match call {
        Call::Refused(fault) => say_fault(*fault, answer),
        Call::Connectors => answer.word("Connectors"),
        Call::Plugins => answer.word("Plugins"),
        Call::Create(body) => say_body("Create", body, answer),
        Call::PutConfig(name, body) => say_named_body("PutConfig", name, body, answer),
        Call::Alter(name, body) => say_named_body("Alter", name, body, answer),
        Call::TaskStatus(id) => say_task("TaskStatus", id, answer),
        Call::RestartTask(id) => say_task("RestartTask", id, answer),
        _ => say_named_call(call, answer),
    }
}

// A call of a connector alone.
fn say_named_call(call: &Call, answer: &mut Answer) -> Result<(), Fault> {
    match call {
        Call::Info(name) => say_named("Info", name, answer),
        Call::Delete(name) => say_named("Delete", name, answer),
        Call::Config(name) => say_named("Config", name, answer),
        Call::Status(name) => say_named("Status", name, answer),
        Call::Tasks(name) => say_named("Tasks", name, answer),
        Call::Pause(name) => say_named("Pause", name, answer),
        Call::Resume(name) => say_named("Resume", name, answer),
        Call::Stop(name) => say_named("Stop", name, answer),
        Call::Restart(name) => say_named("Restart", name, answer),
        Call::Offsets(name) => say_named("Offsets", name, answer),
        Call::Reset(name) => say_named("Reset", name, answer),
        _ => Err(Fault::NoCall),
    }
}

fn say_named(word: &str, name: &Name, answer: &mut Answer) -> Result<(), Fault> {
    answer.word(word)?;
    answer.name(name)
}

fn say_body(word: &str, body: &Listed<u8>, answer: &mut Answer) -> Result<(), Fault> {
    answer.word(word)?;
    answer.text(body.as_slice())
}

fn say_named_body(
    word: &str,
    name: &Name,
    body: &Listed<u8>,
    answer: &mut Answer,
) -> Result<(), Fault> {
    answer.word(word)?;
    answer.name(name)?;
    answer.text(body.as_slice())
}

fn say_task(word: &str, id: &TaskId, answer: &mut Answer) -> Result<(), Fault> {
    answer.word(word)?;
    answer.task(id)
}
