//! The states of connectors and tasks, as JSON.
ghost use Rattle.std.specs.Prelude.{◌≡◌, ◌++◌, ◌∷◌, [], true, IfOk, map, codes, decimal, string_bytes, unwrap_or};
ghost use Rattle.std.specs.Prelude.{option_map};
ghost use Rattle.std.specs.List.{filter_map};
ghost use Rattle.serde_json.specs.View.{view};
ghost use Rattle.cw_keys.specs.Statuses.{trace_data};
ghost use Rattle.cw_rest.specs.Pages as page;
ghost use Rattle.cw_reply.specs.View.{seen_in};

use crate::page::{tasks_of, type_text};
use crate::texts::{between, text_value};
use crate::view::View;
use cw_json::Text;
use cw_keys::{State, StatusValue, text_of_name};
use cw_types::{Item, Name, TaskId};
use serde_json::{Value, json};
use std::alloc::{AllocError, Global};

// Why something failed.
fn trace_value(alloc: Global, trace: &Option<Text>) -> Result<Value, AllocError>
    ensures { IfOk result (λ value. view value ≡ trace_data trace.now) }
{
    match trace {
        Some(text) => text_value(alloc, text.as_str()),
        None => Ok(Value::Null),
    }
}

// The id of a worker.
fn worker_id(alloc: Global, worker: u32) -> Result<String, AllocError>
    ensures { IfOk result (λ id. string_bytes id ≡ codes "worker-" ++ decimal worker) }
{
    let number = worker.to_string(alloc)?;
    between(alloc, "worker-", number.as_str(), "")
}

// Whether a state is a failure, which has a trace.
fn is_failure(state: State) -> bool
    ensures { result ≡ page.is_failure state }
{
    matches!(state, State::Failed)
}

// A status.
fn state_value(alloc: Global, status: &StatusValue) -> Result<Value, AllocError>
    ensures { IfOk result (λ value. view value ≡ page.object_of (page.status_members status.now)) }
{
    let id = worker_id(alloc, status.worker)?;
    let (name, worker) = (status.state.name(), id.as_str());
    if !is_failure(status.state) {
        return json!(in alloc; {"state": name, "worker_id": worker});
    }
    let trace = trace_value(alloc, &status.trace)?;
    json!(in alloc; {"state": name, "trace": trace, "worker_id": worker})
}

// The status of a task.
pub(crate) fn task_status(
    alloc: Global,
    index: u32,
    status: &StatusValue,
) -> Result<Value, AllocError>
    ensures { IfOk result (λ value. view value ≡ page.task_status index status.now) }
{
    let id = worker_id(alloc, status.worker)?;
    if is_failure(status.state) {
        return failed_task(alloc, index, status, id.as_str());
    }
    let (name, worker) = (status.state.name(), id.as_str());
    json!(in alloc; {"id": index, "state": name, "worker_id": worker})
}

// That of a task that has failed, with what its worker's id is.
fn failed_task(
    alloc: Global,
    index: u32,
    status: &StatusValue,
    worker: &str,
) -> Result<Value, AllocError>
    requires failed { page.is_failure status.now.state ≡ true }
    requires worker { worker.now ≡ codes "worker-" ++ decimal status.now.worker }
    ensures { IfOk result (λ value. view value ≡ page.task_status index status.now) }
{
    let trace = trace_value(alloc, &status.trace)?;
    let name = status.state.name();
    json!(in alloc; {"id": index, "state": name, "trace": trace, "worker_id": worker})
}

// The status of a task, where one was reported.
fn status_of_task(alloc: Global, id: &TaskId, seen: &View<'_>) -> Result<Option<Value>, AllocError>
    ensures { IfOk result (λ value. option_map view value ≡ page.status_of_task (seen_in seen.now) id.now) }
{
    match seen.statuses.latest(&Item::Task(id.copy()?)) {
        Some(status) => Ok(Some(task_status(alloc, id.index, status)?)),
        None => Ok(None),
    }
}

// The statuses of those tasks that have one.
fn task_statuses(alloc: Global, tasks: &[TaskId], seen: &View<'_>) -> Result<Vec<Value>, AllocError>
    ensures { IfOk result (λ values.
        map view values.items ≡ filter_map (page.status_of_task (seen_in seen.now)) tasks.now) }
{
    let mut values = Vec::new(alloc);
    for id in tasks {
        if let Some(value) = status_of_task(alloc, id, seen)? {
            values.push(value)?;
        }
    }
    Ok(values)
}

// The status of a connector and of its tasks.
pub(crate) fn connector_status(
    alloc: Global,
    connector: &Name,
    status: &StatusValue,
    seen: &View<'_>,
) -> Result<Value, AllocError>
    ensures { IfOk result (λ value.
        view value ≡ page.connector_status connector.now status.now (seen_in seen.now)) }
{
    let own = state_value(alloc, status)?;
    let tasks = tasks_of(alloc, connector, seen.config.task_count(connector))?;
    let tasks = Value::Array(task_statuses(alloc, &tasks, seen)?);
    let (name, kind) = (
        text_of_name(connector),
        type_text(seen.config.config(connector)),
    );
    json!(in alloc; {"connector": own, "name": name, "tasks": tasks, "type": kind})
}
