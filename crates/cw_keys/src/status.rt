//! Records of the status log: a connector or a task, and its status.
ghost use Rattle.std.specs.Prelude.{◌≡◌, ◌<◌, ◌^◌, ◌++◌, IfOk, IfErr, OnOk, Ok, Some, option_and_then, option_map};
ghost use Rattle.std.specs.Prelude.{string_bytes, codes, decimal};
ghost use Rattle.serde_json.specs.Find.{get};
ghost use Rattle.serde_json.specs.View.{view};
ghost use Rattle.cw_json.specs.Reading.{reading};
ghost use Rattle.cw_types.specs.Answers.{Gives};
ghost use Rattle.cw_keys.specs.Names.{task_of};
ghost use Rattle.cw_types.specs.declared.ids.Item.TheVariants.{Task};
ghost use Rattle.cw_keys.specs.Statuses.{state_named, status_item, status_key, worker_named, text_at, trace_in};
ghost use Rattle.cw_keys.specs.Statuses.{trace_data, status_value, status_data, status_text, status_of, IsItem};

use crate::fault::KeyFault;
use crate::members::{text_of_value, u64_at};
use crate::names::{read_task, text_and_name, text_and_task};
use crate::state::{State, state_named};
use cw_json::{Text, read_value};
use cw_types::{Item, Name, read_u32};
use serde_json::{Value, json};
use std::alloc::{AllocError, Global};

/// The status of a connector or a task.
#[derive(Debug, Drop)]
pub struct StatusValue {
    /// Its state.
    pub state: State,
    /// Why it failed, if that is told.
    pub trace: Option<Text>,
    /// The number of the worker that reported it.
    pub worker: u32,
    /// The group's round (Connect's generation) in which it was reported.
    pub round: u64,
}

// A copy of a trace.
fn copy_trace(trace: &Option<Text>) -> Result<Option<Text>, AllocError>
    ensures { IfOk result (λ copy. copy ≡ trace.now) }
{
    match trace {
        Some(text) => Ok(Some(text.copy()?)),
        None => Ok(None),
    }
}

impl StatusValue {
    /// A copy.
    pub fn copy(&self) -> Result<Self, AllocError>
        ensures { IfOk result (λ status. status ≡ self.now) }
    {
        Ok(StatusValue {
            state: self.state,
            trace: copy_trace(&self.trace)?,
            worker: self.worker,
            round: self.round,
        })
    }
}

fn task_item(alloc: Global, task: &[u8]) -> Result<Option<Item>, AllocError>
    ensures { IfOk result (λ item. item ≡ option_map Task (task_of task.now)) }
{
    Ok(read_task(alloc, task)?.map(Item::Task))
}

// The connector or task that a key names.
fn read_item(alloc: Global, bytes: &[u8]) -> Result<Option<Item>, AllocError>
    ensures { IfOk result (λ item. item ≡ status_item bytes.now) }
{
    if bytes.starts_with(b"status-connector-") {
        Ok(Name::from_bytes(alloc, &bytes[17..])?.map(Item::Connector))
    } else if bytes.starts_with(b"status-task-") {
        task_item(alloc, &bytes[12..])
    } else {
        Ok(None)
    }
}

// The key of a connector or a task.
fn write_item(alloc: Global, item: &Item) -> Result<Vec<u8>, AllocError>
    ensures text { IfOk result (λ bytes. bytes.items ≡ status_key item.now) }
    ensures item { OnOk result (IsItem item.now) }
{
    match item {
        Item::Connector(name) => text_and_name(alloc, b"status-connector-", name),
        Item::Task(id) => text_and_task(alloc, b"status-task-", id),
    }
}

// The number of the worker with an id.
fn worker_named(id: &[u8]) -> Option<u32>
    ensures { result ≡ worker_named id.now }
{
    if id.starts_with(b"worker-") {
        read_u32(&id[7..])
    } else {
        None
    }
}

fn text_at<'a>(key: &str, value: &'a Value) -> Option<&'a str>
    ensures { option_map (λ text. text.now) result ≡ text_at key.now (view value.now) }
{
    value.get(key)?.as_str()
}

fn state_in(value: &Value) -> Option<State>
    ensures { result ≡ option_and_then state_named (text_at (codes "state") (view value.now)) }
{
    state_named(text_at("state", value)?)
}

fn worker_in(value: &Value) -> Option<u32>
    ensures { result ≡ option_and_then worker_named (text_at (codes "worker_id") (view value.now)) }
{
    worker_named(text_at("worker_id", value)?.as_bytes())
}

// Null for no trace, or its text.
fn trace_in(alloc: Global, value: &Value) -> Result<Option<Option<Text>>, AllocError>
    ensures { IfOk result (λ trace. trace ≡ option_and_then trace_in (get (codes "trace") (view value.now))) }
{
    match value.get("trace") {
        Some(Value::Null) => Ok(Some(None)),
        Some(Value::String(text)) => Ok(Some(Some(Text::of(alloc, text.as_str())?))),
        _ => Ok(None),
    }
}

// The status that JSON tells.
fn status_in(alloc: Global, value: &Value) -> Result<Option<StatusValue>, AllocError>
    ensures { IfOk result (λ status. status ≡ status_value (view value.now)) }
{
    let Some(state) = state_in(value) else {
        return Ok(None);
    };
    let Some(trace) = trace_in(alloc, value)? else {
        return Ok(None);
    };
    let Some(worker) = worker_in(value) else {
        return Ok(None);
    };
    match u64_at("generation", value) {
        Some(round) => Ok(Some(StatusValue {
            state,
            trace,
            worker,
            round,
        })),
        None => Ok(None),
    }
}

// The status that a text is.
fn read_status_of(alloc: Global, text: &[u8]) -> Result<Option<StatusValue>, AllocError>
    ensures { IfOk result (λ status. status ≡ option_and_then status_value (reading text.now)) }
{
    match read_value(alloc, text)? {
        Some(value) => status_in(alloc, &value),
        None => Ok(None),
    }
}

/// The record that a key and a value of the status log are. BadKey comes just where the key names no
/// connector and no task as Connect's status topic does, else BadValue just where the value is no
/// status.
pub fn read_status(alloc: Global, key: &[u8], value: &[u8]) -> Result<(Item, StatusValue), KeyFault>
    ensures { Gives KeyFault.Memory result (status_of key.now value.now) }
{
    let Some(item) = read_item(alloc, key)? else {
        return Err(KeyFault::BadKey);
    };
    match read_status_of(alloc, value)? {
        Some(status) => Ok((item, status)),
        None => Err(KeyFault::BadValue),
    }
}

// The JSON of a trace.
fn trace_value(alloc: Global, trace: &Option<Text>) -> Result<Value, AllocError>
    ensures { IfOk result (λ value. view value ≡ trace_data trace.now) }
{
    match trace {
        Some(text) => Ok(Value::String(String::from_str(alloc, text.as_str())?)),
        None => Ok(Value::Null),
    }
}

// The id of a worker.
fn worker_id(alloc: Global, worker: u32) -> Result<String, AllocError>
    ensures { IfOk result (λ id. string_bytes id ≡ codes "worker-" ++ decimal worker) }
{
    let mut id = String::from_str(alloc, "worker-")?;
    id.push_str(worker.to_string(alloc)?.as_str())?;
    Ok(id)
}

// The JSON that is written for a status.
fn status_json(alloc: Global, status: &StatusValue) -> Result<Value, AllocError>
    ensures json { IfOk result (λ value. view value ≡ status_data status.now) }
    ensures worker { OnOk result (status.now.worker < 2 ^ 32) }
{
    let trace = trace_value(alloc, &status.trace)?;
    let id = worker_id(alloc, status.worker)?;
    let (round, state) = (status.round, status.state.name());
    json!(in alloc; {"generation": round, "state": state, "trace": trace, "worker_id": id.as_str()})
}

// The text of a status.
fn write_text(alloc: Global, status: &StatusValue) -> Result<Vec<u8>, AllocError>
    ensures text { IfOk result (λ text. text.items ≡ status_text status.now) }
    ensures again { IfOk result (λ text. reading text.items ≡ Some (status_data status.now)) }
    ensures worker { OnOk result (status.now.worker < 2 ^ 32) }
{
    let json = status_json(alloc, status)?;
    text_of_value(alloc, &json)
}

/// The bytes of a record of the status log.
pub fn write_status(
    alloc: Global,
    item: &Item,
    value: &StatusValue,
) -> Result<(Vec<u8>, Vec<u8>), KeyFault>
    ensures key { IfOk result (λ bytes. bytes.0.items ≡ status_key item.now) }
    ensures value { IfOk result (λ bytes. bytes.1.items ≡ status_text value.now) }
    ensures again { IfOk result (λ bytes. status_of bytes.0.items bytes.1.items ≡ Ok (item.now, value.now)) }
    ensures memory { IfErr result (λ fault. fault ≡ KeyFault.Memory) }
{
    let key = write_item(alloc, item)?;
    Ok((key, write_text(alloc, value)?))
}
