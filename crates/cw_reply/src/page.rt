//! Connectors, their configs and their tasks, as JSON.
ghost use Rattle.std.specs.Prelude.{◌≡◌, [], IfOk, map, unwrap_or, option_map};
ghost use Rattle.serde_json.specs.Data.{string};
ghost use Rattle.serde_json.specs.View.{view};
ghost use Rattle.cw_rest.specs.Pages as page;
ghost use Rattle.cw_reply.specs.View.{seen_in};

use crate::texts::text_value;
use crate::view::View;
use cw_config::ConfigState;
use cw_json::{Props, value_of};
use cw_keys::text_of_name;
use cw_plugin::Class;
use cw_types::{Name, TaskId};
use serde_json::{Map, Value, json};
use std::alloc::{AllocError, Global};

// Whether properties are a source's.
pub(crate) fn is_source(props: Option<&Props>) -> bool
    ensures { result ≡ page.is_source (unwrap_or (option_map (λ props. props.now) props.entry) []) }
{
    match props {
        Some(props) => is_source_config(props),
        None => false,
    }
}

fn is_source_config(props: &Props) -> bool
    ensures { result ≡ page.is_source props.now }
{
    match Class::named_by(props) {
        Some(class) => class.is_source(),
        None => false,
    }
}

// A connector's type.
pub(crate) fn type_text(props: Option<&Props>) -> &'static str
    ensures { result.now ≡ page.type_text (unwrap_or (option_map (λ props. props.now) props.entry) []) }
{
    if is_source(props) { "source" } else { "sink" }
}

// Properties, as an object; where there are none, it is empty.
pub(crate) fn properties_value(alloc: Global, props: Option<&Props>) -> Result<Value, AllocError>
    ensures { IfOk result (λ value.
        view value ≡ page.properties (unwrap_or (option_map (λ props. props.now) props.entry) [])) }
{
    match props {
        Some(props) => value_of(alloc, props),
        None => Ok(Value::Object(Map::new(alloc))),
    }
}

// The ids of a connector's tasks, of which there are so many.
pub(crate) fn tasks_of(
    alloc: Global,
    connector: &Name,
    count: u32,
) -> Result<Vec<TaskId>, AllocError>
    ensures { IfOk result (λ tasks. tasks.items ≡ page.tasks_of connector.now count) }
{
    let mut tasks = Vec::new(alloc);
    for index in 0..count {
        let connector = connector.copy()?;
        tasks.push(TaskId { connector, index })?;
    }
    Ok(tasks)
}

// A task's id.
fn id_value(alloc: Global, id: &TaskId) -> Result<Value, AllocError>
    ensures { IfOk result (λ value. view value ≡ page.id_data id.now) }
{
    let (name, index) = (text_of_name(&id.connector), id.index);
    json!(in alloc; {"connector": name, "task": index})
}

// The ids of tasks.
fn id_values(alloc: Global, tasks: &[TaskId]) -> Result<Vec<Value>, AllocError>
    ensures { IfOk result (λ values. map view values.items ≡ map page.id_data tasks.now) }
{
    let mut values = Vec::new(alloc);
    for id in tasks {
        values.push(id_value(alloc, id)?)?;
    }
    Ok(values)
}

// A connector with a config, or none, and so many tasks.
pub(crate) fn info_value(
    alloc: Global,
    connector: &Name,
    props: Option<&Props>,
    count: u32,
) -> Result<Value, AllocError>
    ensures { IfOk result (λ value. view value ≡ page.info_with connector.now
        (unwrap_or (option_map (λ props. props.now) props.entry) []) (page.tasks_of connector.now count)) }
{
    let config = properties_value(alloc, props)?;
    let tasks = tasks_of(alloc, connector, count)?;
    let tasks = Value::Array(id_values(alloc, &tasks)?);
    let (name, kind) = (text_of_name(connector), type_text(props));
    json!(in alloc; {"config": config, "name": name, "tasks": tasks, "type": kind})
}

// A connector as it is seen.
pub(crate) fn info_seen(
    alloc: Global,
    connector: &Name,
    seen: &View<'_>,
) -> Result<Value, AllocError>
    ensures { IfOk result (λ value. view value ≡ page.info connector.now (seen_in seen.now)) }
{
    let config = seen.config;
    info_value(
        alloc,
        connector,
        config.config(connector),
        config.task_count(connector),
    )
}

// A task with its config.
fn task_value(alloc: Global, id: &TaskId, config: &ConfigState) -> Result<Value, AllocError>
    ensures { IfOk result (λ value. view value ≡ page.task_data config.now id.now) }
{
    let props = properties_value(alloc, config.task(id))?;
    let id = id_value(alloc, id)?;
    json!(in alloc; {"config": props, "id": id})
}

// Tasks with their configs.
fn task_values(
    alloc: Global,
    tasks: &[TaskId],
    config: &ConfigState,
) -> Result<Vec<Value>, AllocError>
    ensures { IfOk result (λ values. map view values.items ≡ map (page.task_data config.now) tasks.now) }
{
    let mut values = Vec::new(alloc);
    for id in tasks {
        values.push(task_value(alloc, id, config)?)?;
    }
    Ok(values)
}

// The tasks of a connector.
pub(crate) fn tasks_value(
    alloc: Global,
    connector: &Name,
    seen: &View<'_>,
) -> Result<Value, AllocError>
    ensures { IfOk result (λ value. view value ≡ page.task_infos connector.now (seen_in seen.now)) }
{
    let tasks = tasks_of(alloc, connector, seen.config.task_count(connector))?;
    Ok(Value::Array(task_values(alloc, &tasks, seen.config)?))
}

// Names, as texts.
fn name_values(alloc: Global, names: &[Name]) -> Result<Vec<Value>, AllocError>
    ensures { IfOk result (λ values. map view values.items ≡ map string names.now) }
{
    let mut values = Vec::new(alloc);
    for name in names {
        values.push(text_value(alloc, text_of_name(name))?)?;
    }
    Ok(values)
}

// The names of all connectors.
pub(crate) fn names_value(alloc: Global, seen: &View<'_>) -> Result<Value, AllocError>
    ensures { IfOk result (λ value. view value ≡ page.names (seen_in seen.now)) }
{
    let names = seen.config.connectors()?;
    Ok(Value::Array(name_values(alloc, &names)?))
}

// A class.
fn class_value(alloc: Global, class: &str, kind: &str) -> Result<Value, AllocError>
    ensures { IfOk result (λ value. view value ≡ page.plugin class.now kind.now) }
{
    json!(in alloc; {"class": class, "type": kind, "version": "1"})
}

// The classes of connectors.
pub(crate) fn classes_value(alloc: Global) -> Result<Value, AllocError>
    ensures { IfOk result (λ value. view value ≡ page.plugins) }
{
    let set = class_value(alloc, "FileSetSource", "source")?;
    let sink = class_value(alloc, "FileStreamSink", "sink")?;
    let stream = class_value(alloc, "FileStreamSource", "source")?;
    let sequence = class_value(alloc, "SequenceSource", "source")?;
    json!(in alloc; [set, sink, stream, sequence])
}

// What an alteration or a reset of offsets tells.
pub(crate) fn message_value(alloc: Global, text: &str) -> Result<Value, AllocError>
    ensures { IfOk result (λ value. view value ≡ page.message text.now) }
{
    json!(in alloc; {"message": text})
}
