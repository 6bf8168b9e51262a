//! Tasks' configs beside those that are proposed.
ghost use Rattle.std.specs.Prelude.{◌≡◌, length, IfOk, Some, option_map};
ghost use Rattle.std.specs.Option.{option_eq};
ghost use Rattle.cw_types.specs.Task.{task_id};
ghost use Rattle.cw_model.specs.Proposals.{tasks_of, deferred_tasks, same_property, same_properties, are_configs};

use cw_config::ConfigState;
use cw_json::{Props, Text};
use cw_types::{Name, TaskId};
use std::alloc::AllocError;

/// Whether a connector's tasks have just these configs.
pub(crate) fn has_tasks(
    read: &ConfigState,
    name: &Name,
    proposal: &[Props],
) -> Result<bool, AllocError>
    ensures { IfOk result (λ has. has ≡ are_configs (tasks_of name.now read.now) proposal.now) }
{
    let count = read.task_count(name);
    if count as usize != proposal.len() {
        return Ok(false);
    }
    for index in 0..proposal.len() {
        let id = task_id(name, index as u32)?;
        if !is_config(read.task(&id), &proposal[index]) {
            return Ok(false);
        }
    }
    Ok(true)
}

/// Whether tasks with just these configs wait for their commit. There are never 2^32.
pub(crate) fn has_deferred(
    read: &ConfigState,
    name: &Name,
    proposal: &[Props],
) -> Result<bool, AllocError>
    ensures { IfOk result (λ has. has ≡
        are_configs (deferred_tasks name.now (length proposal.now) read.now) proposal.now) }
{
    if proposal.len() > u32::MAX as usize {
        return Err(AllocError);
    }
    for index in 0..proposal.len() {
        let id = task_id(name, index as u32)?;
        if !is_config(read.deferred(&id), &proposal[index]) {
            return Ok(false);
        }
    }
    Ok(true)
}

// The task of a connector that has a number.
fn task_id(name: &Name, index: u32) -> Result<TaskId, AllocError>
    ensures { IfOk result (λ id. id ≡ task_id name.now index) }
{
    Ok(TaskId {
        connector: name.copy()?,
        index,
    })
}

// Whether a task has this config.
fn is_config(task: Option<&Props>, config: &Props) -> bool
    ensures { result ≡ option_eq same_properties (option_map (λ props. props.now) task.entry) (Some config.now) }
{
    match task {
        Some(props) => same_properties(props.as_slice(), config.as_slice()),
        None => false,
    }
}

// Whether two properties are the same.
fn same_properties(props: &[(Text, Text)], others: &[(Text, Text)]) -> bool
    ensures { result ≡ same_properties props.now others.now }
{
    if props.len() != others.len() {
        return false;
    }
    for at in 0..props.len() {
        if !same_property(&props[at], &others[at]) {
            return false;
        }
    }
    true
}

// Whether two properties have the same key and value.
fn same_property(property: &(Text, Text), other: &(Text, Text)) -> bool
    ensures { result ≡ same_property property.now other.now }
{
    property.0.as_str() == other.0.as_str() && property.1.as_str() == other.1.as_str()
}
