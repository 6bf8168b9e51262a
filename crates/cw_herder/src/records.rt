//! The records of the config log that an operation writes (Connect's config topic).
ghost use Rattle.std.specs.Prelude.{◌≡◌, IfOk};
ghost use Rattle.cw_rest.specs.Operations as operation;
ghost use Rattle.cw_herder.specs.Operations.{records_of, state_values};

use crate::op::Op;
use cw_json::Props;
use cw_keys::{ConfigKey, ConfigValue, Target};
use cw_types::Name;
use std::alloc::{AllocError, Global};

/// The keys and values of an operation's records, in their order; none for one that writes to another log.
pub(crate) fn records_of(
    alloc: Global,
    op: &Op,
) -> Result<Vec<(ConfigKey, Option<ConfigValue>)>, AllocError>
    ensures { IfOk result (λ records. records.items ≡ records_of op.now) }
{
    match op {
        Op::Connector(name, config) => config_values(alloc, name, config),
        Op::SetTarget(name, target) => state_values(alloc, name, *target),
        Op::Delete(name) => delete_values(alloc, name),
        Op::Lead | Op::Propose(_) | Op::Fence(_) | Op::Mark | Op::Offsets(_, _) => {
            Ok(Vec::new(alloc))
        }
    }
}

// A connector gets a config.
fn config_values(
    alloc: Global,
    name: &Name,
    config: &Props,
) -> Result<Vec<(ConfigKey, Option<ConfigValue>)>, AllocError>
    ensures { IfOk result (λ values. values.items ≡ operation.config_values name.now config.now) }
{
    let mut values = Vec::new(alloc);
    values.push((
        ConfigKey::Connector(name.copy()?),
        Some(ConfigValue::Connector(config.copy()?)),
    ))?;
    Ok(values)
}

// A connector gets a target state; one that is stopped has no tasks from then on.
fn state_values(
    alloc: Global,
    name: &Name,
    target: Target,
) -> Result<Vec<(ConfigKey, Option<ConfigValue>)>, AllocError>
    ensures { IfOk result (λ values. values.items ≡ state_values name.now target) }
{
    match target {
        Target::Started | Target::Paused => target_values(alloc, name, target),
        Target::Stopped => stop_values(alloc, name),
    }
}

// The record of a target state.
fn target_values(
    alloc: Global,
    name: &Name,
    target: Target,
) -> Result<Vec<(ConfigKey, Option<ConfigValue>)>, AllocError>
    ensures { IfOk result (λ values. values.items ≡ operation.target_values name.now target) }
{
    let mut values = Vec::new(alloc);
    values.push((
        ConfigKey::Target(name.copy()?),
        Some(ConfigValue::Target(target)),
    ))?;
    Ok(values)
}

// A connector is stopped, and has no tasks from then on.
fn stop_values(
    alloc: Global,
    name: &Name,
) -> Result<Vec<(ConfigKey, Option<ConfigValue>)>, AllocError>
    ensures { IfOk result (λ values. values.items ≡ operation.stop_values name.now) }
{
    let mut values = Vec::new(alloc);
    values.push((
        ConfigKey::Commit(name.copy()?),
        Some(ConfigValue::Commit(0)),
    ))?;
    values.push((
        ConfigKey::Target(name.copy()?),
        Some(ConfigValue::Target(Target::Stopped)),
    ))?;
    Ok(values)
}

// A connector is removed: it has no tasks, no target state and no config from then on.
fn delete_values(
    alloc: Global,
    name: &Name,
) -> Result<Vec<(ConfigKey, Option<ConfigValue>)>, AllocError>
    ensures { IfOk result (λ values. values.items ≡ operation.delete_values name.now) }
{
    let mut values = Vec::new(alloc);
    values.push((
        ConfigKey::Commit(name.copy()?),
        Some(ConfigValue::Commit(0)),
    ))?;
    values.push((ConfigKey::Target(name.copy()?), None))?;
    values.push((ConfigKey::Connector(name.copy()?), None))?;
    Ok(values)
}
