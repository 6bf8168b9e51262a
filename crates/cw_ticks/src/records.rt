//! The records that a proposal is written as (Connect's task configs and commit records in the config topic).
ghost use Rattle.std.specs.Prelude.{◌≡◌, ◌≤◌, ◌-◌, ◌^◌, length, IfOk};
ghost use Rattle.cw_model.specs.Proposals.{task_records};
ghost use Rattle.cw_ticks.specs.Proposed.{task_record};
ghost use Rattle.cw_rest.specs.Operations.{commit_values};

use cw_json::Props;
use cw_keys::{ConfigKey, ConfigValue};
use cw_types::{Name, TaskId};
use std::alloc::{AllocError, Global};

/// A record for each task of a connector, with its config.
pub fn task_records(
    alloc: Global,
    name: &Name,
    proposal: &[Props],
) -> Result<Vec<(ConfigKey, Option<ConfigValue>)>, AllocError>
    requires few { length proposal.now ≤ 2 ^ 32 - 1 }
    ensures { IfOk result (λ records. records.items ≡ task_records name.now proposal.now) }
{
    let mut records = Vec::new(alloc);
    for index in 0..proposal.len() {
        let made = task_record(name, index as u32, &proposal[index])?;
        records.push(made)?;
    }
    Ok(records)
}

// The record of a task.
fn task_record(
    name: &Name,
    index: u32,
    config: &Props,
) -> Result<(ConfigKey, Option<ConfigValue>), AllocError>
    ensures { IfOk result (λ made. made ≡ task_record name.now (index, config.now)) }
{
    let connector = name.copy()?;
    let config = config.copy()?;
    Ok((
        ConfigKey::Task(TaskId { connector, index }),
        Some(ConfigValue::Task(config)),
    ))
}

/// The record that commits so many tasks of a connector.
pub fn commit_values(
    alloc: Global,
    name: &Name,
    count: u32,
) -> Result<Vec<(ConfigKey, Option<ConfigValue>)>, AllocError>
    ensures { IfOk result (λ records. records.items ≡ commit_values name.now count) }
{
    let mut records = Vec::new(alloc);
    records.push((
        ConfigKey::Commit(name.copy()?),
        Some(ConfigValue::Commit(count)),
    ))?;
    Ok(records)
}
