//! The config log.
ghost use Rattle.std.specs.Prelude.{◌≡◌, ◌↔◌, ℕ, List, [], Option, Some, None, IfOk, IsTrue, IsSome};
ghost use Rattle.std.specs.Prelude.{if◌then◌else◌};
ghost use Rattle.cw_keys.specs.declared.config_key.ConfigKey.{ConfigKey};
ghost use Rattle.cw_config.specs.declared.records.ConfigRecord.{ConfigRecord};
ghost use Rattle.cw_config.specs.Compaction.{config_in, configs_in};
ghost use Rattle.cw_config.specs.View.{target_of, generation_of, task_count_of};
ghost use Rattle.cw_plugin.specs.Parts.{task_of};
ghost use Rattle.cw_model.specs.ConfigsAllowed.{IsAllowedConfig, AreAllowedConfigs, FitsBehind, FitsCommit, FitsTarget};
ghost use Rattle.cw_model.specs.ConfigsAllowed.{FitsFence};
ghost use Rattle.cw_model.specs.StandsFor.{judged, IsAllowedFrame};
ghost use Rattle.cw_open.specs.Judging.{Says, Steps};
ghost use Rattle.cw_open.specs.PassedConfigs.{TakesConfig, TakesConfigs, MayBeStopped, with_config};

use crate::waiting::have_tasks_apart;
use cw_bytes::Applied;
use cw_config::{ApplyFault, ConfigRecord, ConfigState, record_in};
use cw_json::Props;
use cw_keys::{ConfigKey, ConfigValue, Target};
use cw_plugin::{is_faultless, task_of};
use cw_types::{Listed, Name};
use std::alloc::{AllocError, Global};

/// The first frame of the config log with a record that may not stand behind those before it. A config is one that its
/// class takes, whether or not the feeds that it names are loaded; a commit finds its tasks, no two of which share a
/// part (Connect's config topic); and a stopped connector has no tasks (KIP-875).
pub fn first_configs_not_allowed(
    alloc: Global,
    frames: &[Listed<Applied>],
) -> Result<Option<u64>, AllocError>
    ensures { IfOk result (Says (judged (λ before frame. IsAllowedFrame (configs_in before) frame) frames.now)) }
{
    let mut passed = ConfigState::new(alloc);
    for at in 0..frames.len() {
        if !take_frame(alloc, &mut passed, frames[at].as_slice())? {
            return Ok(Some(at as u64));
        }
    }
    Ok(None)
}

fn take_frame(
    alloc: Global,
    passed: &mut ConfigState,
    frame: &[Applied],
) -> Result<bool, AllocError>
    requires { AreAllowedConfigs [] passed.old }
    ensures { IfOk result (TakesConfigs passed.old frame.now passed.new) }
{
    for at in 0..frame.len() {
        if !take_config(alloc, passed, &frame[at])? {
            return Ok(false);
        }
    }
    Ok(true)
}

fn take_config(
    alloc: Global,
    passed: &mut ConfigState,
    applied: &Applied,
) -> Result<bool, AllocError>
    requires { AreAllowedConfigs [] passed.old }
    ensures { IfOk result (TakesConfig passed.old applied.now passed.new) }
{
    match record_in(alloc, applied)? {
        Some(read) => {
            let taken = take_record(alloc, passed, applied, &read)?;
            Ok(taken)
        }
        None => Ok(false),
    }
}

// Takes a record, as it was read, where it may stand.
fn take_record(
    alloc: Global,
    passed: &mut ConfigState,
    applied: &Applied,
    added: &ConfigRecord,
) -> Result<bool, AllocError>
    requires read { config_in applied.now ≡ Some added.now }
    requires allowed { AreAllowedConfigs [] passed.old }
    ensures { IfOk result (Steps IsAllowedConfig passed.old added.now passed.new) }
{
    if !fits_behind(alloc, passed, added)? {
        return Ok(false);
    }
    let taken = apply(passed, applied)?;
    Ok(taken)
}

// Applies a record, where its offset is above all earlier ones, and a commit finds its tasks.
fn apply(passed: &mut ConfigState, applied: &Applied) -> Result<bool, AllocError>
    ensures { IfOk result (λ yes.
        with_config passed.old applied.now ≡ (if yes then Some passed.new else None)) }
{
    match passed.apply(
        applied.offset,
        applied.stamp,
        applied.key.as_slice(),
        applied.text(),
    ) {
        Ok(()) => Ok(true),
        Err(ApplyFault::BadRecord(_)) => Ok(false),
        Err(ApplyFault::Memory) => Err(AllocError),
    }
}

// Whether a record's value may stand behind these under its key.
fn fits_behind(
    alloc: Global,
    passed: &ConfigState,
    added: &ConfigRecord,
) -> Result<bool, AllocError>
    requires { AreAllowedConfigs [] passed.now }
    ensures { IfOk result (λ fits. IsTrue fits ↔ FitsBehind passed.now added.now.key added.now.value) }
{
    match &added.key {
        ConfigKey::Connector(_) => {
            let fits = fits_connector(alloc, &added.value)?;
            Ok(fits)
        }
        ConfigKey::Task(id) => {
            let fits = fits_task(alloc, &id.connector, &added.value)?;
            Ok(fits)
        }
        ConfigKey::Commit(name) => {
            let fits = fits_commit(alloc, passed, name, &added.value)?;
            Ok(fits)
        }
        ConfigKey::Target(name) => Ok(fits_target(passed, name, &added.value)),
        ConfigKey::Fencing(name) => Ok(fits_fence(passed, name, &added.value)),
    }
}

fn fits_connector(alloc: Global, value: &Option<ConfigValue>) -> Result<bool, AllocError>
    ensures { IfOk result (λ fits. (before : List ConfigRecord) (name : List ℕ) →
        IsTrue fits ↔ FitsBehind before (ConfigKey.Connector name) value.now) }
{
    match value {
        Some(ConfigValue::Connector(props)) => is_faultless(alloc, props),
        _ => Ok(true),
    }
}

fn fits_task(
    alloc: Global,
    connector: &Name,
    value: &Option<ConfigValue>,
) -> Result<bool, AllocError>
    ensures { IfOk result (λ fits. (before : List ConfigRecord) (index : ℕ) → IsTrue fits ↔
        FitsBehind before (ConfigKey.Task (record { connector = connector.now; index = index })) value.now) }
{
    match value {
        Some(ConfigValue::Task(props)) => is_task(alloc, connector, props),
        _ => Ok(true),
    }
}

fn is_task(alloc: Global, connector: &Name, props: &Props) -> Result<bool, AllocError>
    ensures { IfOk result (λ is. IsTrue is ↔ IsSome (task_of connector.now props.now)) }
{
    let task = task_of(alloc, connector, props)?;
    Ok(task.is_some())
}

fn fits_commit(
    alloc: Global,
    passed: &ConfigState,
    name: &Name,
    value: &Option<ConfigValue>,
) -> Result<bool, AllocError>
    requires { AreAllowedConfigs [] passed.now }
    ensures { IfOk result (λ fits. IsTrue fits ↔ FitsBehind passed.now (ConfigKey.Commit name.now) value.now) }
{
    match value {
        Some(value) => {
            let fits = fits_commit_of(alloc, passed, name, value)?;
            Ok(fits)
        }
        None => Ok(true),
    }
}

fn fits_commit_of(
    alloc: Global,
    passed: &ConfigState,
    name: &Name,
    value: &ConfigValue,
) -> Result<bool, AllocError>
    requires { AreAllowedConfigs [] passed.now }
    ensures { IfOk result (λ fits. IsTrue fits ↔
        FitsBehind passed.now (ConfigKey.Commit name.now) (Some value.now)) }
{
    match value {
        ConfigValue::Commit(count) => {
            let fits = fits_count(alloc, passed, name, *count)?;
            Ok(fits)
        }
        _ => Ok(true),
    }
}

fn fits_count(
    alloc: Global,
    passed: &ConfigState,
    name: &Name,
    count: u32,
) -> Result<bool, AllocError>
    requires { AreAllowedConfigs [] passed.now }
    ensures { IfOk result (λ fits. IsTrue fits ↔ FitsCommit passed.now name.now count) }
{
    if !may_be_stopped(passed, name, count) {
        return Ok(false);
    }
    let apart = have_tasks_apart(alloc, passed, name, count)?;
    Ok(apart)
}

// Whether a connector with so many tasks may be stopped, if it is.
fn may_be_stopped(passed: &ConfigState, name: &Name, count: u32) -> bool
    ensures { IsTrue result ↔ MayBeStopped (target_of name.now passed.now) count }
{
    !is_stopped(passed.target(name)) || count == 0
}

fn is_stopped(target: Target) -> bool
    ensures { IsTrue result ↔ (target ≡ Target.Stopped) }
{
    match target {
        Target::Started => false,
        Target::Paused => false,
        Target::Stopped => true,
    }
}

fn fits_target(passed: &ConfigState, name: &Name, value: &Option<ConfigValue>) -> bool
    ensures { IsTrue result ↔ FitsBehind passed.now (ConfigKey.Target name.now) value.now }
{
    match value {
        Some(ConfigValue::Target(target)) => may_have_target(passed, name, *target),
        _ => true,
    }
}

fn may_have_target(passed: &ConfigState, name: &Name, target: Target) -> bool
    ensures { IsTrue result ↔ FitsTarget passed.now name.now target }
{
    !is_stopped(target) || passed.task_count(name) == 0
}

fn fits_fence(passed: &ConfigState, name: &Name, value: &Option<ConfigValue>) -> bool
    ensures { IsTrue result ↔ FitsBehind passed.now (ConfigKey.Fencing name.now) value.now }
{
    match value {
        Some(ConfigValue::Fencing(count)) => may_fence(passed, name, *count),
        _ => true,
    }
}

fn may_fence(passed: &ConfigState, name: &Name, count: u32) -> bool
    ensures { IsTrue result ↔ FitsFence passed.now name.now count }
{
    passed.generation(name).is_none() || count == passed.task_count(name)
}
