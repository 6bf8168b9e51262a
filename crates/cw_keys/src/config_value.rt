//! Values of the config log.
ghost use Rattle.std.specs.Prelude.{◌≡◌, Some, IfOk, OnOk, option_and_then};
ghost use Rattle.serde_json.specs.View.{view};
ghost use Rattle.cw_json.specs.Reading.{reading};
ghost use Rattle.cw_keys.specs.Configs.{config_value, config_data, config_text, IsCounted};

use crate::config_key::ConfigKey;
use crate::members::{count_at, count_value, properties_of, properties_value, text_of_value};
use crate::target::{Target, target_of, target_value};
use cw_json::{Props, read_value};
use serde_json::Value;
use std::alloc::{AllocError, Global};

/// A value of the config log, of the kind that its key tells.
#[derive(Debug, Drop)]
pub enum ConfigValue {
    /// A connector's properties.
    Connector(Props),
    /// A task's properties.
    Task(Props),
    /// How many tasks the set has that takes effect.
    Commit(u32),
    /// What state the connector is to have.
    Target(Target),
    /// How many tasks the set has whose producers are fenced.
    Fencing(u32),
}

impl ConfigValue {
    /// A copy.
    pub fn copy(&self) -> Result<Self, AllocError>
        ensures { IfOk result (λ value. value ≡ self.now) }
    {
        match self {
            ConfigValue::Connector(props) => Ok(ConfigValue::Connector(props.copy()?)),
            ConfigValue::Task(props) => Ok(ConfigValue::Task(props.copy()?)),
            ConfigValue::Commit(count) => Ok(ConfigValue::Commit(*count)),
            ConfigValue::Target(target) => Ok(ConfigValue::Target(*target)),
            ConfigValue::Fencing(count) => Ok(ConfigValue::Fencing(*count)),
        }
    }
}

// The value that JSON tells under a key.
fn value_in(
    alloc: Global,
    key: &ConfigKey,
    value: &Value,
) -> Result<Option<ConfigValue>, AllocError>
    ensures { IfOk result (λ found. found ≡ config_value key.now (view value.now)) }
{
    match key {
        ConfigKey::Connector(_) => Ok(properties_of(alloc, value)?.map(ConfigValue::Connector)),
        ConfigKey::Task(_) => Ok(properties_of(alloc, value)?.map(ConfigValue::Task)),
        ConfigKey::Commit(_) => Ok(count_at("tasks", value).map(ConfigValue::Commit)),
        ConfigKey::Target(_) => Ok(target_of(value).map(ConfigValue::Target)),
        ConfigKey::Fencing(_) => Ok(count_at("task-count", value).map(ConfigValue::Fencing)),
    }
}

// The value that a text is under a key.
pub(crate) fn read_value_of(
    alloc: Global,
    key: &ConfigKey,
    text: &[u8],
) -> Result<Option<ConfigValue>, AllocError>
    ensures { IfOk result (λ found. found ≡ option_and_then (config_value key.now) (reading text.now)) }
{
    match read_value(alloc, text)? {
        Some(value) => value_in(alloc, key, &value),
        None => Ok(None),
    }
}

// The JSON that is written for a value.
fn value_json(alloc: Global, value: &ConfigValue) -> Result<Value, AllocError>
    ensures json { IfOk result (λ json. view json ≡ config_data value.now) }
    ensures counted { OnOk result (IsCounted value.now) }
{
    match value {
        ConfigValue::Connector(props) | ConfigValue::Task(props) => properties_value(alloc, props),
        ConfigValue::Commit(count) => count_value(alloc, "tasks", u64::from(*count)),
        ConfigValue::Target(target) => target_value(alloc, *target),
        ConfigValue::Fencing(count) => count_value(alloc, "task-count", u64::from(*count)),
    }
}

// The text of a value.
pub(crate) fn write_value(alloc: Global, value: &ConfigValue) -> Result<Vec<u8>, AllocError>
    ensures text { IfOk result (λ text. text.items ≡ config_text value.now) }
    ensures again { IfOk result (λ text. reading text.items ≡ Some (config_data value.now)) }
    ensures counted { OnOk result (IsCounted value.now) }
{
    let json = value_json(alloc, value)?;
    text_of_value(alloc, &json)
}
