//! Keys of the config log.
ghost use Rattle.std.specs.Prelude.{◌≡◌, IfOk, OnOk, option_map};
ghost use Rattle.cw_types.specs.Name.{name_of};
ghost use Rattle.cw_keys.specs.declared.config_key.ConfigKey.TheVariants.{Commit, Target, Fencing};
ghost use Rattle.cw_keys.specs.ConfigKeys.{set_key, config_key, config_key_text, IsConfigKey, may_be_removed};

use crate::names::{read_task, text_and_name, text_and_task};
use cw_types::{Name, TaskId};
use std::alloc::{AllocError, Global};

/// A key of the config log.
#[derive(Debug, PartialEq, Eq, Drop)]
pub enum ConfigKey {
    /// `connector-NAME`: a connector's config.
    Connector(Name),
    /// `task-NAME-INDEX`: the config of one of its tasks.
    Task(TaskId),
    /// `commit-NAME`: the set of its tasks takes effect.
    Commit(Name),
    /// `target-state-NAME`: what state the connector is to have.
    Target(Name),
    /// `tasks-fencing-NAME`: the producers of its earlier tasks are fenced (KIP-618).
    Fencing(Name),
}

impl ConfigKey {
    /// A copy.
    pub fn copy(&self) -> Result<Self, AllocError>
        ensures { IfOk result (λ key. key ≡ self.now) }
    {
        match self {
            ConfigKey::Connector(name) => Ok(ConfigKey::Connector(name.copy()?)),
            ConfigKey::Task(id) => Ok(ConfigKey::Task(id.copy()?)),
            ConfigKey::Commit(name) => Ok(ConfigKey::Commit(name.copy()?)),
            ConfigKey::Target(name) => Ok(ConfigKey::Target(name.copy()?)),
            ConfigKey::Fencing(name) => Ok(ConfigKey::Fencing(name.copy()?)),
        }
    }
}

fn commit_key(alloc: Global, name: &[u8]) -> Result<Option<ConfigKey>, AllocError>
    ensures { IfOk result (λ key. key ≡ option_map Commit (name_of name.now)) }
{
    Ok(Name::from_bytes(alloc, name)?.map(ConfigKey::Commit))
}

fn target_key(alloc: Global, name: &[u8]) -> Result<Option<ConfigKey>, AllocError>
    ensures { IfOk result (λ key. key ≡ option_map Target (name_of name.now)) }
{
    Ok(Name::from_bytes(alloc, name)?.map(ConfigKey::Target))
}

fn fencing_key(alloc: Global, name: &[u8]) -> Result<Option<ConfigKey>, AllocError>
    ensures { IfOk result (λ key. key ≡ option_map Fencing (name_of name.now)) }
{
    Ok(Name::from_bytes(alloc, name)?.map(ConfigKey::Fencing))
}

// The key of a set of tasks or of a target state that bytes are.
fn read_set_key(alloc: Global, bytes: &[u8]) -> Result<Option<ConfigKey>, AllocError>
    ensures { IfOk result (λ key. key ≡ set_key bytes.now) }
{
    if bytes.starts_with(b"commit-") {
        commit_key(alloc, &bytes[7..])
    } else if bytes.starts_with(b"target-state-") {
        target_key(alloc, &bytes[13..])
    } else if bytes.starts_with(b"tasks-fencing-") {
        fencing_key(alloc, &bytes[14..])
    } else {
        Ok(None)
    }
}

/// The key that bytes are, where they are one. Its only error is want of memory.
pub fn read_config_key(alloc: Global, bytes: &[u8]) -> Result<Option<ConfigKey>, AllocError>
    ensures { IfOk result (λ key. key ≡ config_key bytes.now) }
{
    if bytes.starts_with(b"connector-") {
        Ok(Name::from_bytes(alloc, &bytes[10..])?.map(ConfigKey::Connector))
    } else if bytes.starts_with(b"task-") {
        Ok(read_task(alloc, &bytes[5..])?.map(ConfigKey::Task))
    } else {
        read_set_key(alloc, bytes)
    }
}

// The bytes of a key.
pub(crate) fn write_key(alloc: Global, key: &ConfigKey) -> Result<Vec<u8>, AllocError>
    ensures text { IfOk result (λ bytes. bytes.items ≡ config_key_text key.now) }
    ensures key { OnOk result (IsConfigKey key.now) }
{
    match key {
        ConfigKey::Connector(name) => text_and_name(alloc, b"connector-", name),
        ConfigKey::Task(id) => text_and_task(alloc, b"task-", id),
        ConfigKey::Commit(name) => text_and_name(alloc, b"commit-", name),
        ConfigKey::Target(name) => text_and_name(alloc, b"target-state-", name),
        ConfigKey::Fencing(name) => text_and_name(alloc, b"tasks-fencing-", name),
    }
}

// Whether a record without a value may stand under a key.
pub(crate) fn may_be_removed(key: &ConfigKey) -> bool
    ensures { result ≡ may_be_removed key.now }
{
    matches!(key, ConfigKey::Connector(_) | ConfigKey::Target(_))
}
