//! Records of the config log.

use crate::answer::Answer;
use crate::fault::Fault;
use crate::fields::Fields;
use crate::kinds::target_word;
use cw_keys::{ConfigKey, ConfigValue, KeyFault, read_config, write_config};
use std::alloc::Global;

/// `config KEY VALUE`: what the record says and how it is written, or why it says nothing.
pub fn read(alloc: Global, fields: &mut Fields<'_>, answer: &mut Answer) -> Result<(), Fault> {
    let key = fields.text(alloc)?;
    let value = fields.some_text(alloc)?;
    match read_config(alloc, &key, value.as_deref()) {
        Ok((key, value)) => {
            say_key(&key.copy()?, answer)?;
            say_value(value.as_ref(), answer)?;
            let (key, value) = write_config(alloc, &key, value.as_ref()).map_err(fault_of)?;
            answer.text(&key)?;
            answer.some_text(value.as_deref())
        }
        Err(fault) => say_fault(fault, answer),
    }
}

fn fault_of(_: KeyFault) -> Fault {
    Fault::Memory
}

/// Says why a key or a value of a log is none.
pub fn say_fault(fault: KeyFault, answer: &mut Answer) -> Result<(), Fault> {
    match fault {
        KeyFault::BadKey => answer.word("BadKey"),
        KeyFault::BadValue => answer.word("BadValue"),
        KeyFault::Memory => Err(Fault::Memory),
    }
}

fn say_key(key: &ConfigKey, answer: &mut Answer) -> Result<(), Fault> {
    let (kind, name) = match key {
        ConfigKey::Connector(name) => ("connector", name),
        ConfigKey::Commit(name) => ("commit", name),
        ConfigKey::Target(name) => ("target", name),
        ConfigKey::Fencing(name) => ("fencing", name),
        ConfigKey::Task(id) => {
            answer.word("task")?;
            return answer.task(id);
        }
    };
    answer.word(kind)?;
    answer.name(name)
}

fn say_value(value: Option<&ConfigValue>, answer: &mut Answer) -> Result<(), Fault> {
    match value {
        None => answer.word("tombstone"),
        Some(value) => say_some(&value.copy()?, answer),
    }
}

fn say_some(value: &ConfigValue, answer: &mut Answer) -> Result<(), Fault> {
    match value {
        ConfigValue::Connector(props) | ConfigValue::Task(props) => answer.props(props),
        ConfigValue::Commit(count) | ConfigValue::Fencing(count) => answer.long(u64::from(*count)),
        ConfigValue::Target(target) => answer.word(target_word(*target)),
    }
}
