//! Calls of the state of the config log.

use crate::answer::Answer;
use crate::fault::Fault;
use crate::fields::Fields;
use crate::kinds::target_word;
use crate::states::States;
use cw_config::{ApplyFault, ConfigState};
use cw_types::Name;
use std::alloc::Global;

/// `configs CALL ..`: a record, or a look-up.
pub fn call(
    states: &mut States,
    fields: &mut Fields<'_>,
    answer: &mut Answer,
) -> Result<(), Fault> {
    let alloc = states.alloc;
    match fields.word()? {
        "begin" => {
            states.configs = ConfigState::new(alloc);
            answer.word("ok")
        }
        "apply" => apply(alloc, &mut states.configs, fields, answer),
        word => look_up(alloc, &states.configs, word, fields, answer),
    }
}

fn apply(
    alloc: Global,
    configs: &mut ConfigState,
    fields: &mut Fields<'_>,
    answer: &mut Answer,
) -> Result<(), Fault> {
    let offset = fields.long()?;
    let stamp = fields.long()?;
    let key = fields.text(alloc)?;
    let value = fields.some_text(alloc)?;
    match configs.apply(offset, stamp, &key, value.as_deref()) {
        Ok(()) => answer.word("ok"),
        Err(ApplyFault::BadRecord(at)) => {
            answer.word("BadRecord")?;
            answer.long(at)
        }
        Err(ApplyFault::Memory) => Err(Fault::Memory),
    }
}

fn look_up(
    alloc: Global,
    configs: &ConfigState,
    word: &str,
    fields: &mut Fields<'_>,
    answer: &mut Answer,
) -> Result<(), Fault> {
    match word {
        "next" => answer.some_long(configs.next()),
        "connectors" => say_names(&configs.connectors()?, answer),
        "task" => answer.some_props(configs.task(&fields.task(alloc)?)),
        "deferred" => answer.some_props(configs.deferred(&fields.task(alloc)?)),
        "config" => answer.some_props(configs.config(&fields.name(alloc)?)),
        "state" => say_state(configs, &fields.name(alloc)?, answer),
        _ => Err(Fault::NoCall),
    }
}

fn say_names(names: &[Name], answer: &mut Answer) -> Result<(), Fault> {
    answer.count(names.len())?;
    for name in names {
        answer.name(name)?;
    }
    Ok(())
}

fn say_state(configs: &ConfigState, name: &Name, answer: &mut Answer) -> Result<(), Fault> {
    answer.word(target_word(configs.target(name)))?;
    answer.some_long(configs.generation(name))?;
    answer.long(u64::from(configs.task_count(name)))?;
    answer.long(u64::from(configs.fenced_count(name)))?;
    answer.flag(configs.is_pending(name))
}
