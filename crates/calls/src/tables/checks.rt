//! Configs of connectors, and their tasks.

use crate::answer::Answer;
use crate::fault::Fault;
use crate::fields::Fields;
use crate::kinds::class_word;
use cw_json::{Props, Text};
use cw_plugin::{PluginFault, TaskSpec, check_config, is_faultless, task_configs, task_of};
use cw_types::Name;
use std::alloc::Global;

/// `check PROPS FEEDS`: the class, or why the config is none.
pub fn check(alloc: Global, fields: &mut Fields<'_>, answer: &mut Answer) -> Result<(), Fault> {
    let props = fields.props(alloc)?;
    let feeds = fields.names(alloc)?;
    match check_config(alloc, &props, &feeds) {
        Ok(class) => answer.word(class_word(class)),
        Err(fault) => say_fault(&fault, answer),
    }
}

fn say_fault(fault: &PluginFault, answer: &mut Answer) -> Result<(), Fault> {
    match fault {
        PluginFault::NoClass => answer.word("NoClass"),
        PluginFault::UnknownClass => answer.word("UnknownClass"),
        PluginFault::Missing(key) => say_fault_of("Missing", key, answer),
        PluginFault::BadInt(key) => say_fault_of("BadInt", key, answer),
        PluginFault::NoFeed(name) => say_fault_of("NoFeed", name, answer),
        PluginFault::BadName(key) => say_fault_of("BadName", key, answer),
        PluginFault::Memory => Err(Fault::Memory),
    }
}

fn say_fault_of(word: &str, of: &Text, answer: &mut Answer) -> Result<(), Fault> {
    answer.word(word)?;
    answer.json_text(of)
}

/// `tasks PROPS`: the properties of the tasks of a config without a fault.
pub fn tasks(alloc: Global, fields: &mut Fields<'_>, answer: &mut Answer) -> Result<(), Fault> {
    let props = fields.props(alloc)?;
    if !is_faultless(alloc, &props)? {
        return Err(Fault::NoCall);
    }
    say_tasks(&task_configs(alloc, &props)?, answer)
}

fn say_tasks(tasks: &[Props], answer: &mut Answer) -> Result<(), Fault> {
    answer.count(tasks.len())?;
    for task in tasks {
        answer.props(task)?;
    }
    Ok(())
}

/// `task CONNECTOR PROPS`: the task that the properties are, or none.
pub fn task(alloc: Global, fields: &mut Fields<'_>, answer: &mut Answer) -> Result<(), Fault> {
    let connector = fields.name(alloc)?;
    let props = fields.props(alloc)?;
    match task_of(alloc, &connector, &props)? {
        Some(task) => say_task(&task, answer),
        None => answer.word("none"),
    }
}

fn say_task(task: &TaskSpec, answer: &mut Answer) -> Result<(), Fault> {
    answer.word(class_word(task.class))?;
    answer.parts(task.parts.as_slice())?;
    say_some_name(&task.topic, answer)?;
    say_some_name(&task.file, answer)?;
    answer.long(u64::from(task.batch))?;
    answer.long(task.count)
}

fn say_some_name(name: &Option<Name>, answer: &mut Answer) -> Result<(), Fault> {
    match name {
        Some(name) => answer.name(name),
        None => answer.word("#-"),
    }
}
