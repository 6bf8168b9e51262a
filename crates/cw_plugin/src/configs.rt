//! The properties of a connector's tasks.
ghost use Rattle.std.specs.Prelude.{◌≡◌, ◌++◌, IfOk, OnOk, map};
ghost use Rattle.std.specs.List.{filter_map};
ghost use Rattle.std.specs.Option.{option_to_list, option_copied};
ghost use Rattle.cw_json.specs.Pairs.{value_in};
ghost use Rattle.cw_plugin.specs.Classes.{row_of};
ghost use Rattle.cw_plugin.specs.Tasks.{IsFaultless, AreTaskConfigs, AreApart, HaveAllParts, class_in};
ghost use Rattle.cw_plugin.specs.Tasks.{configs_of_class, task_config, task_configs, task_pair, task_value};

use crate::class::{Class, TaskField, class_of, row_of};
use crate::shares::shares;
use cw_json::{Props, Text};
use std::alloc::{AllocError, Global};

// A copy of a value, if there is one.
fn copy_of(text: Option<&Text>) -> Result<Option<Text>, AllocError>
    ensures { IfOk result (λ copied. copied ≡ option_copied text.entry) }
{
    match text {
        Some(text) => Ok(Some(text.copy()?)),
        None => Ok(None),
    }
}

// The value of a task's property, if it has one.
fn task_value(
    alloc: Global,
    props: &Props,
    class: Class,
    share: &Text,
    field: TaskField,
) -> Result<Option<Text>, AllocError>
    ensures { IfOk result (λ value. value ≡ task_value props.now (row_of class) share.now field) }
{
    match field {
        TaskField::TaskClass => Ok(Some(Text::of(alloc, row_of(class).task)?)),
        TaskField::BatchSize => copy_of(props.get("batch.size")),
        TaskField::Whole(field) => copy_of(props.get(field.key())),
        TaskField::Group(_) => Ok(Some(share.copy()?)),
    }
}

// Adds a task's property, if it has it.
fn add_pair(
    alloc: Global,
    pairs: &mut Vec<(Text, Text)>,
    props: &Props,
    class: Class,
    share: &Text,
    field: TaskField,
) -> Result<(), AllocError>
    ensures { OnOk result (pairs.new.items ≡
        pairs.old.items ++ option_to_list (task_pair props.now (row_of class) share.now field)) }
{
    match task_value(alloc, props, class, share, field)? {
        Some(value) => {
            pairs.push((Text::of(alloc, field.key())?, value))?;
            Ok(())
        }
        None => Ok(()),
    }
}

// The properties of a task that it has.
fn task_pairs(
    alloc: Global,
    props: &Props,
    class: Class,
    share: &Text,
    fields: &[TaskField],
) -> Result<Vec<(Text, Text)>, AllocError>
    ensures { IfOk result (λ pairs.
        pairs.items ≡ filter_map (task_pair props.now (row_of class) share.now) fields.now) }
{
    let mut pairs = Vec::new(alloc);
    for field in fields {
        add_pair(alloc, &mut pairs, props, class, share, *field)?;
    }
    Ok(pairs)
}

// The properties of a task with its share.
fn task_config(
    alloc: Global,
    props: &Props,
    class: Class,
    share: &Text,
) -> Result<Props, AllocError>
    ensures { IfOk result (λ config. config ≡ task_config props.now (row_of class) share.now) }
{
    let pairs = task_pairs(alloc, props, class, share, row_of(class).task_fields)?;
    Ok(Props::new(pairs))
}

// The properties of the tasks with these shares.
fn configs_of_shares(
    alloc: Global,
    props: &Props,
    class: Class,
    shares: &[Text],
) -> Result<Vec<Props>, AllocError>
    ensures { IfOk result (λ configs. configs.items ≡ map (task_config props.now (row_of class)) shares.now) }
{
    let mut configs = Vec::new(alloc);
    for share in shares {
        configs.push(task_config(alloc, props, class, share)?)?;
    }
    Ok(configs)
}

// The properties of each task of a class.
fn configs_of_class(alloc: Global, props: &Props, class: Class) -> Result<Vec<Props>, AllocError>
    ensures { IfOk result (λ configs. configs.items ≡ configs_of_class props.now (row_of class)) }
{
    let found = shares(alloc, props, class)?;
    configs_of_shares(alloc, props, class, &found)
}

impl Class {
    /// The class that a connector's config names, by any of its names, if it names one.
    pub fn named_by(props: &Props) -> Option<Class>
        ensures { result ≡ class_in props.now }
    {
        match props.get("connector.class") {
            Some(text) => class_of(text.as_str()),
            None => None,
        }
    }
}

/// The properties of each task of a connector whose config has no fault, its feeds put aside, as a
/// config has of which `check_config` gave the class. What the class's tasks share out is parted into
/// as many contiguous groups as there may be tasks, if there are as many elements; the first groups
/// have one more where they aren't even. `task_of` takes each, no part is in two of them, and all parts of
/// the config are in one.
pub fn task_configs(alloc: Global, props: &Props) -> Result<Vec<Props>, AllocError>
    requires { IsFaultless props.now }
    ensures configs { IfOk result (λ configs. configs.items ≡ task_configs props.now) }
    ensures tasks { IfOk result (λ configs. AreTaskConfigs configs.items) }
    ensures apart { IfOk result (λ configs. AreApart configs.items) }
    ensures whole { IfOk result (λ configs. HaveAllParts props.now configs.items) }
{
    match Class::named_by(props) {
        Some(class) => configs_of_class(alloc, props, class),
        None => Ok(Vec::new(alloc)),
    }
}
