//! What a task reads or writes.
ghost use Rattle.std.specs.Prelude.{◌≡◌, [], IfOk, if◌then◌else◌};
ghost use Rattle.cw_json.specs.Pairs.{value_in};
ghost use Rattle.cw_plugin.specs.Classes.{row_of, key_of};
ghost use Rattle.cw_plugin.specs.Checks.{is_name};
ghost use Rattle.cw_plugin.specs.Parts.{part_of, parts_behind, parts_unless_repeated, with_parts, pieces, parts_of};
ghost use Rattle.cw_plugin.specs.Parts.{with_value, with_fields, task_batch, task_of_class, task_of};

use crate::class::{Class, Field, row_of, task_class_of};
use crate::lists::{elements, has_repeat};
use crate::numbers::{batch_size, count, part_number};
use cw_json::{Props, Text};
use cw_types::{Listed, Name, PartKey};
use std::alloc::{AllocError, Global};

/// What a task does.
#[derive(Debug, Drop)]
pub struct TaskSpec {
    /// Its connector's class.
    pub class: Class,
    /// What it reads, or what a sink writes.
    pub parts: Listed<PartKey>,
    /// Where a source writes; none for a sink.
    pub topic: Option<Name>,
    /// Where a sink writes; none for a source.
    pub file: Option<Name>,
    /// The most records of a batch.
    pub batch: u32,
    /// How many records each sequence has; 0 for other classes.
    pub count: u64,
}

impl TaskSpec {
    /// A copy.
    pub fn copy(&self, alloc: Global) -> Result<Self, AllocError>
        ensures { IfOk result (λ spec. spec ≡ self.now) }
    {
        Ok(TaskSpec {
            class: self.class,
            parts: copy_of_parts(alloc, &self.parts)?,
            topic: copy_of_name(&self.topic)?,
            file: copy_of_name(&self.file)?,
            batch: self.batch,
            count: self.count,
        })
    }
}

fn copy_of_name(name: &Option<Name>) -> Result<Option<Name>, AllocError>
    ensures { IfOk result (λ copy. copy ≡ name.now) }
{
    match name {
        Some(name) => Ok(Some(name.copy()?)),
        None => Ok(None),
    }
}

fn copy_of_parts(alloc: Global, parts: &Listed<PartKey>) -> Result<Listed<PartKey>, AllocError>
    ensures { IfOk result (λ copy. copy ≡ parts.now) }
{
    let mut copies = Vec::new(alloc);
    for part in parts.as_slice() {
        copies.push(part.copy()?)?;
    }
    Ok(Listed::new(copies))
}

// The name that a text is.
fn name_of(alloc: Global, text: &Text) -> Result<Option<Name>, AllocError>
    ensures { IfOk result (λ name. name ≡ (if is_name text.now then Some text.now else None)) }
{
    Name::from_bytes(alloc, text.as_str().as_bytes())
}

// The feed of a connector that a text names.
fn feed_of(alloc: Global, connector: &Name, text: &Text) -> Result<Option<PartKey>, AllocError>
    ensures { IfOk result (λ part. part ≡ part_of connector.now Field.Feed text.now) }
{
    match name_of(alloc, text)? {
        Some(feed) => Ok(Some(PartKey::File {
            connector: connector.copy()?,
            feed,
        })),
        None => Ok(None),
    }
}

// The topic of a connector that a text names.
fn topic_of(alloc: Global, connector: &Name, text: &Text) -> Result<Option<PartKey>, AllocError>
    ensures { IfOk result (λ part. part ≡ part_of connector.now Field.Topics text.now) }
{
    match name_of(alloc, text)? {
        Some(topic) => Ok(Some(PartKey::Sink {
            connector: connector.copy()?,
            topic,
        })),
        None => Ok(None),
    }
}

// The part of a connector that an element names.
fn part_of(
    alloc: Global,
    connector: &Name,
    field: Field,
    text: &Text,
) -> Result<Option<PartKey>, AllocError>
    ensures { IfOk result (λ part. part ≡ part_of connector.now field text.now) }
{
    match field {
        Field::Feed | Field::Feeds => feed_of(alloc, connector, text),
        Field::Sequences => match part_number(text) {
            Some(index) => Ok(Some(PartKey::Seq {
                connector: connector.copy()?,
                index,
            })),
            None => Ok(None),
        },
        Field::Topics => topic_of(alloc, connector, text),
        Field::Count | Field::Topic | Field::Outlet => Ok(None),
    }
}

// The parts of elements, if each names one.
fn parts_among(
    alloc: Global,
    connector: &Name,
    field: Field,
    texts: &[Text],
) -> Result<Option<Listed<PartKey>>, AllocError>
    ensures { IfOk result (λ parts. parts ≡ parts_behind [] connector.now field texts.now) }
{
    let mut found = Vec::new(alloc);
    for text in texts {
        let Some(part) = part_of(alloc, connector, field, text)? else {
            return Ok(None);
        };
        found.push(part)?;
    }
    Ok(Some(Listed::new(found)))
}

// What names parts in a value.
fn pieces(alloc: Global, field: Field, text: &Text) -> Result<Vec<Text>, AllocError>
    ensures { IfOk result (λ texts. texts.items ≡ pieces field text.now) }
{
    match field {
        Field::Feed => {
            let mut whole = Vec::new(alloc);
            whole.push(text.copy()?)?;
            Ok(whole)
        }
        Field::Feeds | Field::Sequences | Field::Topics => elements(alloc, text.as_str()),
        Field::Count | Field::Topic | Field::Outlet => Ok(Vec::new(alloc)),
    }
}

// The parts of elements, if each names one and none stands twice.
fn parts_unless_repeated(
    alloc: Global,
    connector: &Name,
    field: Field,
    texts: &[Text],
) -> Result<Option<Listed<PartKey>>, AllocError>
    ensures { IfOk result (λ parts. parts ≡ parts_unless_repeated connector.now field texts.now) }
{
    if has_repeat(texts) {
        return Ok(None);
    }
    parts_among(alloc, connector, field, texts)
}

// The parts that a value names.
fn parts_of(
    alloc: Global,
    connector: &Name,
    field: Field,
    text: &Text,
) -> Result<Option<Listed<PartKey>>, AllocError>
    ensures { IfOk result (λ parts. parts ≡ parts_of connector.now field text.now) }
{
    let texts = pieces(alloc, field, text)?;
    parts_unless_repeated(alloc, connector, field, &texts)
}

fn with_parts(spec: TaskSpec, parts: Option<Listed<PartKey>>) -> Option<TaskSpec>
    ensures { result ≡ with_parts spec parts }
{
    match parts {
        Some(parts) => Some(TaskSpec { parts, ..spec }),
        None => None,
    }
}

// What a value adds to a task.
fn with_value(
    alloc: Global,
    connector: &Name,
    spec: TaskSpec,
    field: Field,
    text: &Text,
) -> Result<Option<TaskSpec>, AllocError>
    ensures { IfOk result (λ next. next ≡ with_value connector.now spec field text.now) }
{
    match field {
        Field::Feed | Field::Feeds | Field::Sequences | Field::Topics => {
            let parts = parts_of(alloc, connector, field, text)?;
            Ok(with_parts(spec, parts))
        }
        Field::Count => match count(text) {
            Some(count) => Ok(Some(TaskSpec {
                count: u64::from(count),
                ..spec
            })),
            None => Ok(None),
        },
        Field::Topic => match name_of(alloc, text)? {
            Some(topic) => Ok(Some(TaskSpec {
                topic: Some(topic),
                ..spec
            })),
            None => Ok(None),
        },
        Field::Outlet => match name_of(alloc, text)? {
            Some(file) => Ok(Some(TaskSpec {
                file: Some(file),
                ..spec
            })),
            None => Ok(None),
        },
    }
}

// What the required properties add to a task, if each is there and well formed.
fn with_fields(
    alloc: Global,
    connector: &Name,
    props: &Props,
    spec: TaskSpec,
    fields: &[Field],
) -> Result<Option<TaskSpec>, AllocError>
    ensures { IfOk result (λ next. next ≡ with_fields connector.now props.now spec fields.now) }
{
    let mut made = spec;
    for field in fields {
        let Some(text) = props.get(field.key()) else {
            return Ok(None);
        };
        let Some(next) = with_value(alloc, connector, made, *field, text)? else {
            return Ok(None);
        };
        made = next;
    }
    Ok(Some(made))
}

fn task_batch(props: &Props, class: Class) -> Option<u32>
    ensures { result ≡ task_batch props.now (row_of class) }
{
    if row_of(class).is_source {
        batch_size(props)
    } else {
        Some(2000)
    }
}

// A task of a class.
fn task_of_class(
    alloc: Global,
    connector: &Name,
    props: &Props,
    class: Class,
) -> Result<Option<TaskSpec>, AllocError>
    ensures { IfOk result (λ spec. spec ≡ task_of_class connector.now props.now class) }
{
    let Some(batch) = task_batch(props, class) else {
        return Ok(None);
    };
    let idle = TaskSpec {
        class,
        parts: Listed::new(Vec::new(alloc)),
        topic: None,
        file: None,
        batch,
        count: 0,
    };
    with_fields(alloc, connector, props, idle, row_of(class).fields)
}

/// The task that a task's properties stand for. None where `task.class` is no task class, or a
/// property of that class is missing, or is no name or no number in its range where one is due,
/// or a list has a repeat. A sequence is a number from 0 to 999.
pub fn task_of(
    alloc: Global,
    connector: &Name,
    props: &Props,
) -> Result<Option<TaskSpec>, AllocError>
    ensures { IfOk result (λ spec. spec ≡ task_of connector.now props.now) }
{
    let Some(text) = props.get("task.class") else {
        return Ok(None);
    };
    match task_class_of(text.as_str()) {
        Some(class) => task_of_class(alloc, connector, props, class),
        None => Ok(None),
    }
}
