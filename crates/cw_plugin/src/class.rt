//! The table of connector classes.
ghost use Rattle.std.specs.Prelude.{◌≡◌, bytes_eq, option_map};
ghost use Rattle.cw_plugin.specs.Classes.{row_of, key_of, task_key, is_list, is_called, is_text, class_of, class_among};
ghost use Rattle.cw_plugin.specs.Classes.{task_class_of, task_class_among};

/// A connector class.
#[derive(Clone, Copy, Debug, PartialEq, Eq, Drop)]
pub enum Class {
    /// Reads the lines of one feed into a topic, in one task. Kafka's own class.
    FileStreamSource,
    /// Reads the lines of several feeds into a topic; its tasks share the feeds.
    FileSetSource,
    /// Writes numbered sequences into a topic; its tasks share the sequences.
    SequenceSource,
    /// Writes the records of topics into a file; its tasks share the topics. Kafka's own class.
    FileStreamSink,
}

impl Class {
    /// Whether its connectors are sources; those of the others are sinks.
    pub fn is_source(self) -> bool
        ensures { result ≡ (row_of self).is_source }
    {
        row_of(self).is_source
    }
}

/// A property that a class requires.
#[derive(Clone, Copy, Debug, PartialEq, Eq, Drop)]
pub enum Field {
    /// `file`, a feed.
    Feed,
    /// `files`, a list of feeds.
    Feeds,
    /// `partitions`, how many sequences there are.
    Sequences,
    /// `count`, how many records a sequence has.
    Count,
    /// `topic`, where a source writes.
    Topic,
    /// `file`, where a sink writes.
    Outlet,
    /// `topics`, a list of what a sink reads.
    Topics,
}

impl Field {
    // The property's key.
    pub(crate) fn key(self) -> &'static str
        ensures { result.now ≡ key_of self }
    {
        match self {
            Field::Feed | Field::Outlet => "file",
            Field::Feeds => "files",
            Field::Sequences => "partitions",
            Field::Count => "count",
            Field::Topic => "topic",
            Field::Topics => "topics",
        }
    }

    // Whether its value is a list.
    pub(crate) fn is_list(self) -> bool
        ensures { result ≡ is_list self }
    {
        matches!(self, Field::Feeds | Field::Topics)
    }
}

/// A property of a task.
#[derive(Clone, Copy, Debug, PartialEq, Eq, Drop)]
pub enum TaskField {
    /// `task.class`, what its class's tasks are called.
    TaskClass,
    /// `batch.size`, where its connector has one.
    BatchSize,
    /// A required property, as its connector has it.
    Whole(Field),
    /// A list, of which a task has its group.
    Group(Field),
}

impl TaskField {
    // The property's key.
    pub(crate) fn key(self) -> &'static str
        ensures { result.now ≡ task_key self }
    {
        match self {
            TaskField::TaskClass => "task.class",
            TaskField::BatchSize => "batch.size",
            TaskField::Whole(field) | TaskField::Group(field) => field.key(),
        }
    }
}

// A row of the table of classes.
#[derive(Clone, Copy, Drop)]
pub(crate) struct Row {
    pub(crate) name: &'static str,
    pub(crate) simple: Option<&'static str>,
    pub(crate) full: Option<&'static str>,
    pub(crate) task: &'static str,
    pub(crate) is_source: bool,
    pub(crate) fields: &'static [Field],
    pub(crate) shared: Option<Field>,
    pub(crate) task_fields: &'static [TaskField],
}

// The table: a further class is a variant, its row, and its place among `CLASSES`.
pub(crate) fn row_of(class: Class) -> Row
    ensures name { result.name.now ≡ (row_of class).name }
    ensures simple { option_map (λ name. name.now) result.simple ≡ (row_of class).simple }
    ensures full { option_map (λ name. name.now) result.full ≡ (row_of class).full }
    ensures task { result.task.now ≡ (row_of class).task }
    ensures source { result.is_source ≡ (row_of class).is_source }
    ensures fields { result.fields.now ≡ (row_of class).fields }
    ensures shared { result.shared ≡ (row_of class).shared }
    ensures task_fields { result.task_fields.now ≡ (row_of class).task_fields }
{
    match class {
        Class::FileStreamSource => Row {
            name: "FileStreamSource",
            simple: Some("FileStreamSourceConnector"),
            full: Some("org.apache.kafka.connect.file.FileStreamSourceConnector"),
            task: "FileStreamSourceTask",
            is_source: true,
            fields: &[Field::Feed, Field::Topic],
            shared: None,
            task_fields: &[
                TaskField::BatchSize,
                TaskField::Whole(Field::Feed),
                TaskField::TaskClass,
                TaskField::Whole(Field::Topic),
            ],
        },
        Class::FileSetSource => Row {
            name: "FileSetSource",
            simple: None,
            full: None,
            task: "FileSetSourceTask",
            is_source: true,
            fields: &[Field::Feeds, Field::Topic],
            shared: Some(Field::Feeds),
            task_fields: &[
                TaskField::BatchSize,
                TaskField::Group(Field::Feeds),
                TaskField::TaskClass,
                TaskField::Whole(Field::Topic),
            ],
        },
        Class::SequenceSource => Row {
            name: "SequenceSource",
            simple: None,
            full: None,
            task: "SequenceSourceTask",
            is_source: true,
            fields: &[Field::Sequences, Field::Count, Field::Topic],
            shared: Some(Field::Sequences),
            task_fields: &[
                TaskField::BatchSize,
                TaskField::Whole(Field::Count),
                TaskField::Group(Field::Sequences),
                TaskField::TaskClass,
                TaskField::Whole(Field::Topic),
            ],
        },
        Class::FileStreamSink => Row {
            name: "FileStreamSink",
            simple: Some("FileStreamSinkConnector"),
            full: Some("org.apache.kafka.connect.file.FileStreamSinkConnector"),
            task: "FileStreamSinkTask",
            is_source: false,
            fields: &[Field::Outlet, Field::Topics],
            shared: Some(Field::Topics),
            task_fields: &[
                TaskField::Whole(Field::Outlet),
                TaskField::TaskClass,
                TaskField::Group(Field::Topics),
            ],
        },
    }
}

const CLASSES: [Class; 4] = [
    Class::FileStreamSource,
    Class::FileSetSource,
    Class::SequenceSource,
    Class::FileStreamSink,
];

fn is_text(name: Option<&str>, text: &str) -> bool
    ensures { result ≡ is_text (option_map (λ it. it.now) name.entry) text.now }
{
    match name {
        Some(name) => name == text,
        None => false,
    }
}

// Whether a class is called so.
fn is_called(class: Class, text: &str) -> bool
    ensures { result ≡ is_called (row_of class) text.now }
{
    let row = row_of(class);
    if row.name == text {
        return true;
    }
    if is_text(row.simple, text) {
        return true;
    }
    is_text(row.full, text)
}

fn is_called_task(class: Class, text: &str) -> bool
    ensures { result ≡ bytes_eq (row_of class).task text.now }
{
    row_of(class).task == text
}

// The first of some classes that is called so.
fn class_among(classes: &[Class], text: &str) -> Option<Class>
    ensures { result ≡ class_among classes.now text.now }
{
    for class in classes {
        if is_called(*class, text) {
            return Some(*class);
        }
    }
    None
}

// The class that is called so.
pub(crate) fn class_of(text: &str) -> Option<Class>
    ensures { result ≡ class_of text.now }
{
    class_among(&CLASSES, text)
}

// The first of some classes whose tasks are called so.
fn task_class_among(classes: &[Class], text: &str) -> Option<Class>
    ensures { result ≡ task_class_among classes.now text.now }
{
    for class in classes {
        if is_called_task(*class, text) {
            return Some(*class);
        }
    }
    None
}

// The class whose tasks are called so.
pub(crate) fn task_class_of(text: &str) -> Option<Class>
    ensures { result ≡ task_class_of text.now }
{
    task_class_among(&CLASSES, text)
}
