//! What is kept of the records, so that no look-up walks them.
ghost use Rattle.std.specs.Prelude.{◌≡◌, ℕ, List, ◌++◌, ◌∷◌, [], true, None, Some, IfOk, OnOk, IsSome, option_copied};
ghost use Rattle.std.specs.Prelude.{option_map, option_and_then, is_some, if◌then◌else◌};
ghost use Rattle.std.specs.BTreeMap.{get, is_at};
ghost use Rattle.cw_types.specs.Order.{name_cmp};
ghost use Rattle.cw_types.specs.declared.ids.TaskId.{TaskId};
ghost use Rattle.cw_config.specs.View.{properties_in, count_in, target_in};

use crate::records::ConfigRecord;
use crate::rows::{fill_row, make_row, row_at};
use cw_json::Props;
use cw_keys::{ConfigKey, ConfigValue, Target};
use cw_types::{Name, Past, TaskId};
use std::alloc::{AllocError, Global};
use std::collections::BTreeMap;

/// What a record says of its key.
#[derive(Debug, Drop)]
pub struct Stored {
    /// Its offset.
    pub offset: u64,
    /// Its value; none removes what the key names.
    pub value: Option<ConfigValue>,
}

/// What the records say of a task.
#[derive(Debug, Drop)]
pub struct TaskRow {
    /// The last record.
    pub last: Stored,
    /// Where that waits for a commit: the last one that was committed.
    pub older: Option<Stored>,
}

/// The last record of each key.
#[derive(Drop)]
pub struct Tables {
    /// The configs of connectors.
    pub connectors: BTreeMap<Name, Option<Stored>>,
    /// Their commits.
    pub commits: BTreeMap<Name, Option<Stored>>,
    /// Their target states.
    pub targets: BTreeMap<Name, Option<Stored>>,
    /// Their fences.
    pub fences: BTreeMap<Name, Option<Stored>>,
    /// The configs of tasks.
    pub tasks: BTreeMap<TaskId, Option<TaskRow>>,
    /// The offset of the last record of all.
    pub last: Option<u64>,
}

ghost use Rattle.cw_config.specs.declared.tables.Tables.{Tables};
ghost use Rattle.cw_config.specs.Tables.{value_in, offset_in, is_later, if_later, committed_in, deferred_in};
ghost use Rattle.cw_config.specs.Tables.{row_behind, named_at, task_at, task_order, generation_at, is_deferred};
ghost use Rattle.cw_config.specs.Tables.{have_tasks, HasRow, SameRows, KeepsRows, Keeps, Puts};

/// The properties that a row says.
pub fn properties_at(row: Option<&Stored>) -> Option<&Props>
    ensures { option_map (λ props. props.now) result
        ≡ option_and_then properties_in (value_in (option_copied row.entry)) }
{
    match &row?.value {
        Some(ConfigValue::Connector(props)) | Some(ConfigValue::Task(props)) => Some(props),
        _ => None,
    }
}

/// The number that a row says.
pub fn count_at(row: Option<&Stored>) -> Option<u32>
    ensures { result ≡ option_and_then count_in (value_in (option_copied row.entry)) }
{
    match &row?.value {
        Some(ConfigValue::Commit(count)) | Some(ConfigValue::Fencing(count)) => Some(*count),
        _ => None,
    }
}

/// The target state that a row says.
pub fn target_at(row: Option<&Stored>) -> Option<Target>
    ensures { result ≡ option_and_then target_in (value_in (option_copied row.entry)) }
{
    match &row?.value {
        Some(ConfigValue::Target(target)) => Some(*target),
        _ => None,
    }
}

// Whether it stands behind a generation.
fn is_later(stored: &Stored, generation: Option<u64>) -> bool
    ensures { result ≡ is_later generation stored.now }
{
    match generation {
        Some(generation) => generation < stored.offset,
        None => true,
    }
}

fn if_later(row: Option<&Stored>, generation: Option<u64>) -> Option<&Stored>
    ensures { option_copied result ≡ if_later generation (option_copied row.entry) }
{
    let stored = row?;
    if is_later(stored, generation) {
        Some(stored)
    } else {
        None
    }
}

// What was committed of a task.
fn committed_in(row: Option<&TaskRow>, generation: Option<u64>) -> Option<&Stored>
    ensures { option_copied result ≡ committed_in generation (option_copied row.entry) }
{
    let row = row?;
    if is_later(&row.last, generation) {
        row.older.as_ref()
    } else {
        Some(&row.last)
    }
}

// What waits of a task.
fn deferred_in(row: Option<&TaskRow>, generation: Option<u64>) -> Option<&Stored>
    ensures { option_copied result ≡ deferred_in generation (option_copied row.entry) }
{
    let row = row?;
    if is_later(&row.last, generation) {
        Some(&row.last)
    } else {
        None
    }
}

// A task's row behind one more record: what was committed stays.
fn row_behind(row: Option<TaskRow>, generation: Option<u64>, last: Stored) -> TaskRow
    ensures { result ≡ row_behind generation row last }
{
    match row {
        None => TaskRow { last, older: None },
        Some(row) => {
            if is_later(&row.last, generation) {
                TaskRow {
                    last,
                    older: row.older,
                }
            } else {
                TaskRow {
                    last,
                    older: Some(row.last),
                }
            }
        }
    }
}

// Fills the row of a task.
fn fill_task(
    tasks: &mut BTreeMap<TaskId, Option<TaskRow>>,
    id: &TaskId,
    generation: Option<u64>,
    last: Stored,
)
    requires { IsSome (get task_order tasks.old id.now) }
    ensures { (q : TaskId) → get task_order tasks.new q
        ≡ (if is_at (task_order id.now) q then Some (Some (row_behind generation (task_at tasks.old id.now) last))
        else get task_order tasks.old q) }
{
    if let Some(row) = tasks.get_mut(id) {
        let was = row.take();
        *row = Some(row_behind(was, generation, last));
    }
}

// A row of a name.
fn make_named(table: &mut BTreeMap<Name, Option<Stored>>, name: &Name) -> Result<(), AllocError>
    ensures same { (q : List ℕ) → named_at table.new q ≡ named_at table.old q }
    ensures kept { (q : List ℕ) → IsSome (get name_cmp table.old q) → IsSome (get name_cmp table.new q) }
    ensures there { OnOk result (IsSome (get name_cmp table.new name.now)) }
{
    if table.contains_key(name) {
        return Ok(());
    }
    make_row(table, name.copy()?)
}

// A row of a task.
fn make_task(tasks: &mut BTreeMap<TaskId, Option<TaskRow>>, id: &TaskId) -> Result<(), AllocError>
    ensures same { (q : TaskId) → task_at tasks.new q ≡ task_at tasks.old q }
    ensures kept { (q : TaskId) → IsSome (get task_order tasks.old q) → IsSome (get task_order tasks.new q) }
    ensures there { OnOk result (IsSome (get task_order tasks.new id.now)) }
{
    if tasks.contains_key(id) {
        return Ok(());
    }
    make_row(tasks, id.copy()?)
}

impl Tables {
    /// Without a row.
    pub fn new(alloc: Global) -> Tables
        ensures { Keeps result [] }
    {
        Tables {
            connectors: BTreeMap::new(alloc),
            commits: BTreeMap::new(alloc),
            targets: BTreeMap::new(alloc),
            fences: BTreeMap::new(alloc),
            tasks: BTreeMap::new(alloc),
            last: None,
        }
    }

    /// The generation of a connector's tasks.
    pub fn generation(&self, name: &Name) -> Option<u64>
        ensures { result ≡ generation_at self.now name.now }
    {
        Some(row_at(&self.commits, name)?.offset)
    }

    /// Whether a fence stands behind the generation.
    pub fn is_fenced(&self, name: &Name) -> bool
        ensures { result ≡ is_some (if_later (generation_at self.now name.now) (named_at self.now.fences name.now)) }
    {
        let generation = self.generation(name);
        if_later(row_at(&self.fences, name), generation).is_some()
    }

    /// What was committed of a task.
    pub fn committed(&self, id: &TaskId) -> Option<&Stored>
        ensures { option_copied result
            ≡ committed_in (generation_at self.now id.now.connector) (task_at self.now.tasks id.now) }
    {
        let generation = self.generation(&id.connector);
        committed_in(row_at(&self.tasks, id), generation)
    }

    /// What waits of a task for a commit.
    pub fn deferred(&self, id: &TaskId) -> Option<&Stored>
        ensures { option_copied result
            ≡ deferred_in (generation_at self.now id.now.connector) (task_at self.now.tasks id.now) }
    {
        let generation = self.generation(&id.connector);
        deferred_in(row_at(&self.tasks, id), generation)
    }

    // Whether a task waits for a commit.
    fn is_deferred(&self, id: &TaskId) -> bool
        ensures { result ≡ is_deferred self.now id.now.connector id.now.index }
    {
        self.deferred(id).is_some()
    }

    /// Whether each task below a count waits for a commit.
    pub fn has_tasks(&self, name: &Name, count: u32) -> Result<bool, AllocError>
        ensures { IfOk result (λ has. has ≡ have_tasks self.now name.now count) }
    {
        let mut id = TaskId {
            connector: name.copy()?,
            index: 0,
        };
        for index in 0..count {
            id.index = index;
            if !self.is_deferred(&id) {
                return Ok(false);
            }
        }
        Ok(true)
    }

    /// Makes the row that a record of a key may fill.
    pub fn make_row(&mut self, key: &ConfigKey) -> Result<(), AllocError>
        ensures same { SameRows self.old self.new }
        ensures kept { KeepsRows self.old self.new }
        ensures there { OnOk result (HasRow self.new key.now) }
    {
        match key {
            ConfigKey::Connector(name) => make_named(&mut self.connectors, name),
            ConfigKey::Task(id) => make_task(&mut self.tasks, id),
            ConfigKey::Commit(name) => make_named(&mut self.commits, name),
            ConfigKey::Target(name) => make_named(&mut self.targets, name),
            ConfigKey::Fencing(name) => make_named(&mut self.fences, name),
        }
    }

    /// Fills the row of a record's key.
    pub fn put(&mut self, added: ConfigRecord)
        requires { HasRow self.old added.key }
        ensures put { Puts added self.old self.new }
        ensures kept { KeepsRows self.old self.new }
    {
        let ConfigRecord {
            offset,
            stamp: _,
            key,
            value,
        } = added;
        self.last = Some(offset);
        let stored = Stored { offset, value };
        match key {
            ConfigKey::Connector(name) => fill_row(&mut self.connectors, &name, stored),
            ConfigKey::Task(id) => {
                let generation = self.generation(&id.connector);
                fill_task(&mut self.tasks, &id, generation, stored);
            }
            ConfigKey::Commit(name) => fill_row(&mut self.commits, &name, stored),
            ConfigKey::Target(name) => fill_row(&mut self.targets, &name, stored),
            ConfigKey::Fencing(name) => fill_row(&mut self.fences, &name, stored),
        }
    }
}

ghost use Rattle.cw_config.specs.declared.records.ConfigRecord.{ConfigRecord};
ghost use Rattle.cw_config.specs.Acceptance.{may_follow};

/// One record more, for which there is a row, and which may stand there.
pub fn add(tables: &mut Tables, records: &mut Past<ConfigRecord>, added: ConfigRecord)
    requires row { HasRow tables.old added.key }
    requires follows { may_follow records.old.items added ≡ true }
    requires kept { Keeps tables.old records.old.items }
    ensures items { records.new.items ≡ records.old.items ++ added ∷ [] }
    ensures kept { Keeps tables.new records.new.items }
    ensures rows { KeepsRows tables.old tables.new }
{
    *records = records.and(&added);
    tables.put(added);
}
