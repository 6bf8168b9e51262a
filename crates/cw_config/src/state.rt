//! The state that the config log's records build up.
ghost use Rattle.std.specs.Prelude.{◌≡◌, [], ℕ, true, None, Some, Err, IfOk, OnOk, OnErr, IfErr, nat_le, option_map};
ghost use Rattle.cw_config.specs.View.{config_of, target_of, generation_of, task_count_of, fenced_count_of, task_of};
ghost use Rattle.cw_config.specs.View.{deferred_of, is_pending};
ghost use Rattle.cw_config.specs.Acceptance.{applied, next_of, end_of, has_tasks, is_backed, may_follow};
ghost use Rattle.cw_config.specs.Connectors.{AreConnectors};

use crate::fault::ApplyFault;
use crate::records::{ConfigRecord, read_record};
use crate::reserved::{ReservedConfigs, make_rows};
use crate::rows::row_at;
use crate::tables::{Tables, add, count_at, properties_at, target_at};
use cw_json::Props;
use cw_keys::{ConfigKey, ConfigValue, Target};
use cw_types::{Name, Past, TaskId};
use std::alloc::{AllocError, Global};
use std::marker::Model;

/// What the records of the config log say of each connector. Clauses see the records that were accepted,
/// the oldest first; at run time it keeps one value a key, and of a task beside what waits for a commit what
/// was committed. Look-ups take no memory and never walk the records.
#[derive(Drop)]
pub struct ConfigState {
    pub(crate) alloc: Global,
    pub(crate) records: Past<ConfigRecord>,
    pub(crate) tables: Tables,
}

impl Model for ConfigState {
    ghost use Rattle.std.specs.Prelude.{List};
    ghost use Rattle.cw_config.specs.declared.records.ConfigRecord.{ConfigRecord};

    ghost Value = { List ConfigRecord };

    ghost use Rattle.cw_config.specs.Tables.{Keeps};

    ghost view = { λ a. a.records.items };

    ghost invariant = { λ a. Keeps a.tables a.records.items };
}

impl ConfigState {
    ghost use Rattle.cw_config.specs.Reserved.{Reserved};

    /// With no record.
    pub fn new(alloc: Global) -> ConfigState
        ensures { result ≡ [] }
    {
        ConfigState {
            alloc,
            records: Past::new(),
            tables: Tables::new(alloc),
        }
    }

    /// Applies a record. BadRecord of its offset comes exactly where that isn't above all earlier ones, the
    /// key and the value are no record of the config log, or it commits a task without a record since its
    /// connector's last commit.
    pub fn apply(
        &mut self,
        offset: u64,
        stamp: u64,
        key: &[u8],
        value: Option<&[u8]>,
    ) -> Result<(), ApplyFault>
        ensures ok { OnOk result (applied self.old offset stamp key.now (option_map (λ text. text.now) value.entry)
            ≡ Some self.new) }
        ensures refused { (at : ℕ) → result ≡ Err (ApplyFault.BadRecord at) →
            (at ≡ offset) × (applied self.old offset stamp key.now (option_map (λ text. text.now) value.entry) ≡ None) }
        ensures err { OnErr result (self.new ≡ self.old) }
    {
        let record = read_record(self.alloc, offset, stamp, key, value)?;
        if !self.may_follow(&record)? {
            return Err(ApplyFault::BadRecord(offset));
        }
        self.tables.make_row(&record.key)?;
        add(&mut self.tables, &mut self.records, record);
        Ok(())
    }

    /// Makes room for the records of a frame, so that applying them takes no memory. Without memory the
    /// state is given back as it was.
    pub fn reserve(mut self, frame: Vec<ConfigRecord>) -> Result<ReservedConfigs, ConfigState>
        ensures ok { IfOk result (λ reserved. reserved ≡ record { records = self; frame = frame.items }) }
        ensures err { IfErr result (λ state. state ≡ self) }
    {
        match make_rows(&mut self.tables, frame.as_slice()) {
            Ok(()) => Ok(ReservedConfigs {
                alloc: self.alloc,
                records: self.records,
                tables: self.tables,
                frame,
            }),
            Err(AllocError) => Err(self),
        }
    }

    /// One above the greatest offset applied so far, 0 where there is none; none past 2^64 - 1.
    pub fn next(&self) -> Option<u64>
        ensures { result ≡ next_of self.now }
    {
        match self.tables.last {
            Some(offset) => offset.checked_add(1),
            None => Some(0),
        }
    }

    /// The configured connectors, rising by their bytes, each once.
    pub fn connectors(&self) -> Result<Vec<Name>, AllocError>
        ensures { IfOk result (λ names. AreConnectors self.now names.items) }
    {
        let mut names = Vec::new(self.alloc);
        for name in self.tables.connectors.keys() {
            if self.config(name).is_some() {
                names.push(name.copy()?)?;
            }
        }
        Ok(names)
    }

    /// The config of a connector.
    pub fn config(&self, name: &Name) -> Option<&Props>
        ensures { option_map (λ props. props.now) result ≡ config_of name.now self.now }
    {
        properties_at(row_at(&self.tables.connectors, name))
    }

    /// The config of a task, as its connector's last commit found it; the task's index is below the count
    /// of that commit.
    pub fn task(&self, id: &TaskId) -> Option<&Props>
        ensures { option_map (λ props. props.now) result ≡ task_of id.now self.now }
    {
        if id.index >= self.task_count(&id.connector) {
            return None;
        }
        properties_at(self.tables.committed(id))
    }

    /// The config of a task that waits for its connector's next commit.
    pub fn deferred(&self, id: &TaskId) -> Option<&Props>
        ensures { option_map (λ props. props.now) result ≡ deferred_of id.now self.now }
    {
        properties_at(self.tables.deferred(id))
    }

    /// The target state of a connector, Started where no record says otherwise.
    pub fn target(&self, name: &Name) -> Target
        ensures { result ≡ target_of name.now self.now }
    {
        target_at(row_at(&self.tables.targets, name)).unwrap_or(Target::Started)
    }

    /// The generation of a connector's tasks: the offset of its last commit (KIP-618).
    pub fn generation(&self, name: &Name) -> Option<u64>
        ensures { result ≡ generation_of name.now self.now }
    {
        self.tables.generation(name)
    }

    /// How many tasks a connector's last commit says, 0 where there is none.
    pub fn task_count(&self, name: &Name) -> u32
        ensures { result ≡ task_count_of name.now self.now }
    {
        count_at(row_at(&self.tables.commits, name)).unwrap_or(0)
    }

    /// How many tasks a connector's last fence says, 0 where there is none (KIP-618).
    pub fn fenced_count(&self, name: &Name) -> u32
        ensures { result ≡ fenced_count_of name.now self.now }
    {
        count_at(row_at(&self.tables.fences, name)).unwrap_or(0)
    }

    /// Whether a connector has a commit with no fence behind it, so that its tasks may not start yet
    /// (KIP-618).
    pub fn is_pending(&self, name: &Name) -> bool
        ensures { result ≡ is_pending name.now self.now }
    {
        self.tables.generation(name).is_some() && !self.tables.is_fenced(name)
    }

    // Whether each task below a count waits for a commit.
    fn has_tasks(&self, name: &Name, count: u32) -> Result<bool, AllocError>
        ensures { IfOk result (λ has. has ≡ has_tasks name.now count self.now) }
    {
        self.tables.has_tasks(name, count)
    }

    // Whether a commit has its tasks; one without a count needs none.
    fn is_backed_commit(&self, name: &Name, value: &Option<ConfigValue>) -> Result<bool, AllocError>
        ensures { IfOk result (λ backed. backed ≡ is_backed self.now (ConfigKey.Commit name.now) value.now) }
    {
        match value {
            Some(ConfigValue::Commit(count)) => self.has_tasks(name, *count),
            _ => Ok(true),
        }
    }

    // The same of any record; other ones need nothing.
    fn is_backed(&self, added: &ConfigRecord) -> Result<bool, AllocError>
        ensures { IfOk result (λ backed. backed ≡ is_backed self.now added.now.key added.now.value) }
    {
        match &added.key {
            ConfigKey::Commit(name) => self.is_backed_commit(name, &added.value),
            _ => Ok(true),
        }
    }

    // Whether an offset is above all earlier ones.
    fn is_above(&self, offset: u64) -> bool
        ensures { result ≡ nat_le (end_of self.now) offset }
    {
        match self.tables.last {
            Some(last) => last < offset,
            None => true,
        }
    }

    // Whether a record may stand behind the others.
    fn may_follow(&self, added: &ConfigRecord) -> Result<bool, AllocError>
        ensures { IfOk result (λ follows. follows ≡ may_follow self.now added.now) }
    {
        if !self.is_above(added.offset) {
            return Ok(false);
        }
        self.is_backed(added)
    }
}
