//! The clean point of the config log: the last place at which no task's config waits for its commit.
ghost use Rattle.std.specs.Prelude.{◌≡◌, ◌+◌, ◌++◌, ◌∷◌, [], List, ℕ, length, ◌==◌, OnOk, if◌then◌else◌};
ghost use Rattle.std.specs.BTreeMap.{is_at};
ghost use Rattle.std.specs.BTreeSet.{contains};
ghost use Rattle.cw_types.specs.Order.{name_cmp};
ghost use Rattle.cw_config.specs.declared.records.ConfigRecord.{ConfigRecord};
ghost use Rattle.cw_compact.specs.Clean.{waits, IsClean, AreSets, Sets, set_at};

use crate::lasts::higher;
use cw_config::ConfigRecord;
use cw_keys::ConfigKey;
use cw_tables::value_at;
use cw_types::Name;
use std::alloc::{AllocError, Global};
use std::collections::{BTreeMap, BTreeSet};

/// The sets of tasks of a connector, as far as it matters which of their configs wait.
#[derive(Clone, Copy, Debug, Drop)]
pub struct TaskSet {
    /// The offset of the last commit.
    pub commit: Option<u64>,
    /// The highest offset of a task's config.
    pub task: Option<u64>,
}

impl TaskSet {
    /// Without a record.
    pub const NONE: TaskSet = TaskSet {
        commit: None,
        task: None,
    };

    // Whether a task's config waits for its commit.
    fn waits(self) -> bool
        ensures { result ≡ waits self }
    {
        match (self.commit, self.task) {
            (_, None) => false,
            (None, Some(_)) => true,
            (Some(commit), Some(task)) => commit < task,
        }
    }
}

/// What is known of the records of the config log up to a place.
#[derive(Drop)]
pub struct Clean {
    /// The sets of tasks of each connector.
    pub sets: BTreeMap<Name, TaskSet>,
    /// The connectors of which a task's config waits.
    pub waiting: BTreeSet<Name>,
    /// How many records there are.
    pub count: usize,
    /// The last place at which none waits.
    pub point: usize,
}

impl Clean {
    /// Before the first record.
    pub fn new(alloc: Global) -> Clean
        ensures { IsClean result [] }
    {
        Clean {
            sets: BTreeMap::new(alloc),
            waiting: BTreeSet::new(alloc),
            count: 0,
            point: 0,
        }
    }

    /// One record more. An `Err` may leave a part of it.
    pub fn note(&mut self, written: &ConfigRecord) -> Result<(), AllocError>
        ensures { OnOk result ((records : List ConfigRecord) → IsClean self.old records →
            IsClean self.new (records ++ written.now ∷ [])) }
    {
        self.put(written)?;
        self.step()?;
        Ok(())
    }

    // What a record makes of its connector's sets.
    fn put(&mut self, written: &ConfigRecord) -> Result<(), AllocError>
        ensures sets { OnOk result ((records : List ConfigRecord) → AreSets self.old.sets self.old.waiting records →
            AreSets self.new.sets self.new.waiting (records ++ written.now ∷ [])) }
        ensures count { OnOk result (self.new.count ≡ self.old.count) }
        ensures point { OnOk result (self.new.point ≡ self.old.point) }
    {
        match &written.key {
            ConfigKey::Task(id) => {
                let was = self.set_of(&id.connector);
                let set = TaskSet {
                    commit: was.commit,
                    task: higher(was.task, written.offset),
                };
                self.set(&id.connector, set)?;
                Ok(())
            }
            ConfigKey::Commit(name) => {
                let set = TaskSet {
                    commit: Some(written.offset),
                    task: self.set_of(name).task,
                };
                self.set(name, set)?;
                Ok(())
            }
            ConfigKey::Connector(_) => Ok(()),
            ConfigKey::Target(_) => Ok(()),
            ConfigKey::Fencing(_) => Ok(()),
        }
    }

    // The sets of a connector.
    fn set_of(&self, name: &Name) -> TaskSet
        ensures { result ≡ set_at self.now.sets name.now }
    {
        value_at(&self.sets, name, TaskSet::NONE)
    }

    // A connector's sets are these.
    fn set(&mut self, name: &Name, set: TaskSet) -> Result<(), AllocError>
        ensures sets { OnOk result (Sets name.now set self.old.sets self.new.sets) }
        ensures waiting { OnOk result ((q : List ℕ) → contains name_cmp self.new.waiting q
            ≡ (if is_at (name_cmp name.now) q then waits set else contains name_cmp self.old.waiting q)) }
        ensures count { OnOk result (self.new.count ≡ self.old.count) }
        ensures point { OnOk result (self.new.point ≡ self.old.point) }
    {
        self.sets.insert(name.copy()?, set)?;
        if set.waits() {
            self.waiting.insert(name.copy()?)?;
            Ok(())
        } else {
            self.waiting.remove(name);
            Ok(())
        }
    }

    // The place behind one record more. No memory holds more records than the greatest number.
    fn step(&mut self) -> Result<(), AllocError>
        ensures sets { OnOk result (self.new.sets ≡ self.old.sets) }
        ensures waiting { OnOk result (self.new.waiting ≡ self.old.waiting) }
        ensures count { OnOk result (self.new.count ≡ self.old.count + 1) }
        ensures point { OnOk result (self.new.point ≡ (if length self.old.waiting.keys == 0
            then self.old.count + 1 else self.old.point)) }
    {
        let Some(count) = self.count.checked_add(1) else {
            return Err(AllocError);
        };
        self.count = count;
        if self.waiting.is_empty() {
            self.point = count;
        }
        Ok(())
    }
}
