//! What a worker starts and stops.
ghost use Rattle.std.specs.Prelude.{◌≡◌, ◌<◌, [], None, length, IfOk};
ghost use Rattle.cw_config.specs.Compaction.{AreAccepted};
ghost use Rattle.cw_model.specs.EventsItems.{read_config, start_item, stop_item, restart, new_instance, spec_in};
ghost use Rattle.cw_rows.specs.Kept.{Is, IsOrWants};

use crate::cluster::Cluster;
use cw_config::ConfigState;
use cw_model::{Instance, InstancePhase, WorldFault};
use cw_plugin::{TaskSpec, task_of};
use cw_types::{Item, Listed, TaskId};
use std::alloc::{AllocError, Global};

impl Cluster {
    /// A worker reads the config log to its end.
    pub fn read_config(&mut self, w: u32) -> Result<(), WorldFault>
        requires there { w < length self.old.state.rows }
        requires accepted { AreAccepted [] self.old.state.configs }
        ensures { IsOrWants (read_config w) self.old self.new result }
    {
        self.test_worker(w)?;
        let Ok(()) = self.crew.read(w, self.topics.records()) else {
            return Err(WorldFault::Memory);
        };
        Ok(())
    }

    /// A worker starts an item: the answer is the instance's number.
    pub fn start_item(&mut self, w: u32, item: &Item) -> Result<u64, WorldFault>
        requires { w < length self.old.state.rows }
        ensures { IsOrWants (start_item w item.now) self.old self.new result }
    {
        self.test_worker(w)?;
        let number = self.crew.instances();
        match new_instance(self.alloc, w, self.crew.read_by(w), item) {
            Ok(instance) => match self.crew.start(instance) {
                Ok(()) => Ok(number),
                Err(AllocError) => Err(WorldFault::Memory),
            },
            Err(AllocError) => Err(WorldFault::Memory),
        }
    }

    /// What runs of an item at workers that take part ends, to be started again.
    pub fn restart(&mut self, w: u32, item: &Item) -> Result<(), WorldFault>
        requires { w < length self.old.state.rows }
        ensures { Is (restart w item.now) self.old self.new result }
    {
        self.test_worker(w)?;
        self.crew.end_item(item);
        Ok(())
    }

    /// An instance ends.
    pub fn stop_item(&mut self, i: u64) -> Result<(), WorldFault>
        requires { i < length self.old.state.instances }
        ensures { Is (stop_item i) self.old self.new result }
    {
        self.test_instance(i)?;
        self.crew.stop(i);
        Ok(())
    }
}

// A new instance, by what its worker has read.
fn new_instance(
    alloc: Global,
    w: u32,
    read: &ConfigState,
    item: &Item,
) -> Result<Instance, AllocError>
    ensures { IfOk result (λ instance. instance ≡ new_instance w read.now item.now) }
{
    match item {
        Item::Connector(_) => Ok(instance(
            alloc,
            w,
            item.copy()?,
            InstancePhase::Connector,
            0,
            None,
        )),
        Item::Task(id) => Ok(instance(
            alloc,
            w,
            item.copy()?,
            InstancePhase::New,
            read.generation(&id.connector).unwrap_or(0),
            spec_of(alloc, read, id)?,
        )),
    }
}

// An instance that has done nothing yet.
fn instance(
    alloc: Global,
    worker: u32,
    item: Item,
    phase: InstancePhase,
    generation: u64,
    task: Option<TaskSpec>,
) -> Instance
    ensures { result ≡ record {
      worker = worker;
      item = item;
      phase = phase;
      generation = generation;
      epoch = None;
      number = 0;
      task = task;
      positions = [];
      last = None;
      cut = None;
      trace = None;
      reported = None;
    } }
{
    Instance {
        worker,
        item,
        phase,
        generation,
        epoch: None,
        number: 0,
        task,
        positions: Listed::new(Vec::new(alloc)),
        last: None,
        cut: None,
        trace: None,
        reported: None,
    }
}

// What a task is to do, by its committed config.
fn spec_of(alloc: Global, read: &ConfigState, id: &TaskId) -> Result<Option<TaskSpec>, AllocError>
    ensures { IfOk result (λ spec. spec ≡ spec_in read.now id.now) }
{
    match read.task(id) {
        Some(props) => task_of(alloc, &id.connector, props),
        None => Ok(None),
    }
}
