//! Copies of instances.
ghost use Rattle.std.specs.Prelude.{◌≡◌, IfOk};

use cw_model::Instance;
use cw_plugin::TaskSpec;
use std::alloc::{AllocError, Global};

/// A copy of an instance.
pub(crate) fn copy_of(alloc: Global, instance: &Instance) -> Result<Instance, AllocError>
    ensures { IfOk result (λ copy. copy ≡ instance.now) }
{
    Ok(Instance {
        worker: instance.worker,
        item: instance.item.copy()?,
        phase: instance.phase,
        generation: instance.generation,
        epoch: instance.epoch,
        number: instance.number,
        task: copy_of_task(alloc, &instance.task)?,
        positions: instance.positions.copy()?,
        last: instance.last,
        cut: instance.cut,
        trace: instance.trace,
        reported: instance.reported,
    })
}

// A copy of what a task reads or writes.
fn copy_of_task(alloc: Global, task: &Option<TaskSpec>) -> Result<Option<TaskSpec>, AllocError>
    ensures { IfOk result (λ copy. copy ≡ task.now) }
{
    match task {
        Some(task) => Ok(Some(task.copy(alloc)?)),
        None => Ok(None),
    }
}
