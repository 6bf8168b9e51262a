//! Events of what workers run: it starts, fails and is restarted.
ghost use Rattle.std.specs.Prelude.{◌≡◌, ◌<◌, true, length, IfOk};
ghost use Rattle.cw_model.specs.EventsItems.{MayStart};

use crate::line::Line;
use crate::refusal::{Made, Refusal, only_where};
use crate::stage::Trial;
use crate::workers::worker;
use cw_assign::ItemSet;
use cw_model::Trace;
use cw_types::Item;
use std::alloc::{AllocError, Global};

/// The instance that the next word names.
pub(crate) fn instance(world: &Trial, line: &mut Line<'_>) -> Result<u64, Refusal>
    ensures { IfOk result (λ i. i < length world.now.state.instances) }
{
    let i = line.long()?;
    only_where(world.cluster().has_instance(i))?;
    Ok(i)
}

/// `start_item W TASK` answers the instance's number.
pub(crate) fn start_item(world: &mut Trial, line: &mut Line<'_>) -> Made {
    let w = worker(world, line)?;
    let task = line.task()?;
    only_where(may_start(line.alloc, world, w, &task)?)?;
    let i = world.start_item(w, &task)?;
    line.tell(i)
}

// Whether a task is assigned to a worker and configured, and doesn't run there.
fn may_start(alloc: Global, world: &Trial, w: u32, item: &Item) -> Result<bool, AllocError>
    requires { w < length world.now.state.rows }
    ensures { IfOk result (λ may. may ≡ true → MayStart w item.now world.now.state) }
{
    let Item::Task(id) = item else {
        return Ok(false);
    };
    let cluster = world.cluster();
    let assigned = ItemSet::of(alloc, cluster.row_of(w).assigned.as_slice())?;
    let held = cluster.held(w)?;
    let held = ItemSet::of(alloc, held.as_slice())?;
    let read = cluster.config_of(w);
    let configured = read.config(&id.connector).is_some()
        && id.index < read.task_count(&id.connector);
    Ok(assigned.has(item) && !held.has(item) && configured)
}

/// `restart W TASK`
pub(crate) fn restart(world: &mut Trial, line: &mut Line<'_>) -> Made {
    let w = worker(world, line)?;
    let task = line.task()?;
    Ok(world.restart(w, &task)?)
}

/// `fail I AT`: at a line that begins here and is too long.
pub(crate) fn fail(world: &mut Trial, line: &mut Line<'_>) -> Made {
    let i = instance(world, line)?;
    let at = line.long()?;
    Ok(world.fail(i, Trace::LineTooLong(at))?)
}
