//! What a worker is to start.
ghost use Rattle.std.specs.Prelude.{◌≡◌, ◌<◌, length, IfOk};
ghost use Rattle.std.specs.List.{find};
ghost use Rattle.cw_model.specs.TickRules.{start_applies, waits_for_fence};
ghost use Rattle.cw_ticks.specs.Running.{may_start_beside};

use crate::configured::is_configured;
use crate::phases::is_stable;
use cw_assign::ItemSet;
use cw_config::ConfigState;
use cw_rows::Cluster;
use cw_types::Item;
use std::alloc::AllocError;

/// The first item assigned to a worker that is to be started: it is configured and doesn't run there, and a task
/// waits until its connector's older tasks are fenced (KIP-618).
pub fn start_applies(cluster: &Cluster, w: u32) -> Result<Option<Item>, AllocError>
    requires { w < length cluster.now.state.rows }
    ensures { IfOk result (λ found. found ≡ start_applies w cluster.now.state) }
{
    if !is_stable(cluster.row_of(w).phase) {
        return Ok(None);
    }
    let held = cluster.held(w)?;
    let held = ItemSet::of(*held.allocator(), held.as_slice())?;
    first_to_start(
        cluster.config_of(w),
        &held,
        cluster.row_of(w).assigned.as_slice(),
    )
}

// The first of these items that is to be started at a worker that holds others.
fn first_to_start(
    read: &ConfigState,
    held: &ItemSet,
    items: &[Item],
) -> Result<Option<Item>, AllocError>
    ensures { IfOk result (λ found. found ≡ find (may_start_beside read.now held.now) items.now) }
{
    for item in items {
        if may_start(read, held, item) {
            return Ok(Some(item.copy()?));
        }
    }
    Ok(None)
}

// Whether an item that is assigned is to be started at a worker that holds others.
fn may_start(read: &ConfigState, held: &ItemSet, item: &Item) -> bool
    ensures { result ≡ may_start_beside read.now held.now item.now }
{
    is_configured(read, item) && !held.has(item) && !waits_for_fence(read, item)
}

// Whether an item is a task that may not start yet.
fn waits_for_fence(read: &ConfigState, item: &Item) -> bool
    ensures { result ≡ waits_for_fence read.now item.now }
{
    match item {
        Item::Connector(_) => false,
        Item::Task(id) => read.is_pending(&id.connector),
    }
}
