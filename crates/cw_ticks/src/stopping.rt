//! What a worker is to stop.
ghost use Rattle.std.specs.Prelude.{◌≡◌, ◌<◌, ◌||◌, ℕ, not, length, map, IfOk, slice_get, unwrap_or};
ghost use Rattle.std.specs.List.{filter, find, AllByRecursion};
ghost use Rattle.cw_assign.specs.Items.{has, same_item};
ghost use Rattle.cw_model.specs.Lookups.{row_of, instance_of, is_configured};
ghost use Rattle.cw_model.specs.TickRules.{is_of_other, is_outdated, first_running, stop_applies, deaf_stop_applies};
ghost use Rattle.cw_rows.specs.Crew.{numbers_at};
ghost use Rattle.cw_ticks.specs.Running.{to_stop, Found};
ghost use Rattle.cw_types.specs.declared.ids.Item.{Item as ItemValue};

use crate::configured::{is_configured, is_same};
use cw_assign::ItemSet;
use cw_config::ConfigState;
use cw_model::Instance;
use cw_rows::Cluster;
use cw_types::Item;
use std::alloc::{AllocError, Global};

/// The first item that a worker that hears is to stop, and the number of its instance: all where the group doesn't
/// know the worker, else what isn't to run there.
pub fn stop_applies(
    alloc: Global,
    cluster: &Cluster,
    w: u32,
) -> Result<Option<(Item, u64)>, AllocError>
    requires { w < length cluster.now.state.rows }
    ensures { IfOk result (λ found. Found w cluster.now.state (stop_applies w cluster.now.state) found) }
{
    first_to_stop(
        alloc,
        cluster,
        w,
        cluster.numbers_of(w),
        !cluster.is_member(w),
    )
}

/// The same of a worker that is deaf, which can't know whether the group knows it.
pub fn deaf_stop_applies(
    alloc: Global,
    cluster: &Cluster,
    w: u32,
) -> Result<Option<(Item, u64)>, AllocError>
    requires { w < length cluster.now.state.rows }
    ensures { IfOk result (λ found. Found w cluster.now.state (deaf_stop_applies w cluster.now.state) found) }
{
    first_to_stop(alloc, cluster, w, cluster.numbers_of(w), false)
}

// The first of a worker's instances, in the order of items, that is to stop, and its number.
fn first_to_stop(
    alloc: Global,
    cluster: &Cluster,
    w: u32,
    running: &[u64],
    all: bool,
) -> Result<Option<(Item, u64)>, AllocError>
    requires there { w < length cluster.now.state.rows }
    requires running { running.now ≡ numbers_at w cluster.now.state.instances }
    ensures { IfOk result (λ found. Found w cluster.now.state
        (first_running (to_stop all w cluster.now.state) w cluster.now.state) found) }
{
    if running.is_empty() {
        return Ok(None);
    }
    match first_item(alloc, cluster, w, running, all)? {
        Some(item) => {
            let number = number_among(cluster, running, &item);
            Ok(Some((item, number)))
        }
        None => Ok(None),
    }
}

// The first item, in the order of items, that a worker is to stop.
fn first_item(
    alloc: Global,
    cluster: &Cluster,
    w: u32,
    running: &[u64],
    all: bool,
) -> Result<Option<Item>, AllocError>
    requires there { w < length cluster.now.state.rows }
    requires running { running.now ≡ numbers_at w cluster.now.state.instances }
    ensures { IfOk result (λ found. found ≡
        first_running (to_stop all w cluster.now.state) w cluster.now.state) }
{
    let assigned = ItemSet::of(alloc, cluster.row_of(w).assigned.as_slice())?;
    let items = items_to_stop(alloc, cluster, w, &assigned, running, all)?;
    let set = ItemSet::of(alloc, items.as_slice())?;
    let ordered = set.into_items(alloc)?;
    first_of(ordered.as_slice())
}

// A copy of the first item.
fn first_of(items: &[Item]) -> Result<Option<Item>, AllocError>
    ensures { IfOk result (λ first. first ≡ slice_get items.now 0) }
{
    match items.first() {
        Some(item) => Ok(Some(item.copy()?)),
        None => Ok(None),
    }
}

// The items of these instances that are to stop.
fn items_to_stop(
    alloc: Global,
    cluster: &Cluster,
    w: u32,
    assigned: &ItemSet,
    numbers: &[u64],
    all: bool,
) -> Result<Vec<Item>, AllocError>
    requires there { w < length cluster.now.state.rows }
    requires assigned { (x : ItemValue) → has assigned.now x ≡ has (row_of w cluster.now.state).assigned x }
    requires within { AllByRecursion (λ n. n < length cluster.now.state.instances) numbers.now }
    ensures { IfOk result (λ items. items.items ≡ map (λ n. (instance_of n cluster.now.state).item)
        (filter (λ n. to_stop all w cluster.now.state (instance_of n cluster.now.state)) numbers.now)) }
{
    let mut items = Vec::new(alloc);
    for number in numbers {
        let instance = cluster.instance_of(*number);
        if all || is_outdated(cluster.config_of(w), assigned, instance) {
            items.push(instance.item.copy()?)?;
        }
    }
    Ok(items)
}

// Whether an instance isn't to run at its worker, by what is assigned to that and what it has read.
fn is_outdated(read: &ConfigState, assigned: &ItemSet, instance: &Instance) -> bool
    ensures { result ≡ (not (has assigned.now instance.now.item) || not (is_configured read.now instance.now.item)
        || is_of_other read.now instance.now.generation instance.now.item) }
{
    !assigned.has(&instance.item)
        || !is_configured(read, &instance.item)
        || is_of_other(read, instance.generation, &instance.item)
}

// Whether a task is of another generation than the newest that was read.
fn is_of_other(read: &ConfigState, generation: u64, item: &Item) -> bool
    ensures { result ≡ is_of_other read.now generation item.now }
{
    match item {
        Item::Connector(_) => false,
        Item::Task(id) => match read.generation(&id.connector) {
            Some(newest) => generation != newest,
            None => true,
        },
    }
}

// The first of these numbers whose instance is of an item; 0 where there is none.
fn number_among(cluster: &Cluster, numbers: &[u64], item: &Item) -> u64
    requires { AllByRecursion (λ n. n < length cluster.now.state.instances) numbers.now }
    ensures { result ≡ unwrap_or
        (find (λ n. same_item (instance_of n cluster.now.state).item item.now) numbers.now) 0 }
{
    for number in numbers {
        if is_same(&cluster.instance_of(*number).item, item) {
            return *number;
        }
    }
    0
}
