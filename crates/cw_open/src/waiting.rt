//! The tasks of a connector that wait for its next commit.
ghost use Rattle.std.specs.Prelude.{◌≡◌, ◌↔◌, [], Some, IfOk, OnOk, IsTrue, if◌then◌else◌};
ghost use Rattle.std.specs.BTreeMap.{get, is_at};
ghost use Rattle.cw_types.specs.declared.ids.PartKey.{PartKey};
ghost use Rattle.cw_types.specs.Same.{part_order};
ghost use Rattle.cw_plugin.specs.Tasks.{parts_at};
ghost use Rattle.cw_model.specs.ConfigsAllowed.{AreAllowedConfigs};
ghost use Rattle.cw_open.specs.WaitingTasks.{AreReady, TakesTask, TakesParts, TakesPart, is_others};

use cw_config::ConfigState;
use cw_json::Props;
use cw_plugin::task_of;
use cw_types::{Name, PartKey, TaskId};
use std::alloc::{AllocError, Global};
use std::collections::BTreeMap;

/// Whether so many tasks of a connector wait for a commit, no two of which share a part.
pub(crate) fn have_tasks_apart(
    alloc: Global,
    passed: &ConfigState,
    name: &Name,
    count: u32,
) -> Result<bool, AllocError>
    requires { AreAllowedConfigs [] passed.now }
    ensures { IfOk result (λ ready. IsTrue ready ↔ AreReady passed.now name.now count) }
{
    let mut owners = BTreeMap::new(alloc);
    let mut id = TaskId {
        connector: name.copy()?,
        index: 0,
    };
    for index in 0..count {
        id.index = index;
        if !take_task(alloc, passed, &id, &mut owners)? {
            return Ok(false);
        }
    }
    Ok(true)
}

// One task more, if it waits, and no part of it is another task's.
fn take_task(
    alloc: Global,
    passed: &ConfigState,
    id: &TaskId,
    owners: &mut BTreeMap<PartKey, u32>,
) -> Result<bool, AllocError>
    ensures { IfOk result (TakesTask passed.now id.now owners.old owners.new) }
{
    match passed.deferred(id) {
        Some(props) => {
            let taken = take_props(alloc, id, props, owners)?;
            Ok(taken)
        }
        None => Ok(false),
    }
}

fn take_props(
    alloc: Global,
    id: &TaskId,
    props: &Props,
    owners: &mut BTreeMap<PartKey, u32>,
) -> Result<bool, AllocError>
    ensures { IfOk result (TakesParts (parts_at id.now.connector props.now) id.now.index owners.old owners.new) }
{
    match task_of(alloc, &id.connector, props)? {
        Some(task) => {
            let taken = take_parts(task.parts.as_slice(), id.index, owners)?;
            Ok(taken)
        }
        None => Ok(true),
    }
}

fn take_parts(
    parts: &[PartKey],
    index: u32,
    owners: &mut BTreeMap<PartKey, u32>,
) -> Result<bool, AllocError>
    ensures { IfOk result (TakesParts parts.now index owners.old owners.new) }
{
    for at in 0..parts.len() {
        if !take_part(&parts[at], index, owners)? {
            return Ok(false);
        }
    }
    Ok(true)
}

fn take_part(
    part: &PartKey,
    index: u32,
    owners: &mut BTreeMap<PartKey, u32>,
) -> Result<bool, AllocError>
    ensures { IfOk result (TakesPart part.now index owners.old owners.new) }
{
    if is_others(owners, part, index) {
        return Ok(false);
    }
    own(owners, part, index)?;
    Ok(true)
}

// Whether a part is another task's.
fn is_others(owners: &BTreeMap<PartKey, u32>, part: &PartKey, index: u32) -> bool
    ensures { result ≡ is_others (get part_order owners.now part.now) index }
{
    match owners.get(part) {
        Some(owner) => *owner != index,
        None => false,
    }
}

fn own(owners: &mut BTreeMap<PartKey, u32>, part: &PartKey, index: u32) -> Result<(), AllocError>
    ensures { OnOk result ((q : PartKey) → get part_order owners.new q ≡
        (if is_at (part_order part.now) q then Some index else get part_order owners.old q)) }
{
    owners.insert(part.copy()?, index)?;
    Ok(())
}
