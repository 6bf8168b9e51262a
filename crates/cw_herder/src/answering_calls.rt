//! Calls that write nothing: a reply, and a restart of what runs.
ghost use Rattle.std.specs.Prelude.{◌≡◌, ◌<◌, true, length, None, Some};
ghost use Rattle.cw_model.specs.Answers.{answered};
ghost use Rattle.cw_model.specs.Journal.{is_success};
ghost use Rattle.cw_model.specs.Lookups.{row_of};
ghost use Rattle.cw_route.specs.declared.call.Call.TheVariants.{Restart, RestartTask};
ghost use Rattle.cw_rest.specs.Calls.{restarts, deed_of};
ghost use Rattle.cw_edges.specs.Requests.{answers, reply_now, item_of};
ghost use Rattle.cw_world.specs.World.{Acts};

use cw_disk::Disk;
use cw_model::WorldFault;
use cw_ops::{is_success, reply_now};
use cw_route::{Call, Reply};
use cw_types::{Item, Name, TaskId};
use cw_world::World;
use std::alloc::{AllocError, Global};

/// The reply to a call that changes nothing.
pub(crate) fn answer<D: Disk>(
    alloc: Global,
    world: &World<D>,
    w: u32,
    call: &Call,
) -> Result<Reply, WorldFault>
    requires there { w < length world.now.state.rows }
    requires quiet { answers world.now.setting w call.now world.now.state ≡
        answered (reply_now world.now.setting w call.now world.now.state) world.now.state }
    ensures { Acts D.Disk (answers world.now.setting w call.now) world.now world.now result }
{
    match reply_now(alloc, world.cluster(), w, call) {
        Ok(reply) => Ok(reply),
        Err(AllocError) => Err(WorldFault::Memory),
    }
}

/// A connector is restarted.
pub(crate) fn restart_connector<D: Disk>(
    alloc: Global,
    world: &mut World<D>,
    w: u32,
    call: &Call,
    name: &Name,
) -> Result<Reply, WorldFault>
    requires there { w < length world.old.state.rows }
    requires alive { world.old.state.closed ≡ None }
    requires live { (row_of w world.old.state).live ≡ true }
    requires asked { call.now ≡ Restart name.now }
    ensures { Acts D.Disk (answers world.old.setting w call.now) world.old world.new result }
{
    match name.copy() {
        Ok(name) => restart(alloc, world, w, call, &Item::Connector(name)),
        Err(AllocError) => Err(WorldFault::Memory),
    }
}

/// A task is restarted.
pub(crate) fn restart_task<D: Disk>(
    alloc: Global,
    world: &mut World<D>,
    w: u32,
    call: &Call,
    id: &TaskId,
) -> Result<Reply, WorldFault>
    requires there { w < length world.old.state.rows }
    requires alive { world.old.state.closed ≡ None }
    requires live { (row_of w world.old.state).live ≡ true }
    requires asked { call.now ≡ RestartTask id.now }
    ensures { Acts D.Disk (answers world.old.setting w call.now) world.old world.new result }
{
    match id.copy() {
        Ok(id) => restart(alloc, world, w, call, &Item::Task(id)),
        Err(AllocError) => Err(WorldFault::Memory),
    }
}

// What runs of an item is restarted, unless the call is refused.
fn restart<D: Disk>(
    alloc: Global,
    world: &mut World<D>,
    w: u32,
    call: &Call,
    item: &Item,
) -> Result<Reply, WorldFault>
    requires there { w < length world.old.state.rows }
    requires alive { world.old.state.closed ≡ None }
    requires live { (row_of w world.old.state).live ≡ true }
    requires deed { deed_of call.now ≡ restarts }
    requires item { item_of call.now ≡ Some item.now }
    ensures { Acts D.Disk (answers world.old.setting w call.now) world.old world.new result }
{
    match reply_now(alloc, world.cluster(), w, call) {
        Ok(reply) if is_success(&reply) => end_item(world, w, call, item, reply),
        Ok(reply) => Ok(reply),
        Err(AllocError) => Err(WorldFault::Memory),
    }
}

// It ends, so that it is started again.
fn end_item<D: Disk>(
    world: &mut World<D>,
    w: u32,
    call: &Call,
    item: &Item,
    reply: Reply,
) -> Result<Reply, WorldFault>
    requires there { w < length world.old.state.rows }
    requires alive { world.old.state.closed ≡ None }
    requires live { (row_of w world.old.state).live ≡ true }
    requires deed { deed_of call.now ≡ restarts }
    requires item { item_of call.now ≡ Some item.now }
    requires reply { reply ≡ reply_now world.old.setting w call.now world.old.state }
    requires succeeds { is_success reply ≡ true }
    ensures { Acts D.Disk (answers world.old.setting w call.now) world.old world.new result }
{
    match world.restart(w, item) {
        Ok(()) => Ok(reply),
        Err(fault) => Err(fault),
    }
}
