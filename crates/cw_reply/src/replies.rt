//! What each call is answered.
ghost use Rattle.std.specs.Prelude.{◌≡◌, IfOk, unwrap_or, option_map};
ghost use Rattle.cw_types.specs.declared.ids.Item.TheVariants.{Connector, Task};
ghost use Rattle.cw_status.specs.Statuses.{latest};
ghost use Rattle.cw_rest.specs.Bodies.{asked_in, config_in};
ghost use Rattle.cw_rest.specs.Messages.{no_connector, no_task, replied};
ghost use Rattle.cw_rest.specs.Offsets.{alterations_in};
ghost use Rattle.cw_rest.specs.Operations.{config_values};
ghost use Rattle.cw_rest.specs.Pages as page;
ghost use Rattle.cw_rest.specs.Replies as replies;
ghost use Rattle.cw_rest.specs.Seen.{is_connector, is_task};
ghost use Rattle.cw_reply.specs.View.{seen_in};

use crate::body::{asked_in, config_in};
use crate::message::{
    already_there, bad_body, bad_config, bad_name, empty_reply, no_connector, no_status, no_task,
    not_called, rebalancing, replied,
};
use crate::offset::{alter, offsets, reset};
use crate::page::{
    classes_value, info_seen, info_value, names_value, properties_value, tasks_value,
};
use crate::status::{connector_status, task_status};
use crate::view::View;
use cw_json::Props;
use cw_keys::text_of_name;
use cw_plugin::{PluginFault, check_config};
use cw_route::{Call, Reply};
use cw_types::{Item, Name, TaskId};
use std::alloc::{AllocError, Global};

// Whether a connector is configured.
pub(crate) fn is_there(name: &Name, seen: &View<'_>) -> bool
    ensures { result ≡ is_connector name.now (seen_in seen.now) }
{
    seen.config.config(name).is_some()
}

// Whether a connector has a task of this number.
fn is_task(id: &TaskId, seen: &View<'_>) -> bool
    ensures { result ≡ is_task id.now (seen_in seen.now) }
{
    id.index < seen.config.task_count(&id.connector)
}

// ---- calls that read

fn connectors(alloc: Global, seen: &View<'_>) -> Result<Reply, AllocError>
    ensures { IfOk result (λ reply. reply ≡ replied 200 (page.names (seen_in seen.now))) }
{
    let names = names_value(alloc, seen)?;
    replied(alloc, 200, &names)
}

fn info(alloc: Global, name: &Name, seen: &View<'_>) -> Result<Reply, AllocError>
    ensures { IfOk result (λ reply. reply ≡
        replies.if_there name.now (seen_in seen.now) (replied 200 (page.info name.now (seen_in seen.now)))) }
{
    if !is_there(name, seen) {
        return no_connector(alloc, name);
    }
    let info = info_seen(alloc, name, seen)?;
    replied(alloc, 200, &info)
}

fn config(alloc: Global, name: &Name, seen: &View<'_>) -> Result<Reply, AllocError>
    ensures { IfOk result (λ reply. reply ≡ replies.if_there name.now (seen_in seen.now)
        (replied 200 (page.properties (page.config_seen name.now (seen_in seen.now))))) }
{
    if !is_there(name, seen) {
        return no_connector(alloc, name);
    }
    let props = properties_value(alloc, seen.config.config(name))?;
    replied(alloc, 200, &props)
}

fn tasks(alloc: Global, name: &Name, seen: &View<'_>) -> Result<Reply, AllocError>
    ensures { IfOk result (λ reply. reply ≡ replies.if_there name.now (seen_in seen.now)
        (replied 200 (page.task_infos name.now (seen_in seen.now)))) }
{
    if !is_there(name, seen) {
        return no_connector(alloc, name);
    }
    let tasks = tasks_value(alloc, name, seen)?;
    replied(alloc, 200, &tasks)
}

fn status(alloc: Global, name: &Name, seen: &View<'_>) -> Result<Reply, AllocError>
    ensures { IfOk result (λ reply. reply ≡ replies.if_there name.now (seen_in seen.now)
        (replies.status_reply name.now (seen_in seen.now)
        (latest (Connector name.now) seen.now.statuses.now.applied))) }
{
    if !is_there(name, seen) {
        return no_connector(alloc, name);
    }
    let Some(status) = seen.statuses.latest(&Item::Connector(name.copy()?)) else {
        return no_status(alloc, name);
    };
    let status = connector_status(alloc, name, status, seen)?;
    replied(alloc, 200, &status)
}

fn status_of_task(alloc: Global, id: &TaskId, seen: &View<'_>) -> Result<Reply, AllocError>
    ensures { IfOk result (λ reply. reply ≡ replies.if_there id.now.connector (seen_in seen.now)
        (replies.unless (is_task id.now (seen_in seen.now)) (no_task id.now)
        (replies.task_status_reply id.now (latest (Task id.now) seen.now.statuses.now.applied)))) }
{
    if !is_there(&id.connector, seen) {
        return no_connector(alloc, &id.connector);
    }
    if !is_task(id, seen) {
        return no_task(alloc, id);
    }
    let Some(status) = seen.statuses.latest(&Item::Task(id.copy()?)) else {
        return no_task(alloc, id);
    };
    let status = task_status(alloc, id.index, status)?;
    replied(alloc, 200, &status)
}

fn plugins(alloc: Global) -> Result<Reply, AllocError>
    ensures { IfOk result (λ reply. reply ≡ replied 200 page.plugins) }
{
    let classes = classes_value(alloc)?;
    replied(alloc, 200, &classes)
}

// ---- calls that write configs

// A connector as it is once its config was written.
fn written(
    alloc: Global,
    code: u16,
    name: &Name,
    props: &Props,
    seen: &View<'_>,
) -> Result<Reply, AllocError>
    ensures { IfOk result (λ reply. reply ≡
        replies.written code name.now (config_values name.now props.now) (seen_in seen.now)) }
{
    let info = info_value(alloc, name, Some(props), seen.config.task_count(name))?;
    replied(alloc, code, &info)
}

// The same, unless the config's class doesn't take it.
fn written_if_taken(
    alloc: Global,
    code: u16,
    name: &Name,
    props: &Props,
    seen: &View<'_>,
) -> Result<Reply, AllocError>
    ensures { IfOk result (λ reply. reply ≡ replies.if_taken props.now (seen_in seen.now)
        (replies.written code name.now (config_values name.now props.now) (seen_in seen.now))) }
{
    match check_config(alloc, props, seen.feeds) {
        Ok(_) => written(alloc, code, name, props, seen),
        Err(PluginFault::Memory) => Err(AllocError),
        Err(fault) => bad_config(alloc, &fault),
    }
}

// A connector is made, whose name is one.
fn create_named(
    alloc: Global,
    name: &Name,
    props: &Props,
    seen: &View<'_>,
) -> Result<Reply, AllocError>
    ensures { IfOk result (λ reply. reply ≡ replies.create_named seen.now.ready (seen_in seen.now) name.now props.now) }
{
    if !seen.ready {
        return rebalancing(alloc);
    }
    if is_there(name, seen) {
        return already_there(alloc, name);
    }
    written_if_taken(alloc, 201, name, props, seen)
}

fn create(alloc: Global, body: &[u8], seen: &View<'_>) -> Result<Reply, AllocError>
    ensures { IfOk result (λ reply. reply ≡
        replies.unless_bad (asked_in body.now) (replies.create_reply seen.now.ready (seen_in seen.now))) }
{
    let Some(asked) = asked_in(alloc, body)? else {
        return bad_body(alloc);
    };
    let Some(name) = Name::from_bytes(alloc, asked.name.as_str().as_bytes())? else {
        return bad_name(alloc);
    };
    create_named(alloc, &name, &asked.config, seen)
}

fn put_config(alloc: Global, name: &Name, body: &[u8], seen: &View<'_>) -> Result<Reply, AllocError>
    ensures { IfOk result (λ reply. reply ≡ replies.unless_bad (config_in name.now body.now)
        (replies.put_reply seen.now.ready (seen_in seen.now) name.now)) }
{
    let Some(props) = config_in(alloc, text_of_name(name), body)? else {
        return bad_body(alloc);
    };
    if !seen.ready {
        return rebalancing(alloc);
    }
    let code = if is_there(name, seen) { 200 } else { 201 };
    written_if_taken(alloc, code, name, &props, seen)
}

// A connector is paused, resumed, stopped, removed or restarted.
fn aimed(alloc: Global, name: &Name, code: u16, seen: &View<'_>) -> Result<Reply, AllocError>
    ensures { IfOk result (λ reply. reply ≡
        replies.target_reply seen.now.ready (seen_in seen.now) name.now code) }
{
    if !seen.ready {
        return rebalancing(alloc);
    }
    if !is_there(name, seen) {
        return no_connector(alloc, name);
    }
    Ok(empty_reply(alloc, code))
}

fn restart_task(alloc: Global, id: &TaskId, seen: &View<'_>) -> Result<Reply, AllocError>
    ensures { IfOk result (λ reply. reply ≡ replies.restart_reply seen.now.ready (seen_in seen.now) id.now) }
{
    if !seen.ready {
        return rebalancing(alloc);
    }
    if !is_there(&id.connector, seen) {
        return no_connector(alloc, &id.connector);
    }
    if !is_task(id, seen) {
        return no_task(alloc, id);
    }
    Ok(empty_reply(alloc, 204))
}

/// What a call is answered, over what it sees: the first refusal that holds, else the success (Connect's REST API;
/// offsets: KIP-875). A call that writes is answered as it is once that was written.
pub fn reply(alloc: Global, call: &Call, seen: &View<'_>) -> Result<Reply, AllocError>
    ensures { IfOk result (λ reply. reply ≡ replies.reply_to seen.now.ready (seen_in seen.now) call.now) }
{
    match call {
        Call::Refused(fault) => not_called(alloc, *fault),
        Call::Connectors => connectors(alloc, seen),
        Call::Create(body) => create(alloc, body.as_slice(), seen),
        Call::Info(name) => info(alloc, name, seen),
        Call::Delete(name) | Call::Stop(name) | Call::Restart(name) => aimed(
            alloc, name, 204, seen,
        ),
        Call::Config(name) => config(alloc, name, seen),
        Call::PutConfig(name, body) => put_config(alloc, name, body.as_slice(), seen),
        Call::Status(name) => status(alloc, name, seen),
        Call::Tasks(name) => tasks(alloc, name, seen),
        Call::TaskStatus(id) => status_of_task(alloc, id, seen),
        Call::Pause(name) | Call::Resume(name) => aimed(alloc, name, 202, seen),
        Call::RestartTask(id) => restart_task(alloc, id, seen),
        Call::Offsets(name) => offsets(alloc, name, seen),
        Call::Alter(name, body) => alter(alloc, name, body.as_slice(), seen),
        Call::Reset(name) => reset(alloc, name, seen),
        Call::Plugins => plugins(alloc),
    }
}
