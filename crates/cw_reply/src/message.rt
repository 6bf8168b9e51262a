//! Replies, and those that aren't successes: a code, and a message in Connect's form of an error.
ghost use Rattle.std.specs.Prelude.{◌≡◌, ◌++◌, false, IfOk, string_bytes, codes, decimal};
ghost use Rattle.serde_json.specs.View.{view};
ghost use Rattle.serde_json.specs.Written.{has_float};
ghost use Rattle.cw_rest.specs.Messages as message;

use crate::texts::between;
use cw_keys::text_of_name;
use cw_plugin::PluginFault;
use cw_route::{Reply, RouteFault};
use cw_types::{Listed, LogName, Name, TaskId};
use serde_json::{Value, json};
use std::alloc::{AllocError, Global};

// A reply with a JSON value.
pub(crate) fn replied(alloc: Global, code: u16, value: &Value) -> Result<Reply, AllocError>
    requires { has_float (view value.now) ≡ false }
    ensures { IfOk result (λ reply. reply ≡ message.replied code (view value.now)) }
{
    Ok(Reply {
        code,
        body: Listed::new(value.to_vec(alloc)?),
    })
}

// A reply without a body.
pub(crate) fn empty_reply(alloc: Global, code: u16) -> Reply
    ensures { result ≡ message.empty_reply code }
{
    Reply {
        code,
        body: Listed::new(Vec::new(alloc)),
    }
}

// The value of an error.
fn error_value(alloc: Global, code: u16, text: &str) -> Result<Value, AllocError>
    ensures { IfOk result (λ value. view value ≡ message.error_data code text.now) }
{
    json!(in alloc; {"error_code": code, "message": text})
}

// An error.
pub(crate) fn refusal(alloc: Global, code: u16, text: &str) -> Result<Reply, AllocError>
    ensures { IfOk result (λ reply. reply ≡ message.refusal code text.now) }
{
    let value = error_value(alloc, code, text)?;
    replied(alloc, code, &value)
}

// An error about a name, which stands in its text.
fn refusal_of(
    alloc: Global,
    code: u16,
    before: &str,
    text: &str,
    behind: &str,
) -> Result<Reply, AllocError>
    ensures { IfOk result (λ reply. reply ≡ message.refusal code (before.now ++ text.now ++ behind.now)) }
{
    let whole = between(alloc, before, text, behind)?;
    refusal(alloc, code, whole.as_str())
}

/// The reply that tells that memory ran out.
pub fn memory_reply(alloc: Global) -> Result<Reply, AllocError>
    ensures { IfOk result (λ reply. reply ≡ message.memory_reply) }
{
    refusal(alloc, 503, "Out of memory")
}

// The name of a log.
fn log_text(log: LogName) -> &'static str
    ensures { result.now ≡ message.log_text log }
{
    match log {
        LogName::Config => "config",
        LogName::Offsets => "offsets",
        LogName::Status => "status",
        LogName::Txn => "transactions",
        LogName::Batches => "batches",
    }
}

/// The reply that tells that a log has no room for what a call would write.
pub fn full_reply(alloc: Global, log: LogName) -> Result<Reply, AllocError>
    ensures { IfOk result (λ reply. reply ≡ message.full_reply log) }
{
    refusal_of(alloc, 507, "Log ", log_text(log), " is full")
}

/// The reply that tells that a disk failed.
pub fn failed_reply(alloc: Global) -> Result<Reply, AllocError>
    ensures { IfOk result (λ reply. reply ≡ message.failed_reply) }
{
    refusal(alloc, 500, "Store failed")
}

// A request that is no call.
pub(crate) fn not_called(alloc: Global, fault: RouteFault) -> Result<Reply, AllocError>
    ensures { IfOk result (λ reply. reply ≡ message.not_called fault) }
{
    match fault {
        RouteFault::NotFound => refusal(alloc, 404, "HTTP 404 Not Found"),
        RouteFault::NotAllowed => refusal(alloc, 405, "HTTP 405 Method Not Allowed"),
        RouteFault::BadQuery => refusal(alloc, 400, "Query parameters are not supported"),
        RouteFault::BadPath => refusal(alloc, 400, "Bad path"),
        RouteFault::Memory => memory_reply(alloc),
    }
}

// The body can't be read as the call's.
pub(crate) fn bad_body(alloc: Global) -> Result<Reply, AllocError>
    ensures { IfOk result (λ reply. reply ≡ message.bad_body) }
{
    refusal(alloc, 400, "Bad request body")
}

// What is to be made has no connector's name.
pub(crate) fn bad_name(alloc: Global) -> Result<Reply, AllocError>
    ensures { IfOk result (λ reply. reply ≡ message.bad_name) }
{
    refusal(alloc, 400, "Bad connector name")
}

/// The reply that tells that there is no leader through which the asked worker may write.
pub fn rebalancing(alloc: Global) -> Result<Reply, AllocError>
    ensures { IfOk result (λ reply. reply ≡ message.rebalancing) }
{
    refusal(alloc, 409, "Cannot complete request because of a rebalance")
}

// A connector isn't there.
pub(crate) fn no_connector(alloc: Global, name: &Name) -> Result<Reply, AllocError>
    ensures { IfOk result (λ reply. reply ≡ message.no_connector name.now) }
{
    refusal_of(alloc, 404, "Connector ", text_of_name(name), " not found")
}

// No state was reported of a connector.
pub(crate) fn no_status(alloc: Global, name: &Name) -> Result<Reply, AllocError>
    ensures { IfOk result (λ reply. reply ≡ message.no_status name.now) }
{
    refusal_of(
        alloc,
        404,
        "No status found for connector ",
        text_of_name(name),
        "",
    )
}

// The beginning of what is told of a task.
fn task_text(alloc: Global, id: &TaskId) -> Result<String, AllocError>
    ensures { IfOk result (λ text. string_bytes text ++ codes " not found" ≡ codes "Task " ++ decimal id.now.index ++
        codes " of connector " ++ id.now.connector ++ codes " not found") }
{
    let number = id.index.to_string(alloc)?;
    let mut text = between(alloc, "Task ", number.as_str(), " of connector ")?;
    text.push_str(text_of_name(&id.connector))?;
    Ok(text)
}

// A task isn't there, or none was reported of it.
pub(crate) fn no_task(alloc: Global, id: &TaskId) -> Result<Reply, AllocError>
    ensures { IfOk result (λ reply. reply ≡ message.no_task id.now) }
{
    let task = task_text(alloc, id)?;
    refusal_of(alloc, 404, "", task.as_str(), " not found")
}

// What is to be made is there.
pub(crate) fn already_there(alloc: Global, name: &Name) -> Result<Reply, AllocError>
    ensures { IfOk result (λ reply. reply ≡ message.already_there name.now) }
{
    refusal_of(
        alloc,
        409,
        "Connector ",
        text_of_name(name),
        " already exists",
    )
}

// The connector isn't stopped.
pub(crate) fn not_stopped(alloc: Global) -> Result<Reply, AllocError>
    ensures { IfOk result (λ reply. reply ≡ message.not_stopped) }
{
    refusal(
        alloc,
        400,
        "Connectors must be in the STOPPED state before their offsets can be modified",
    )
}

// An offset, or a partition, is none of the connector's.
pub(crate) fn bad_offset(alloc: Global) -> Result<Reply, AllocError>
    ensures { IfOk result (λ reply. reply ≡ message.bad_offset) }
{
    refusal(alloc, 400, "Bad partition or offset")
}

// A config that its class doesn't take.
pub(crate) fn bad_config(alloc: Global, fault: &PluginFault) -> Result<Reply, AllocError>
    ensures { IfOk result (λ reply. reply ≡ message.bad_config fault.now) }
{
    match fault {
        PluginFault::NoClass => refusal(alloc, 400, "Missing connector.class"),
        PluginFault::UnknownClass => refusal(alloc, 400, "Unknown class"),
        PluginFault::Missing(key) => refusal_of(alloc, 400, "Missing ", key.as_str(), ""),
        PluginFault::BadInt(key) => refusal_of(alloc, 400, "Bad number in ", key.as_str(), ""),
        PluginFault::NoFeed(feed) => refusal_of(alloc, 400, "No feed ", feed.as_str(), ""),
        PluginFault::BadName(key) => refusal_of(alloc, 400, "Bad name in ", key.as_str(), ""),
        PluginFault::Memory => memory_reply(alloc),
    }
}
