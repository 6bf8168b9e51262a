//! What a call is answered as the cluster is now, and the answers to one that writes.
ghost use Rattle.std.specs.Prelude.{◌≡◌, ◌<◌, length, IfOk};
ghost use Rattle.cw_model.specs.Journal.{is_success};
ghost use Rattle.cw_rest.specs.Replies.{reply_to};
ghost use Rattle.cw_edges.specs.Requests.{seen_now, reply_now, would_succeed};
ghost use Rattle.cw_ops.specs.Answering.{IsAnswering};

use crate::seeing::{is_ready, seen_now};
use cw_reply::{full_reply, rebalancing, reply};
use cw_route::{Call, Reply};
use cw_rows::Cluster;
use cw_types::LogName;
use std::alloc::{AllocError, Global};

/// The answers to a call that writes, made before it writes.
#[derive(Debug, Drop)]
pub struct Answers {
    /// Where it has written.
    pub done: Reply,
    /// Where its log has no room.
    pub full: Reply,
    /// Where its leader finds a later lead epoch.
    pub outrun: Reply,
}

/// What a call that writes comes to.
#[derive(Debug, Drop)]
pub enum Answering {
    /// It is refused, and writes nothing.
    Refused(Reply),
    /// It writes, and is answered by what comes of that.
    Writes(Answers),
}

/// The reply to a call through a worker as the cluster is now; whoever isn't ready can't write. Want of memory is the
/// only error.
pub fn reply_now(alloc: Global, cluster: &Cluster, w: u32, call: &Call) -> Result<Reply, AllocError>
    requires { w < length cluster.now.state.rows }
    ensures { IfOk result (λ reply. reply ≡ reply_now cluster.now.setting w call.now cluster.now.state) }
{
    let seen = seen_now(cluster, w, call, is_ready(cluster, w));
    reply(alloc, call, &seen)
}

/// Whether a reply is a success.
pub fn is_success(reply: &Reply) -> bool
    ensures { result ≡ is_success reply.now }
{
    200 <= reply.code && reply.code < 300
}

/// What a call that writes to this log comes to, with all the answers that it may get: it writes unless something but a
/// later lead stands in its way. Want of memory is the only error.
pub fn answers_to(
    alloc: Global,
    cluster: &Cluster,
    w: u32,
    call: &Call,
    log: LogName,
) -> Result<Answering, AllocError>
    requires { w < length cluster.now.state.rows }
    ensures { IfOk result (λ answering. IsAnswering cluster.now.setting w call.now log cluster.now.state answering) }
{
    let done = reply_now(alloc, cluster, w, call)?;
    if !would_succeed(alloc, cluster, w, call, &done)? {
        return Ok(Answering::Refused(done));
    }
    let full = full_reply(alloc, log)?;
    let outrun = rebalancing(alloc)?;
    Ok(Answering::Writes(Answers { done, full, outrun }))
}

// Whether nothing but a later lead would stand in a call's way, by its reply as of now.
fn would_succeed(
    alloc: Global,
    cluster: &Cluster,
    w: u32,
    call: &Call,
    done: &Reply,
) -> Result<bool, AllocError>
    requires there { w < length cluster.now.state.rows }
    requires reply { done.now ≡ reply_now cluster.now.setting w call.now cluster.now.state }
    ensures { IfOk result (λ does. does ≡ would_succeed cluster.now.setting w call.now cluster.now.state) }
{
    if is_ready(cluster, w) {
        return Ok(is_success(done));
    }
    let seen = seen_now(cluster, w, call, true);
    let hoped = reply(alloc, call, &seen)?;
    Ok(is_success(&hoped))
}
