//! When a worker takes its part in a round of the group (KIP-415).
ghost use Rattle.std.specs.Prelude.{◌≡◌, ◌<◌, ◌&&◌, length, IfOk};
ghost use Rattle.std.specs.Prelude.{◌==◌, false};
ghost use Rattle.std.specs.Option.{option_map_or};
ghost use Rattle.cw_group.specs.Members.{member_of, lowest_in};
ghost use Rattle.cw_group.specs.Phases.{is_open};
ghost use Rattle.cw_model.specs.Lookups.{row_of};
ghost use Rattle.cw_model.specs.TickRules.{has_not_joined, same_items, is_settled, is_to_plan};
ghost use Rattle.cw_model.specs.TickRules.{join_applies, close_applies, plan_applies, sync_applies, lead_applies};
ghost use Rattle.cw_group.specs.Circle.{is_due};

use crate::configured::is_same;
use crate::phases::{is_closed, is_open, is_planned, is_stable_in, leads};
use cw_assign::Delay;
use cw_group::Group;
use cw_rows::{Cluster, configured_items};
use cw_types::Item;
use std::alloc::AllocError;

/// Whether a worker is to join: the group doesn't know it or waits for it, or something is revoked from it, or it leads
/// and has to plan anew.
pub fn join_applies(cluster: &Cluster, w: u32) -> Result<bool, AllocError>
    requires { w < length cluster.now.state.rows }
    ensures { IfOk result (λ applies. applies ≡ join_applies w cluster.now.state) }
{
    if !cluster.is_member(w) {
        return Ok(true);
    }
    if is_awaited(cluster.group(), w) {
        return Ok(true);
    }
    if !is_settled(cluster, w) {
        return Ok(false);
    }
    if !cluster.row_of(w).revoked.as_slice().is_empty() {
        return Ok(true);
    }
    is_to_plan(cluster, w)
}

/// Whether a worker is to close the round: all have joined it, and the worker is the lowest member.
pub fn close_applies(cluster: &Cluster, w: u32) -> bool
    ensures { result ≡ close_applies w cluster.now.state }
{
    let group = cluster.group();
    is_open(group.phase()) && is_lowest(group, w) && group.lowest_missing().is_none()
}

/// Whether a worker is to plan: the round is closed, and the worker is the lowest member.
pub fn plan_applies(cluster: &Cluster, w: u32) -> bool
    ensures { result ≡ plan_applies w cluster.now.state }
{
    let group = cluster.group();
    is_closed(group.phase()) && is_lowest(group, w)
}

/// Whether a member is to be told its share: the round is planned, and it wasn't told yet.
pub fn sync_applies(cluster: &Cluster, w: u32) -> bool
    requires { w < length cluster.now.state.rows }
    ensures { result ≡ sync_applies w cluster.now.state }
{
    let group = cluster.group();
    is_planned(group.phase())
        && cluster.is_member(w)
        && !is_stable_in(group.round(), cluster.row_of(w).phase)
}

/// Whether a worker is to claim a lead epoch: it leads, and has none.
pub fn lead_applies(cluster: &Cluster, w: u32) -> bool
    requires { w < length cluster.now.state.rows }
    ensures { result ≡ lead_applies w cluster.now.state }
{
    let row = cluster.row_of(w);
    leads(w, row.phase) && row.lead.is_none()
}

// Whether the group waits for a member to join.
fn is_awaited(group: &Group, w: u32) -> bool
    ensures { result ≡ (is_open group.now.phase && has_not_joined (member_of w group.now.members)) }
{
    is_open(group.phase()) && has_not_joined(group, w)
}

// Whether a member is still to join.
fn has_not_joined(group: &Group, w: u32) -> bool
    ensures { result ≡ has_not_joined (member_of w group.now.members) }
{
    group.incarnation(w).is_some() && !group.has_joined(w)
}

// Whether a worker has its assignment of the planned round.
fn is_settled(cluster: &Cluster, w: u32) -> bool
    requires { w < length cluster.now.state.rows }
    ensures { result ≡ is_settled w cluster.now.state }
{
    let group = cluster.group();
    is_planned(group.phase()) && is_stable_in(group.round(), cluster.row_of(w).phase)
}

// Whether a leader has to plan anew: other items are configured than were planned, or lost items were waited for long
// enough.
fn is_to_plan(cluster: &Cluster, w: u32) -> Result<bool, AllocError>
    requires { w < length cluster.now.state.rows }
    ensures { IfOk result (λ is. is ≡ is_to_plan w cluster.now.state) }
{
    if !leads(w, cluster.row_of(w).phase) {
        return Ok(false);
    }
    if is_due(cluster.moment(), cluster.delay()) {
        return Ok(true);
    }
    let items = configured_items(cluster.config_of(w))?;
    Ok(!same_items(items.as_slice(), cluster.group().planned()))
}

// Whether a delay has run out.
fn is_due(moment: u64, delay: Delay) -> bool
    ensures { result ≡ is_due moment delay }
{
    match delay {
        Delay::Idle => false,
        Delay::Until(at) => at <= moment,
    }
}

// Whether two lists have the same items, in one order.
fn same_items(items: &[Item], others: &[Item]) -> bool
    ensures { result ≡ same_items items.now others.now }
{
    if items.len() != others.len() {
        return false;
    }
    for at in 0..items.len() {
        if !is_same(&items[at], &others[at]) {
            return false;
        }
    }
    true
}

// Whether a worker is the lowest member.
fn is_lowest(group: &Group, w: u32) -> bool
    ensures { result ≡ option_map_or (λ lowest. lowest == w) (lowest_in group.now.members) false }
{
    match group.lowest() {
        Some(lowest) => lowest == w,
        None => false,
    }
}
