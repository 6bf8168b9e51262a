//! Which turn a worker takes: that of the first rule that applies.
ghost use Rattle.std.specs.Prelude.{◌≡◌, ◌<◌, [], false, true, length, None, IfOk};
ghost use Rattle.cw_model.specs.ConfigsAllowed.{AreAllowedConfigs};
ghost use Rattle.cw_model.specs.Lookups.{row_of, instance_of, seen};
ghost use Rattle.cw_model.specs.EventsReports.{state_of};
ghost use Rattle.cw_ticks.specs.declared.turn.Turn.TheVariants as turn;
ghost use Rattle.cw_model.specs.Tick.{first_rule};
ghost use Rattle.cw_model.specs.TickRules.{read_applies, stop_applies};
ghost use Rattle.cw_ticks.specs.Stages.{reading_rules, group_rules, leading_rules, running_rules, reporting_rules};
ghost use Rattle.cw_ticks.specs.Stages.{group_on, leading_on, IsStage};
ghost use Rattle.cw_ticks.specs.Turns.{IsOfRule, IsTurn};

use crate::fences::{fence_applies, has_producer_left};
use crate::marks::mark_applies;
use crate::proposals::{are_deferred, propose_applies};
use crate::reading::read_applies;
use crate::reporting::{report_applies, state_of};
use crate::rounds::{close_applies, join_applies, lead_applies, plan_applies, sync_applies};
use crate::starting::start_applies;
use crate::stopping::{deaf_stop_applies, stop_applies};
use crate::turn::Turn;
use cw_rows::Cluster;
use std::alloc::{AllocError, Global};

/// What a worker does next: one that hears follows the first of all rules that applies,
/// and one that is deaf goes on with what it was told.
pub fn next_turn(alloc: Global, cluster: &Cluster, w: u32) -> Result<Turn, AllocError>
    requires there { w < length cluster.now.state.rows }
    requires allowed { AreAllowedConfigs [] cluster.now.state.configs }
    ensures { IfOk result (λ turn. IsTurn turn w cluster.now.state) }
{
    if !cluster.row_of(w).hearing {
        return deaf_turn(alloc, cluster, w);
    }
    hearing_turn(alloc, cluster, w)
}

// What a worker that hears does next.
fn hearing_turn(alloc: Global, cluster: &Cluster, w: u32) -> Result<Turn, AllocError>
    requires there { w < length cluster.now.state.rows }
    requires hears { (row_of w cluster.now.state).hearing ≡ true }
    requires allowed { AreAllowedConfigs [] cluster.now.state.configs }
    ensures { IfOk result (λ turn. IsTurn turn w cluster.now.state) }
{
    match reading_turn(alloc, cluster, w)? {
        Some(turn) => Ok(turn),
        None => turn_in_group(alloc, cluster, w),
    }
}

// What it does next where it has read all and has nothing to stop.
fn turn_in_group(alloc: Global, cluster: &Cluster, w: u32) -> Result<Turn, AllocError>
    requires there { w < length cluster.now.state.rows }
    requires allowed { AreAllowedConfigs [] cluster.now.state.configs }
    requires read { read_applies w cluster.now.state ≡ false }
    requires stopped { stop_applies w cluster.now.state ≡ None }
    ensures { IfOk result (λ turn.
        IsOfRule turn (first_rule (group_on w cluster.now.state)) w cluster.now.state) }
{
    match group_turn(cluster, w)? {
        Some(turn) => Ok(turn),
        None => turn_as_leader(alloc, cluster, w),
    }
}

// What it does next where it has nothing to do in a round either.
fn turn_as_leader(alloc: Global, cluster: &Cluster, w: u32) -> Result<Turn, AllocError>
    requires there { w < length cluster.now.state.rows }
    requires allowed { AreAllowedConfigs [] cluster.now.state.configs }
    requires read { read_applies w cluster.now.state ≡ false }
    ensures { IfOk result (λ turn.
        IsOfRule turn (first_rule (leading_on w cluster.now.state)) w cluster.now.state) }
{
    match leading_turn(alloc, cluster, w)? {
        Some(turn) => Ok(turn),
        None => turn_with_items(cluster, w),
    }
}

// What it starts or reports next, if anything.
fn turn_with_items(cluster: &Cluster, w: u32) -> Result<Turn, AllocError>
    requires there { w < length cluster.now.state.rows }
    ensures { IfOk result (λ turn.
        IsOfRule turn (first_rule (running_rules w cluster.now.state)) w cluster.now.state) }
{
    match running_turn(cluster, w)? {
        Some(turn) => Ok(turn),
        None => Ok(Turn::Idle),
    }
}

// What a worker that is deaf does next.
fn deaf_turn(alloc: Global, cluster: &Cluster, w: u32) -> Result<Turn, AllocError>
    requires there { w < length cluster.now.state.rows }
    requires deaf { (row_of w cluster.now.state).hearing ≡ false }
    ensures { IfOk result (λ turn. IsTurn turn w cluster.now.state) }
{
    if let Some((item, number)) = deaf_stop_applies(alloc, cluster, w)? {
        return Ok(Turn::Stop { item, number });
    }
    if let Some(turn) = running_turn(cluster, w)? {
        return Ok(turn);
    }
    Ok(Turn::Idle)
}

// Whether a worker is to read or to stop something.
fn reading_turn(alloc: Global, cluster: &Cluster, w: u32) -> Result<Option<Turn>, AllocError>
    requires there { w < length cluster.now.state.rows }
    ensures { IfOk result (λ found.
        IsStage found (first_rule (reading_rules w cluster.now.state)) w cluster.now.state) }
{
    if read_applies(cluster, w) {
        return Ok(Some(Turn::Read));
    }
    match stop_applies(alloc, cluster, w)? {
        Some((item, number)) => Ok(Some(Turn::Stop { item, number })),
        None => Ok(None),
    }
}

// What a worker is to do in a round.
fn group_turn(cluster: &Cluster, w: u32) -> Result<Option<Turn>, AllocError>
    requires stopped { stop_applies w cluster.now.state ≡ None }
    requires there { w < length cluster.now.state.rows }
    ensures { IfOk result (λ found.
        IsStage found (first_rule (group_rules w cluster.now.state)) w cluster.now.state) }
{
    if join_applies(cluster, w)? {
        return Ok(Some(Turn::Join));
    }
    if close_applies(cluster, w) {
        return Ok(Some(Turn::Close));
    }
    if plan_applies(cluster, w) {
        return Ok(Some(Turn::Plan));
    }
    if sync_applies(cluster, w) {
        return Ok(Some(Turn::Sync));
    }
    Ok(None)
}

// What a worker is to do as the leader, or through it.
fn leading_turn(alloc: Global, cluster: &Cluster, w: u32) -> Result<Option<Turn>, AllocError>
    requires there { w < length cluster.now.state.rows }
    requires allowed { AreAllowedConfigs [] cluster.now.state.configs }
    requires read { read_applies w cluster.now.state ≡ false }
    ensures { IfOk result (λ found.
        IsStage found (first_rule (leading_rules w cluster.now.state)) w cluster.now.state) }
{
    if lead_applies(cluster, w) {
        return Ok(Some(Turn::Lead));
    }
    if let Some(proposal) = propose_applies(cluster, w)? {
        let commits = are_deferred(alloc, cluster.config_of(w), &proposal.connector)?;
        return Ok(Some(Turn::Propose {
            leader: proposal.leader,
            connector: proposal.connector,
            commits,
        }));
    }
    if let Some(connector) = fence_applies(cluster, w)? {
        let producer = has_producer_left(cluster, w, &connector);
        return Ok(Some(Turn::Fence {
            connector,
            producer,
        }));
    }
    match mark_applies(cluster, w) {
        Some(log) => Ok(Some(Turn::Mark(log))),
        None => Ok(None),
    }
}

// What a worker is to start or to report.
fn running_turn(cluster: &Cluster, w: u32) -> Result<Option<Turn>, AllocError>
    requires there { w < length cluster.now.state.rows }
    ensures { IfOk result (λ found.
        IsStage found (first_rule (running_rules w cluster.now.state)) w cluster.now.state) }
{
    match start_applies(cluster, w)? {
        Some(item) => Ok(Some(Turn::Start(item))),
        None => reporting_turn(cluster, w),
    }
}

// What a worker is to report.
fn reporting_turn(cluster: &Cluster, w: u32) -> Result<Option<Turn>, AllocError>
    requires there { w < length cluster.now.state.rows }
    ensures { IfOk result (λ found.
        IsStage found (first_rule (reporting_rules w cluster.now.state)) w cluster.now.state) }
{
    match report_applies(cluster, w) {
        Some(number) => {
            let report = report_of(cluster, w, number)?;
            Ok(Some(report))
        }
        None => Ok(None),
    }
}

// The report of an instance's state.
fn report_of(cluster: &Cluster, w: u32, number: u64) -> Result<Turn, AllocError>
    requires there { w < length cluster.now.state.rows }
    requires runs { number < length cluster.now.state.instances }
    ensures { IfOk result (λ found. found ≡ turn.Report (instance_of number cluster.now.state).item
        (state_of (seen w cluster.now.state) (instance_of number cluster.now.state))) }
{
    let instance = cluster.instance_of(number);
    let state = state_of(cluster.config_of(w), instance);
    Ok(Turn::Report(instance.item.copy()?, state))
}
