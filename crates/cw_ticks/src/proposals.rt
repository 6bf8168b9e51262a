//! Which connector needs other tasks than it has (Connect's task configs in the config topic).
ghost use Rattle.std.specs.Prelude.{◌≡◌, ◌<◌, [], length, IfOk, option_map};
ghost use Rattle.std.specs.List.{find, filter_map};
ghost use Rattle.cw_model.specs.ConfigsAllowed.{AreAllowedConfigs};
ghost use Rattle.cw_model.specs.EventsItems.{is_active};
ghost use Rattle.cw_model.specs.Proposals.{proposal_of, needs_tasks, are_deferred};
ghost use Rattle.cw_model.specs.Ready.{ready, leads_round, leader_for, connector_in};
ghost use Rattle.cw_model.specs.TickRules.{propose_applies};
ghost use Rattle.cw_ticks.specs.Proposed.{AreFaultless, proposing};
ghost use Rattle.cw_rest.specs.Replies.{is_stopped};

use crate::phases::{is_stable_in, leads};
use crate::task_sets::{has_deferred, has_tasks};
use cw_config::ConfigState;
use cw_json::Props;
use cw_keys::Target;
use cw_model::RowPhase;
use cw_plugin::task_configs;
use cw_rows::Cluster;
use cw_types::{Item, Name};
use std::alloc::{AllocError, Global};

/// A connector that needs other tasks than it has, and the leader through which they are written.
#[derive(Debug, Drop)]
pub struct Proposal {
    /// The leader.
    pub leader: u32,
    /// The connector.
    pub connector: Name,
}

/// The first connector that a ready worker runs and that needs other tasks. Each config that the worker has read is one
/// that its class takes.
pub fn propose_applies(cluster: &Cluster, w: u32) -> Result<Option<Proposal>, AllocError>
    requires there { w < length cluster.now.state.rows }
    requires allowed { AreAllowedConfigs [] cluster.now.state.configs }
    ensures { IfOk result (λ found. option_map proposing found ≡ propose_applies w cluster.now.state) }
{
    let Some(leader) = ready(cluster, w) else {
        return Ok(None);
    };
    let held = cluster.held(w)?;
    let alloc = *held.allocator();
    match first_in_need(alloc, cluster.config_of(w), held.as_slice())? {
        Some(connector) => Ok(Some(Proposal { leader, connector })),
        None => Ok(None),
    }
}

/// The leader through which a worker may write, where there is one.
pub fn ready(cluster: &Cluster, w: u32) -> Option<u32>
    requires { w < length cluster.now.state.rows }
    ensures { result ≡ ready w cluster.now.state }
{
    if !is_active(cluster, w) {
        return None;
    }
    leader_for(cluster, cluster.row_of(w).phase)
}

// The leader of an assignment, where it leads that round.
fn leader_for(cluster: &Cluster, phase: RowPhase) -> Option<u32>
    ensures { result ≡ leader_for phase cluster.now.state }
{
    match phase {
        RowPhase::Stable { round, leader } => {
            if leads_round(cluster, round, leader) {
                Some(leader)
            } else {
                None
            }
        }
        RowPhase::Out | RowPhase::Joining => None,
    }
}

// Whether a worker leads a round: it takes part, has the round's assignment from itself, and claimed an epoch.
fn leads_round(cluster: &Cluster, round: u64, w: u32) -> bool
    ensures { result ≡ leads_round round w cluster.now.state }
{
    if !cluster.has_worker(w) {
        return false;
    }
    let row = cluster.row_of(w);
    is_active(cluster, w)
        && is_stable_in(round, row.phase)
        && leads(w, row.phase)
        && row.lead.is_some()
}

// Whether a worker takes part: it wasn't killed and isn't deaf.
fn is_active(cluster: &Cluster, w: u32) -> bool
    requires { w < length cluster.now.state.rows }
    ensures { result ≡ is_active cluster.now.state w }
{
    cluster.row_of(w).live && cluster.row_of(w).hearing
}

// The first connector among these items that needs other tasks.
fn first_in_need(
    alloc: Global,
    read: &ConfigState,
    items: &[Item],
) -> Result<Option<Name>, AllocError>
    requires { AreFaultless read.now }
    ensures { IfOk result (λ found. found ≡
        find (needs_tasks read.now) (filter_map connector_in items.now)) }
{
    for item in items {
        if let Item::Connector(name) = item {
            if needs_tasks(alloc, read, name)? {
                return Ok(Some(name.copy()?));
            }
        }
    }
    Ok(None)
}

// Whether a connector that isn't stopped needs other tasks than it has.
fn needs_tasks(alloc: Global, read: &ConfigState, name: &Name) -> Result<bool, AllocError>
    requires { AreFaultless read.now }
    ensures { IfOk result (λ needs. needs ≡ needs_tasks read.now name.now) }
{
    if is_stopped(read.target(name)) {
        return Ok(false);
    }
    let proposal = proposal_of(alloc, read, name)?;
    let has = has_tasks(read, name, proposal.as_slice())?;
    Ok(!has)
}

/// Whether the tasks that a connector needs wait for their commit.
pub fn are_deferred(alloc: Global, read: &ConfigState, name: &Name) -> Result<bool, AllocError>
    requires { AreFaultless read.now }
    ensures { IfOk result (λ are. are ≡ are_deferred read.now name.now) }
{
    let proposal = proposal_of(alloc, read, name)?;
    has_deferred(read, name, proposal.as_slice())
}

/// The tasks' configs that a connector's config asks for.
pub fn proposal_of(alloc: Global, read: &ConfigState, name: &Name) -> Result<Vec<Props>, AllocError>
    requires { AreFaultless read.now }
    ensures { IfOk result (λ proposal. proposal.items ≡ proposal_of name.now read.now) }
{
    match read.config(name) {
        Some(props) => task_configs(alloc, props),
        None => Ok(Vec::new(alloc)),
    }
}

// Whether a target state is that of a stopped connector.
fn is_stopped(target: Target) -> bool
    ensures { result ≡ is_stopped target }
{
    match target {
        Target::Stopped => true,
        Target::Started | Target::Paused => false,
    }
}
