//! What a leader is to fence before new tasks start (KIP-618).
ghost use Rattle.std.specs.Prelude.{◌≡◌, ◌==◌, ◌&&◌, ◌<◌, length, IfOk, bytes_eq, is_some, nat_lt};
ghost use Rattle.std.specs.List.{find, filter_map};
ghost use Rattle.cw_config.specs.View.{is_pending};
ghost use Rattle.cw_model.specs.EventsLeading.{fencing_of};
ghost use Rattle.cw_model.specs.Ready.{connector_in, is_stable};
ghost use Rattle.cw_model.specs.TickRules.{fence_applies};

use crate::phases::is_stable;
use cw_config::ConfigState;
use cw_model::{Fencing, Row};
use cw_rows::{Cluster, configured_items};
use cw_types::{Item, Name};
use std::alloc::AllocError;

/// The first connector whose older tasks a leader has to fence.
pub fn fence_applies(cluster: &Cluster, w: u32) -> Result<Option<Name>, AllocError>
    requires { w < length cluster.now.state.rows }
    ensures { IfOk result (λ found. found ≡ fence_applies w cluster.now.state) }
{
    if may_fence(cluster.row_of(w)) {
        let read = cluster.config_of(w);
        let items = configured_items(read)?;
        return first_pending(read, items.as_slice());
    }
    Ok(None)
}

// Whether a worker has a lead epoch and an assignment.
fn may_fence(row: &Row) -> bool
    ensures { result ≡ (is_some row.now.lead && is_stable row.now.phase) }
{
    row.lead.is_some() && is_stable(row.phase)
}

/// Whether a producer of a connector's older tasks is still to be fenced; else what is left is the record that all
/// are.
pub fn has_producer_left(cluster: &Cluster, w: u32, name: &Name) -> bool
    requires { w < length cluster.now.state.rows }
    ensures { result ≡ nat_lt (fencing_of w name.now cluster.now.state).next
        (fencing_of w name.now cluster.now.state).count }
{
    let generation = cluster.config_of(w).generation(name).unwrap_or(0);
    match &cluster.row_of(w).fencing {
        Some(own) => {
            if is_fencing(own, name, generation) {
                return own.next < own.count;
            }
            0 < cluster.config_state().fenced_count(name)
        }
        None => 0 < cluster.config_state().fenced_count(name),
    }
}

// Whether a fencing is of a connector's tasks before a generation.
fn is_fencing(fencing: &Fencing, name: &Name, generation: u64) -> bool
    ensures { result ≡ (bytes_eq fencing.now.connector name.now && (fencing.now.generation == generation)) }
{
    fencing.connector == *name && fencing.generation == generation
}

// The first connector among these items whose older tasks aren't fenced yet.
fn first_pending(read: &ConfigState, items: &[Item]) -> Result<Option<Name>, AllocError>
    ensures { IfOk result (λ found. found ≡
        find (λ name. is_pending name read.now) (filter_map connector_in items.now)) }
{
    for item in items {
        if let Item::Connector(name) = item {
            if read.is_pending(name) {
                return Ok(Some(name.copy()?));
            }
        }
    }
    Ok(None)
}
