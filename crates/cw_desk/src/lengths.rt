//! How much of the session lists a call sees.
ghost use Rattle.std.specs.Prelude.{◌≡◌, ◌≤◌, ◌<◌, ◌-◌, ◌^◌, length, IfSome, IfNone};
ghost use Rattle.cw_model.specs.Lookups.{row_of};
ghost use Rattle.cw_model.specs.Journal.{prefix_for};
ghost use Rattle.cw_rest.specs.Calls.{deed_of};
ghost use Rattle.cw_desk.specs.Turns.{lengths_in};

use cw_ops::is_reading;
use cw_route::Call;
use cw_rows::Cluster;

/// How long the session lists were for a call.
#[derive(Clone, Copy, Debug, Drop)]
pub struct Lengths {
    /// Records of the config log.
    pub prefix: u64,
    /// Records of the status log.
    pub statuses: u64,
    /// Entries of the transaction list.
    pub entries: u64,
}

/// How much a call through a worker sees now; None where the statuses are more than a number counts.
pub(crate) fn lengths_now(cluster: &Cluster, w: u32, call: &Call) -> Option<Lengths>
    requires { w < length cluster.now.state.rows }
    ensures some { IfSome result (λ lengths. lengths ≡ lengths_in w call.now cluster.now.state) }
    ensures none { IfNone result (2 ^ 64 - 1 ≤ length cluster.now.state.statuses) }
{
    let statuses = cluster.status_count();
    if statuses == u64::MAX {
        return None;
    }
    Some(Lengths {
        prefix: prefix_now(cluster, w, call),
        statuses,
        entries: cluster.coordinator().length(),
    })
}

// How much of the config log it sees: one that reads as much as its worker has read, another all.
fn prefix_now(cluster: &Cluster, w: u32, call: &Call) -> u64
    requires { w < length cluster.now.state.rows }
    ensures { result ≡ prefix_for (deed_of call.now) w cluster.now.state }
{
    if is_reading(call) {
        cluster.row_of(w).prefix
    } else {
        cluster.config_count()
    }
}
