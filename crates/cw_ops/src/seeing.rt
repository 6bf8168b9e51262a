//! What a call sees of the cluster, and whether its worker may write.
ghost use Rattle.std.specs.Prelude.{◌≡◌, ◌<◌, ◌==◌, length};
ghost use Rattle.cw_types.specs.declared.ids.Tid.TheVariants.{Lead};
ghost use Rattle.cw_io.specs.Shelf.{names_of};
ghost use Rattle.cw_model.specs.Journal.{is_ready};
ghost use Rattle.cw_model.specs.Lookups.{row_of, last_epoch};
ghost use Rattle.cw_model.specs.Updates.{epoch_in};
ghost use Rattle.cw_rest.specs.Calls.{deed_of, is_reading};
ghost use Rattle.cw_edges.specs.Requests.{seen_now};
ghost use Rattle.cw_topics.specs.Statuses.{plain};
ghost use Rattle.cw_reply.specs.View.{seen_in};

use cw_config::ConfigState;
use cw_reply::View;
use cw_route::Call;
use cw_rows::Cluster;
use cw_ticks::ready;
use cw_types::{Epoch, Tid};

/// Whether a call only reads.
pub fn is_reading(call: &Call) -> bool
    ensures { result ≡ is_reading (deed_of call.now) }
{
    match call {
        Call::Refused(_)
        | Call::Connectors
        | Call::Info(_)
        | Call::Config(_)
        | Call::Status(_)
        | Call::Tasks(_)
        | Call::TaskStatus(_)
        | Call::Offsets(_)
        | Call::Plugins => true,
        Call::Create(_)
        | Call::Delete(_)
        | Call::PutConfig(_, _)
        | Call::Pause(_)
        | Call::Resume(_)
        | Call::Stop(_)
        | Call::Restart(_)
        | Call::RestartTask(_)
        | Call::Alter(_, _)
        | Call::Reset(_) => false,
    }
}

/// What a call through a worker sees: one that reads sees what its worker has read of the configs, another all of them.
pub fn seen_now<'a>(cluster: &'a Cluster, w: u32, call: &Call, ready: bool) -> View<'a>
    requires { w < length cluster.now.state.rows }
    ensures ready { result.ready ≡ ready }
    ensures seen { seen_in result ≡ seen_now cluster.now.setting w call.now cluster.now.state }
{
    if is_reading(call) {
        view_over(cluster, cluster.config_of(w), ready)
    } else {
        view_over(cluster, cluster.config_state(), ready)
    }
}

// The cluster, with these configs.
fn view_over<'a>(cluster: &'a Cluster, config: &'a ConfigState, ready: bool) -> View<'a>
    ensures ready { result.ready ≡ ready }
    ensures seen { seen_in result ≡ record {
      configs = config.now;
      statuses = plain cluster.now.state.statuses;
      entries = cluster.now.state.entries;
      feeds = names_of cluster.now.setting.feeds;
    } }
{
    View {
        ready,
        config,
        statuses: cluster.status_state(),
        txn: cluster.coordinator(),
        feeds: cluster.feeds().names(),
    }
}

/// Whether a worker may write: there is a leader for it, whose lead epoch is the last one (KIP-618).
pub fn is_ready(cluster: &Cluster, w: u32) -> bool
    requires { w < length cluster.now.state.rows }
    ensures { result ≡ is_ready w cluster.now.state }
{
    match ready(cluster, w) {
        Some(leader) => has_last_epoch(cluster, leader),
        None => false,
    }
}

// Whether a leader's epoch is the last one.
fn has_last_epoch(cluster: &Cluster, leader: u32) -> bool
    requires { leader < length cluster.now.state.rows }
    ensures { result ≡ (epoch_in (row_of leader cluster.now.state).lead == last_epoch Lead cluster.now.state) }
{
    number_of(cluster.row_of(leader).lead) == cluster.coordinator().epoch_of(&Tid::Lead)
}

// The number of an epoch, 0 for none.
fn number_of(epoch: Option<Epoch>) -> u64
    ensures { result ≡ epoch_in epoch }
{
    match epoch {
        Some(epoch) => epoch.0,
        None => 0,
    }
}
