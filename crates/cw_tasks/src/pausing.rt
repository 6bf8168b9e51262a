//! Whether a task waits (Kafka Connect's pause).
ghost use Rattle.std.specs.Prelude.{◌≡◌, ◌<◌, length};
ghost use Rattle.cw_model.specs.Lookups.{instance_of, connector_of};
ghost use Rattle.cw_model.specs.Phases.{may_pause};
ghost use Rattle.cw_model.specs.Steps.{is_paused_target, waits};

use cw_keys::Target;
use cw_model::InstancePhase;
use cw_rows::{Cluster, connector_of};

/// Whether a task waits, since its worker has read that its connector is paused. One with something in hand goes on.
pub fn waits(cluster: &Cluster, i: u64) -> bool
    requires there { i < length cluster.now.state.instances }
    requires worker { (instance_of i cluster.now.state).worker < length cluster.now.state.rows }
    ensures { result ≡ waits (instance_of i cluster.now.state) cluster.now.state }
{
    let instance = cluster.instance_of(i);
    if !may_pause(instance.phase) {
        return false;
    }
    let read = cluster.config_of(instance.worker);
    is_paused_target(read.target(connector_of(&instance.item)))
}

// Whether a task may pause: it is at work, and has nothing in hand.
fn may_pause(phase: InstancePhase) -> bool
    ensures { result ≡ may_pause phase }
{
    match phase {
        InstancePhase::New
        | InstancePhase::Inited
        | InstancePhase::Verified
        | InstancePhase::Polling => true,
        InstancePhase::Connector
        | InstancePhase::Produced
        | InstancePhase::Offered
        | InstancePhase::Delivered
        | InstancePhase::Failed
        | InstancePhase::Ended => false,
    }
}

// Whether a target state is that of a paused connector.
fn is_paused_target(target: Target) -> bool
    ensures { result ≡ is_paused_target target }
{
    match target {
        Target::Paused => true,
        Target::Started | Target::Stopped => false,
    }
}
