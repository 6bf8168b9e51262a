//! What a worker is to report.
ghost use Rattle.std.specs.Prelude.{◌≡◌, ◌<◌, ℕ, length, option_map, Some};
ghost use Rattle.std.specs.List.{find, AllByRecursion};
ghost use Rattle.cw_model.specs.EventsReports.{aimed_state, state_of};
ghost use Rattle.cw_model.specs.Lookups.{instance_of, seen, connector_of};
ghost use Rattle.cw_model.specs.Phases.{has_failed};
ghost use Rattle.cw_model.specs.TickRules.{is_reported, report_applies};
ghost use Rattle.cw_rows.specs.Crew.{numbers_at};
ghost use Rattle.cw_ticks.specs.Running.{to_report};

use cw_config::ConfigState;
use cw_keys::{State, Target};
use cw_model::{Instance, InstancePhase};
use cw_rows::{Cluster, connector_of};
use cw_types::Item;

/// The number of the first of a worker's instances whose state isn't the one that was reported of it last.
pub fn report_applies(cluster: &Cluster, w: u32) -> Option<u64>
    requires { w < length cluster.now.state.rows }
    ensures there { (n : ℕ) → result ≡ Some n → n < length cluster.now.state.instances }
    ensures first { option_map (λ n. instance_of n cluster.now.state) result ≡ report_applies w cluster.now.state }
{
    first_to_report(cluster, cluster.config_of(w), cluster.numbers_of(w))
}

// The first of these numbers whose instance's state isn't reported.
fn first_to_report(cluster: &Cluster, read: &ConfigState, numbers: &[u64]) -> Option<u64>
    requires { AllByRecursion (λ n. n < length cluster.now.state.instances) numbers.now }
    ensures there { (n : ℕ) → result ≡ Some n → n < length cluster.now.state.instances }
    ensures first { result ≡ find (λ n. to_report read.now (instance_of n cluster.now.state)) numbers.now }
{
    for number in numbers {
        if to_report(read, cluster.instance_of(*number)) {
            return Some(*number);
        }
    }
    None
}

// Whether an instance's state isn't the one that was reported last.
fn to_report(read: &ConfigState, instance: &Instance) -> bool
    ensures { result ≡ to_report read.now instance.now }
{
    !is_reported(state_of(read, instance), &instance.reported)
}

// Whether this is the state that was reported last.
fn is_reported(state: State, reported: &Option<State>) -> bool
    ensures { result ≡ is_reported state reported.now }
{
    match reported {
        Some(reported) => state.name() == reported.name(),
        None => false,
    }
}

/// The state of an instance, as its worker has read the target state.
pub fn state_of(read: &ConfigState, instance: &Instance) -> State
    ensures { result ≡ state_of read.now instance.now }
{
    if has_failed(instance.phase) {
        return State::Failed;
    }
    aimed_state(&instance.item, read.target(connector_of(&instance.item)))
}

// Whether a phase is that of an instance that failed.
fn has_failed(phase: InstancePhase) -> bool
    ensures { result ≡ has_failed phase }
{
    match phase {
        InstancePhase::Failed => true,
        InstancePhase::Connector
        | InstancePhase::New
        | InstancePhase::Inited
        | InstancePhase::Verified
        | InstancePhase::Polling
        | InstancePhase::Produced
        | InstancePhase::Offered
        | InstancePhase::Delivered
        | InstancePhase::Ended => false,
    }
}

// The state of an item that hasn't failed, by its connector's target state; no task is reported as stopped.
fn aimed_state(item: &Item, target: Target) -> State
    ensures { result ≡ aimed_state item.now target }
{
    match target {
        Target::Started => State::Running,
        Target::Paused => State::Paused,
        Target::Stopped => match item {
            Item::Connector(_) => State::Stopped,
            Item::Task(_) => State::Running,
        },
    }
}
