//! Target states of connectors.
ghost use Rattle.std.specs.Prelude.{◌≡◌, IfOk, option_and_then};
ghost use Rattle.serde_json.specs.View.{view};
ghost use Rattle.cw_keys.specs.Targets.{target_named, target_of, target_name, old_target_name, target_data};

use serde_json::{Value, json};
use std::alloc::{AllocError, Global};

/// What state a connector is to have.
#[derive(Clone, Copy, Debug, PartialEq, Eq, Drop)]
pub enum Target {
    /// It runs with its tasks.
    Started,
    /// It and its tasks keep what they hold and do nothing.
    Paused,
    /// It has no tasks (KIP-875).
    Stopped,
}

fn target_named(name: &str) -> Option<Target>
    ensures { result ≡ target_named name.now }
{
    if name == "STARTED" {
        Some(Target::Started)
    } else if name == "PAUSED" {
        Some(Target::Paused)
    } else if name == "STOPPED" {
        Some(Target::Stopped)
    } else {
        None
    }
}

// The target state that a value tells.
pub(crate) fn target_of(value: &Value) -> Option<Target>
    ensures { result ≡ target_of (view value.now) }
{
    let state = match value.get("state.v2") {
        Some(newer) => newer,
        None => value.get("state")?,
    };
    target_named(state.as_str()?)
}

impl Target {
    // The name in `state.v2`.
    fn name(self) -> &'static str
        ensures { result.now ≡ target_name self }
    {
        match self {
            Target::Started => "STARTED",
            Target::Paused => "PAUSED",
            Target::Stopped => "STOPPED",
        }
    }

    // The name in `state`, for workers that know two states.
    fn old_name(self) -> &'static str
        ensures { result.now ≡ old_target_name self }
    {
        match self {
            Target::Started => "STARTED",
            Target::Paused | Target::Stopped => "PAUSED",
        }
    }
}

// The value that is written for a target state.
pub(crate) fn target_value(alloc: Global, target: Target) -> Result<Value, AllocError>
    ensures { IfOk result (λ value. view value ≡ target_data target) }
{
    json!(in alloc; {"state": target.old_name(), "state.v2": target.name()})
}
