//! States of connectors and tasks.
ghost use Rattle.std.specs.Prelude.{◌≡◌};
ghost use Rattle.cw_keys.specs.Statuses.{state_named, state_name};

/// What state a connector or a task has, by the names of Connect's REST API.
#[derive(Clone, Copy, Debug, PartialEq, Eq, Drop)]
pub enum State {
    /// No worker runs it yet.
    Unassigned,
    /// It runs.
    Running,
    /// It keeps what it holds and does nothing.
    Paused,
    /// It ended with a fault.
    Failed,
    /// It is about to be started again.
    Restarting,
    /// It has no tasks (KIP-875).
    Stopped,
}

// The state with a name.
pub(crate) fn state_named(name: &str) -> Option<State>
    ensures { result ≡ state_named name.now }
{
    if name == "UNASSIGNED" {
        Some(State::Unassigned)
    } else if name == "RUNNING" {
        Some(State::Running)
    } else if name == "PAUSED" {
        Some(State::Paused)
    } else if name == "FAILED" {
        Some(State::Failed)
    } else if name == "RESTARTING" {
        Some(State::Restarting)
    } else if name == "STOPPED" {
        Some(State::Stopped)
    } else {
        None
    }
}

impl State {
    /// The state's name, as Connect's REST API shows it.
    pub fn name(self) -> &'static str
        ensures { result.now ≡ state_name self }
    {
        match self {
            State::Unassigned => "UNASSIGNED",
            State::Running => "RUNNING",
            State::Paused => "PAUSED",
            State::Failed => "FAILED",
            State::Restarting => "RESTARTING",
            State::Stopped => "STOPPED",
        }
    }
}
