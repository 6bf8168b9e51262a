//! The calls of the REST API, and why a request is none of them.
ghost use Rattle.std.specs.Prelude.{◌≡◌, IfOk};

use cw_types::{Listed, Name, TaskId};
use std::alloc::AllocError;
use thiserror::Error;

/// A call of the REST API, with its body unread.
#[derive(Debug, Drop)]
pub enum Call {
    /// A request that was read whole and is no call. The fault is never want of memory.
    Refused(RouteFault),
    /// The names of the connectors.
    Connectors,
    /// Makes the connector that the body tells.
    Create(Listed<u8>),
    /// A connector's config and tasks.
    Info(Name),
    /// Removes a connector.
    Delete(Name),
    /// A connector's config.
    Config(Name),
    /// Gives a connector the config in the body.
    PutConfig(Name, Listed<u8>),
    /// The states of a connector and of its tasks.
    Status(Name),
    /// A connector's tasks with their configs.
    Tasks(Name),
    /// The state of a task.
    TaskStatus(TaskId),
    /// Pauses a connector.
    Pause(Name),
    /// Resumes a connector.
    Resume(Name),
    /// Stops a connector (KIP-875).
    Stop(Name),
    /// Restarts a connector.
    Restart(Name),
    /// Restarts a task.
    RestartTask(TaskId),
    /// A connector's offsets (KIP-875).
    Offsets(Name),
    /// Changes the offsets that the body names (KIP-875).
    Alter(Name, Listed<u8>),
    /// Removes a connector's offsets (KIP-875).
    Reset(Name),
    /// The classes of connectors.
    Plugins,
}

impl Call {
    /// A copy.
    pub fn copy(&self) -> Result<Call, AllocError>
        ensures { IfOk result (λ call. call ≡ self.now) }
    {
        match self {
            Call::Refused(fault) => Ok(Call::Refused(*fault)),
            Call::Connectors => Ok(Call::Connectors),
            Call::Create(body) => Ok(Call::Create(body.copy()?)),
            Call::Info(name) => Ok(Call::Info(name.copy()?)),
            Call::Delete(name) => Ok(Call::Delete(name.copy()?)),
            Call::Config(name) => Ok(Call::Config(name.copy()?)),
            Call::PutConfig(name, body) => Ok(Call::PutConfig(name.copy()?, body.copy()?)),
            Call::Status(name) => Ok(Call::Status(name.copy()?)),
            Call::Tasks(name) => Ok(Call::Tasks(name.copy()?)),
            Call::TaskStatus(id) => Ok(Call::TaskStatus(id.copy()?)),
            Call::Pause(name) => Ok(Call::Pause(name.copy()?)),
            Call::Resume(name) => Ok(Call::Resume(name.copy()?)),
            Call::Stop(name) => Ok(Call::Stop(name.copy()?)),
            Call::Restart(name) => Ok(Call::Restart(name.copy()?)),
            Call::RestartTask(id) => Ok(Call::RestartTask(id.copy()?)),
            Call::Offsets(name) => Ok(Call::Offsets(name.copy()?)),
            Call::Alter(name, body) => Ok(Call::Alter(name.copy()?, body.copy()?)),
            Call::Reset(name) => Ok(Call::Reset(name.copy()?)),
            Call::Plugins => Ok(Call::Plugins),
        }
    }
}

/// Why a request is no call. The first that holds is told, in the order NotFound, NotAllowed,
/// BadQuery, BadPath.
#[derive(Clone, Copy, Debug, PartialEq, Eq, Drop, Error)]
pub enum RouteFault {
    /// No pattern of the table spells the path.
    #[error("not found")]
    NotFound,
    /// The path has other methods.
    #[error("method not allowed")]
    NotAllowed,
    /// A part of the path is no name, or no task's number.
    #[error("bad path")]
    BadPath,
    /// The target has a query.
    #[error("query not supported")]
    BadQuery,
    /// There was no memory.
    #[error("out of memory")]
    Memory,
}

impl From<AllocError> for RouteFault {
    ghost use Rattle.cw_route.specs.declared.call.RouteFault.TheVariants.{Memory};

    ghost from_gives = { λ _ fault. fault ≡ Memory };

    fn from(_: AllocError) -> RouteFault {
        RouteFault::Memory
    }
}
