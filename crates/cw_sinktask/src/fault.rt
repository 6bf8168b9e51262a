//! Why a sink's step isn't done.
use cw_model::WorldFault;
use thiserror::Error;

/// Why a sink's step isn't done.
#[derive(Debug, Drop, Error)]
pub enum SinkFault {
    /// The world refused it; nothing was put into the task's file.
    #[error("{0}")]
    World(WorldFault),
    /// The task's file couldn't be written; the world is as it was.
    #[error("the task's file couldn't be written")]
    Outlet,
}
