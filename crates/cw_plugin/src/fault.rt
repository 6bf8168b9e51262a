//! Why a config is refused.
ghost use Rattle.std.specs.Prelude.{◌≡◌};

use cw_json::Text;
use std::alloc::{AllocError, AllocFailed};
use thiserror::Error;

/// Why a connector's config is refused, the first that holds in this order.
#[derive(Debug, Drop, Error)]
pub enum PluginFault {
    /// There is no `connector.class`.
    #[error("there is no connector.class")]
    NoClass,
    /// There is no class of that name.
    #[error("there is no such connector.class")]
    UnknownClass,
    /// The first required key that is lacking, or whose list is empty.
    #[error("{} is lacking", .0.as_str())]
    Missing(Text),
    /// The first key whose value is no number, or none in its range.
    #[error("{} is no number in its range", .0.as_str())]
    BadInt(Text),
    /// The first feed, as it is written, that isn't loaded.
    #[error("there is no feed {}", .0.as_str())]
    NoFeed(Text),
    /// The first key whose value is no name, or has an element that is none.
    #[error("{} is no name", .0.as_str())]
    BadName(Text),
    /// There was no memory.
    #[error("out of memory")]
    Memory,
}

impl From<AllocError> for PluginFault {
    ghost use Rattle.cw_plugin.specs.declared.fault.PluginFault.TheVariants.{Memory};

    ghost from_gives = { λ _ fault. fault ≡ Memory };

    fn from(_: AllocError) -> PluginFault {
        PluginFault::Memory
    }
}

impl<T: Drop> From<AllocFailed<T>> for PluginFault {
    ghost use Rattle.cw_plugin.specs.declared.fault.PluginFault.TheVariants.{Memory};

    ghost from_gives = { λ _ fault. fault ≡ Memory };

    fn from(_: AllocFailed<T>) -> PluginFault {
        PluginFault::Memory
    }
}
