//! Why a record isn't applied.
ghost use Rattle.std.specs.Prelude.{◌≡◌};

use std::alloc::AllocError;
use thiserror::Error;

/// Why a record wasn't applied.
#[derive(Clone, Copy, Debug, PartialEq, Eq, Drop, Error)]
pub enum ApplyFault {
    /// The record of this offset may not stand here: its offset isn't above all earlier ones, its key or
    /// its value is none of the config log, or it commits a task of which there is no record since its
    /// connector's last commit.
    #[error("the record of offset {0} may not stand here")]
    BadRecord(u64),
    /// Want of memory.
    #[error("out of memory")]
    Memory,
}

impl From<AllocError> for ApplyFault {
    ghost use Rattle.cw_config.specs.declared.fault.ApplyFault.TheVariants.{Memory};

    ghost from_gives = { λ _ fault. fault ≡ Memory };

    fn from(_: AllocError) -> ApplyFault {
        ApplyFault::Memory
    }
}
