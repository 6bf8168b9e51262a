//! Why a field couldn't be read.
use std::alloc::{AllocError, AllocFailed};
use thiserror::Error;

/// Why a field couldn't be read: the first fault from the left.
#[derive(Clone, Copy, Debug, PartialEq, Eq, Drop, Error)]
pub enum FieldFault {
    /// The bytes end before the field that begins at this place does.
    #[error("the field at byte {0} is cut")]
    Short(usize),
    /// This kind byte isn't listed, or it is 0 for a list without records.
    #[error("kind {0} is not listed")]
    BadKind(u8),
    /// The text that begins at this place is no name.
    #[error("the text at byte {0} is no name")]
    BadName(usize),
    /// Want of memory.
    #[error("out of memory")]
    Memory,
}

impl From<AllocError> for FieldFault {
    ghost use Rattle.std.specs.Prelude.{◌≡◌};
    ghost use Rattle.cw_bytes.specs.declared.fault.FieldFault.TheVariants.{Memory};

    ghost from_gives = { λ _ fault. fault ≡ Memory };

    fn from(_: AllocError) -> Self {
        FieldFault::Memory
    }
}

impl<T: Drop> From<AllocFailed<T>> for FieldFault {
    ghost use Rattle.std.specs.Prelude.{◌≡◌};
    ghost use Rattle.cw_bytes.specs.declared.fault.FieldFault.TheVariants.{Memory};

    ghost from_gives = { λ _ fault. fault ≡ Memory };

    fn from(_: AllocFailed<T>) -> Self {
        FieldFault::Memory
    }
}
