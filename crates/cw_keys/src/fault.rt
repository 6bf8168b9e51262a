//! Why a record is none of a log's.
ghost use Rattle.std.specs.Prelude.{◌≡◌};

use std::alloc::AllocError;
use thiserror::Error;

/// Why bytes are no record of a log, the first that holds in this order.
#[derive(Clone, Copy, Debug, PartialEq, Eq, Drop, Error)]
pub enum KeyFault {
    /// The key isn't in the log's grammar.
    #[error("no key of this log")]
    BadKey,
    /// The value isn't in the grammar of the key's kind.
    #[error("no value of the key's kind")]
    BadValue,
    /// There was no memory.
    #[error("out of memory")]
    Memory,
}

impl From<AllocError> for KeyFault {
    ghost use Rattle.cw_keys.specs.declared.fault.KeyFault.TheVariants.{Memory};

    ghost from_gives = { λ _ fault. fault ≡ Memory };

    fn from(_: AllocError) -> KeyFault {
        KeyFault::Memory
    }
}
