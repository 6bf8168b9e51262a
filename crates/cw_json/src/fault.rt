//! Why a text or a value is no properties.
ghost use Rattle.std.specs.Prelude.{◌≡◌};

use crate::text::Text;
use std::alloc::{AllocError, AllocFailed};
use thiserror::Error;

/// Why there are no properties, the first that holds in this order.
#[derive(Debug, Drop, Error)]
pub enum JsonFault {
    /// The text is no JSON: it isn't UTF-8, or RFC 8259 has no reading of it within 127 levels and with finite numbers.
    #[error("the text is no JSON")]
    NotJson,
    /// The value is no object.
    #[error("the value is no object")]
    NotObject,
    /// The first key, by bytes, whose value is null, a list, an object, or a number that isn't whole
    /// or is outside -2^63 to 2^64 - 1.
    #[error("the value of {} is no property's", .0.as_str())]
    BadValue(Text),
    /// There was no memory.
    #[error("out of memory")]
    Memory,
}

impl From<AllocError> for JsonFault {
    ghost use Rattle.cw_json.specs.declared.fault.JsonFault.TheVariants.{Memory};

    ghost from_gives = { λ _ fault. fault ≡ Memory };

    fn from(_: AllocError) -> JsonFault {
        JsonFault::Memory
    }
}

impl<T: Drop> From<AllocFailed<T>> for JsonFault {
    ghost use Rattle.cw_json.specs.declared.fault.JsonFault.TheVariants.{Memory};

    ghost from_gives = { λ _ fault. fault ≡ Memory };

    fn from(_: AllocFailed<T>) -> JsonFault {
        JsonFault::Memory
    }
}
