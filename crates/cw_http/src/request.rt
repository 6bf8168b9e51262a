//! Requests, and why there is none.
use cw_types::Listed;
use std::alloc::AllocError;
use thiserror::Error;

/// A request that was read whole.
#[derive(Debug, Drop)]
pub struct Request {
    /// Its method, as GET.
    pub method: Listed<u8>,
    /// Its target, as it was sent.
    pub target: Listed<u8>,
    /// Its body.
    pub body: Listed<u8>,
    /// Whether the connection closes behind its reply.
    pub close: bool,
}

/// Why no request was read.
#[derive(Clone, Copy, Debug, PartialEq, Eq, Drop, Error)]
pub enum HttpFault {
    /// The peer's bytes ended before a whole request.
    #[error("the bytes ended before a whole request")]
    Ended,
    /// The link failed. Its count of faults rose.
    #[error("the link failed")]
    LinkFault,
    /// The bytes are refused with this code: 400, 413, 431, 501 or 505.
    #[error("the bytes are refused with {0}")]
    Bad(u16),
    /// There was no memory.
    #[error("out of memory")]
    Memory,
}

impl From<AllocError> for HttpFault {
    ghost use Rattle.std.specs.Prelude.{◌≡◌};
    ghost use Rattle.cw_http.specs.declared.request.HttpFault.TheVariants.{Memory};

    ghost from_gives = { λ _ fault. fault ≡ Memory };

    fn from(_: AllocError) -> HttpFault {
        HttpFault::Memory
    }
}
