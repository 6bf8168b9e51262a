//! How connections end.

/// Why a connection ended.
#[derive(Clone, Copy, Debug, PartialEq, Eq, Drop)]
pub enum ConnEnd {
    /// The peer's bytes ended, before a whole request.
    Ended,
    /// A request asked for it, and its reply was written.
    Closed,
    /// The 100th reply was written, and none of the requests asked for an end.
    Many,
    /// The peer's bytes were refused with this code: 400, 413, 431, 501 or 505.
    Bad(u16),
    /// The link failed. Its count of faults rose.
    LinkFault,
    /// There was no memory for a request, and the reply that tells so was written. Where it was the desk that wanted
    /// memory, the call may have been done.
    Memory,
}
