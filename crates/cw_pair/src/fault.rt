// Why two disks are no log.
use cw_log::OpenCause;
use std::fmt;

/// Two disks that were not opened as a log, and why.
#[derive(Drop)]
pub struct PairFault<D> {
    /// The disk of side a that was handed in.
    pub a: D,
    /// The disk of side b that was handed in.
    pub b: D,
    /// The side of which the cause speaks: 0 is side a, 1 is side b.
    pub side: u8,
    /// Why they were not opened.
    pub cause: OpenCause,
}

impl<D> fmt::Display for PairFault<D> {
    fn fmt<W: fmt::Write>(&self, f: &mut fmt::Formatter<W>) -> fmt::Result {
        write!(f, "side {}: {}", self.side, self.cause)
    }
}
