//! Why eight disks are not opened as a cluster.
use cw_disk::Disks;
use cw_log::Harm;
use cw_types::DiskName;
use std::fmt;
use thiserror::Error;

/// Why eight disks are not opened as a cluster.
#[derive(Clone, Copy, Debug, PartialEq, Eq, Drop, Error)]
pub enum ReopenCause {
    /// The first harm, and the place of the gate that it is about.
    #[error("{disk:?} is damaged at byte {at}: {harm}")]
    Damaged {
        /// The disk of the log's chosen side, or the one whose header is harmed.
        disk: DiskName,
        /// The place of the gate.
        at: u64,
        /// What is wrong.
        harm: Harm,
    },
    /// A disk failed: its count of faults rose to this one.
    #[error("{disk:?} failed, with {count} faults")]
    StoreFault {
        /// The disk.
        disk: DiskName,
        /// Its count of faults.
        count: u64,
    },
    /// Want of memory.
    #[error("out of memory")]
    Memory,
}

/// Eight disks that are not opened as a cluster, and why.
#[derive(Drop)]
pub struct ReopenFault<D> {
    /// The disks that were handed in.
    pub disks: Disks<D>,
    /// Why they are not opened.
    pub cause: ReopenCause,
}

impl<D> fmt::Display for ReopenFault<D> {
    fn fmt<W: fmt::Write>(&self, f: &mut fmt::Formatter<W>) -> fmt::Result {
        write!(f, "{}", self.cause)
    }
}
