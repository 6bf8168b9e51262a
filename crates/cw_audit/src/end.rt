//! How an audit ended.
use cw_disk::Disks;
use cw_log::Harm;
use cw_open::ReopenCause;
use cw_types::DiskName;

/// How an audit ended.
#[derive(Clone, Copy, Debug, PartialEq, Eq, Drop)]
pub enum AuditEnd {
    /// The whole report was written.
    Done,
    /// The output failed: a first part of the report was written.
    WriteFault,
    /// A disk failed.
    StoreFault {
        /// The disk.
        disk: DiskName,
        /// Its count of faults.
        count: u64,
    },
    /// The files have a harm, which is their first.
    Damaged {
        /// The disk of the log's chosen side, or the one whose header is harmed.
        disk: DiskName,
        /// The place of the gate.
        at: u64,
        /// What is wrong.
        harm: Harm,
    },
    /// Want of memory.
    Memory,
}

impl AuditEnd {
    ghost use Rattle.std.specs.Prelude.{◌≡◌};
    ghost use Rattle.cw_audit.specs.Audited.{end_of};

    /// The end of an audit whose disks were not opened.
    pub(crate) fn of(cause: ReopenCause) -> AuditEnd
        ensures { result ≡ end_of cause }
    {
        match cause {
            ReopenCause::Damaged { disk, at, harm } => AuditEnd::Damaged { disk, at, harm },
            ReopenCause::StoreFault { disk, count } => AuditEnd::StoreFault { disk, count },
            ReopenCause::Memory => AuditEnd::Memory,
        }
    }
}

/// What an audit gave.
#[derive(Drop)]
pub struct Audited<D> {
    /// How it ended.
    pub end: AuditEnd,
    /// The disks that were handed in.
    pub disks: Disks<D>,
}
