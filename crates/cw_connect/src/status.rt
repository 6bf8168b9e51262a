//! How a run of the program ended.
ghost use Rattle.std.specs.Prelude.{◌≡◌};
ghost use Rattle.cw_connect.specs.Statuses.{status_number, status_of_audit, status_of_cause, status_of_end};
ghost use Rattle.cw_connect.specs.Statuses.{status_of_gen, status_of_serve, status_of_shelf, status_of_words};

use cw_audit::AuditEnd;
use cw_cluster::DriveEnd;
use cw_desk::{Disagree, Member};
use cw_gen::GenEnd;
use cw_io::ShelfFault;
use cw_log::Harm;
use cw_open::ReopenCause;
use cw_script::LineKind;
use cw_serve::ServeEnd;
use cw_types::{DiskName, LogName};
use cw_words::WordsFault;
use cw_world::Receipt;

/// How a run ended. `main` exits with the status's number.
#[derive(Drop)]
pub enum Status {
    /// The input was read to its end and every directive was answered, or the whole report or summary was written, or
    /// the listener gave as many links as the words ask for, or ended, and all were served.
    Done,
    /// The words aren't a command.
    Usage,
    /// This line, counted from 1, is the first that is no directive, or names a worker or an instance that never was.
    BadScript {
        /// The line's number.
        line: u64,
        /// What is wrong with it.
        kind: LineKind,
    },
    /// A limit on the lines was passed: 1,000,001 where that line began, 65,537 where a line had that
    /// many bytes.
    TooLong(u64),
    /// Reading the input failed.
    ReadFault,
    /// Writing the output failed.
    WriteFault,
    /// A disk failed.
    StoreFault {
        /// The disk.
        disk: DiskName,
        /// Its count of faults, which rose.
        count: u64,
    },
    /// The bytes on a disk are no log of the cluster's.
    Damaged {
        /// The disk.
        disk: DiskName,
        /// The place of the gate that the harm is about.
        at: u64,
        /// The first harm.
        harm: Harm,
    },
    /// The feeds couldn't be loaded.
    ShelfFault,
    /// What a sink's task handed out couldn't be written.
    OutletFault,
    /// The listener failed.
    NetFault,
    /// A log has no room for the event in hand, of no request: `length + frame` passes 2^28, or a record's offset
    /// would pass 2^64 - 1.
    Full {
        /// The log.
        log: LogName,
        /// Its bytes, up to and with its closed gate.
        length: u64,
        /// The bytes that the event would append.
        frame: u64,
    },
    /// Want of memory.
    Memory,
    /// A receipt of an answered call isn't the journal's entry of its number, or it is one of two of that number.
    Disagree {
        /// The number.
        at: u64,
        /// The receipt that was kept.
        kept: Receipt,
        /// What is found in place of its entry; None where the journal has no entry of its number.
        found: Option<Member>,
    },
}

impl Status {
    /// The number that the program exits with.
    pub fn number(&self) -> u8
        ensures { result ≡ status_number self.now }
    {
        match self {
            Status::Done => 0,
            Status::Usage => 1,
            Status::BadScript { .. } => 2,
            Status::TooLong(_) => 2,
            Status::ReadFault => 3,
            Status::WriteFault => 4,
            Status::StoreFault { .. } => 5,
            Status::Damaged { .. } => 6,
            Status::ShelfFault => 7,
            Status::OutletFault => 8,
            Status::NetFault => 9,
            Status::Full { .. } => 10,
            Status::Memory => 11,
            Status::Disagree { .. } => 12,
        }
    }

    /// How a run ends whose words are no command.
    pub(crate) fn of_words(fault: WordsFault) -> Status
        ensures { result ≡ status_of_words fault }
    {
        match fault {
            WordsFault::Usage => Status::Usage,
            WordsFault::Memory => Status::Memory,
        }
    }

    /// How a run ends whose feeds couldn't be loaded.
    pub(crate) fn of_shelf(fault: ShelfFault) -> Status
        ensures { result ≡ status_of_shelf fault }
    {
        match fault {
            ShelfFault::Failed => Status::ShelfFault,
            ShelfFault::Memory => Status::Memory,
        }
    }

    /// How a run ends whose disks weren't opened.
    pub(crate) fn of_cause(cause: ReopenCause) -> Status
        ensures { result ≡ status_of_cause cause }
    {
        match cause {
            ReopenCause::Damaged { disk, at, harm } => Status::Damaged { disk, at, harm },
            ReopenCause::StoreFault { disk, count } => Status::StoreFault { disk, count },
            ReopenCause::Memory => Status::Memory,
        }
    }

    /// How a run ends whose report ended so.
    pub(crate) fn of_audit(end: AuditEnd) -> Status
        ensures { result ≡ status_of_audit end }
    {
        match end {
            AuditEnd::Done => Status::Done,
            AuditEnd::WriteFault => Status::WriteFault,
            AuditEnd::StoreFault { disk, count } => Status::StoreFault { disk, count },
            AuditEnd::Damaged { disk, at, harm } => Status::Damaged { disk, at, harm },
            AuditEnd::Memory => Status::Memory,
        }
    }

    /// How a run ends whose script was made and ended so.
    pub(crate) fn of_gen(end: GenEnd) -> Status
        ensures { result ≡ status_of_gen end }
    {
        match end {
            GenEnd::Done => Status::Done,
            GenEnd::WriteFault => Status::WriteFault,
            GenEnd::Full { log, length, frame } => Status::Full { log, length, frame },
            GenEnd::Memory => Status::Memory,
        }
    }

    /// How a run ends whose script ended so.
    pub(crate) fn of_end(end: DriveEnd) -> Status
        ensures { result ≡ status_of_end end }
    {
        match end {
            DriveEnd::Done => Status::Done,
            DriveEnd::BadScript { line, kind } => Status::BadScript { line, kind },
            DriveEnd::TooLong(count) => Status::TooLong(count),
            DriveEnd::ReadFault => Status::ReadFault,
            DriveEnd::WriteFault => Status::WriteFault,
            DriveEnd::StoreFault { disk, count } => Status::StoreFault { disk, count },
            DriveEnd::OutletFault => Status::OutletFault,
            DriveEnd::Full { log, length, frame } => Status::Full { log, length, frame },
            DriveEnd::Memory => Status::Memory,
        }
    }

    /// How a run ends whose server ended so.
    pub(crate) fn of_serve(end: ServeEnd) -> Status
        ensures { result ≡ status_of_serve end }
    {
        match end {
            ServeEnd::Done => Status::Done,
            ServeEnd::StoreFault { disk, count } => Status::StoreFault { disk, count },
            ServeEnd::OutletFault => Status::OutletFault,
            ServeEnd::NetFault => Status::NetFault,
            ServeEnd::Memory => Status::Memory,
            ServeEnd::Disagree(Disagree { at, kept, found }) => Status::Disagree {
                at,
                kept,
                found,
            },
        }
    }
}
