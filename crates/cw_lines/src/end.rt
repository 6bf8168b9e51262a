//! How a script ended.
use cw_script::LineKind;
use cw_types::{DiskName, LogName};
use std::alloc::{AllocError, AllocFailed};
use thiserror::Error;

/// How the run of a script ended.
#[derive(Debug, PartialEq, Eq, Drop, Error)]
pub enum DriveEnd {
    /// The script was played to its end.
    #[error("the script was played to its end")]
    Done,
    /// A line is no directive, or names a worker or an instance that never was.
    #[error("line {line}: {kind}")]
    BadScript {
        /// The line's number, counted from 1.
        line: u64,
        /// What is wrong with it.
        kind: LineKind,
    },
    /// There are more lines, or a line has more bytes, than may be: so many were read.
    #[error("too many lines, or too long a one, behind {0} lines")]
    TooLong(u64),
    /// The script couldn't be read.
    #[error("the script couldn't be read")]
    ReadFault,
    /// An answer couldn't be written.
    #[error("an answer couldn't be written")]
    WriteFault,
    /// A disk failed.
    #[error("{disk:?} failed, with {count} faults")]
    StoreFault {
        /// The disk.
        disk: DiskName,
        /// Its count of faults.
        count: u64,
    },
    /// What a sink handed out couldn't be written.
    #[error("what a sink handed out couldn't be written")]
    OutletFault,
    /// A log has no room for what a line, of no request, was to write.
    #[error("{log:?} has {length} bytes and no room for {frame} more")]
    Full {
        /// The log.
        log: LogName,
        /// Its length in bytes.
        length: u64,
        /// The bytes that were to be appended.
        frame: u64,
    },
    /// Want of memory.
    #[error("out of memory")]
    Memory,
}

impl From<AllocError> for DriveEnd {
    ghost use Rattle.std.specs.Prelude.{◌≡◌};
    ghost use Rattle.cw_lines.specs.declared.end.DriveEnd.TheVariants.{Memory};

    ghost from_gives = { λ _ end. end ≡ Memory };

    fn from(_: AllocError) -> DriveEnd {
        DriveEnd::Memory
    }
}

impl<T: Drop> From<AllocFailed<T>> for DriveEnd {
    ghost use Rattle.std.specs.Prelude.{◌≡◌};
    ghost use Rattle.cw_lines.specs.declared.end.DriveEnd.TheVariants.{Memory};

    ghost from_gives = { λ _ end. end ≡ Memory };

    fn from(_: AllocFailed<T>) -> DriveEnd {
        DriveEnd::Memory
    }
}
