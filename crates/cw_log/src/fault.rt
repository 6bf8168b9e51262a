// What may be wrong with a log, and with a call of it.
use cw_disk::Failed;
use std::alloc::{AllocError, AllocFailed};
use std::fmt;
use thiserror::Error;

/// What may be wrong with the bytes of a log, in the order in which it is looked for on one disk; the
/// last two are found by whoever reads the bodies.
#[derive(Clone, Copy, Debug, PartialEq, Eq, Drop, Error)]
pub enum Harm {
    /// The three letters behind the first gate are others.
    #[error("it is no log")]
    Magic,
    /// The version is another.
    #[error("its version is unknown")]
    Version,
    /// The file is one of another log.
    #[error("it is another log")]
    Kind,
    /// Fewer than 17 bytes, or one of the two bytes that are 0 is not.
    #[error("its header is broken")]
    Header,
    /// Two sides have one number.
    #[error("both sides have one number")]
    SameSide,
    /// A frame's length is 0 or passes the end, or the file ends where a gate is due.
    #[error("a frame is broken")]
    Length,
    /// A body is none of this log, or not allowed at its place.
    #[error("a body isn't allowed at its place")]
    Content,
    /// A body breaks a fact over several logs.
    #[error("a body breaks a fact over several logs")]
    Unsafe,
}

/// Why a log was not opened.
#[derive(Clone, Copy, Debug, PartialEq, Eq, Drop, Error)]
pub enum OpenCause {
    /// The first harm of the file, and the place of the gate that it is about.
    #[error("damaged at byte {at}: {harm}")]
    Damaged {
        /// The place of the gate.
        at: u64,
        /// What is wrong.
        harm: Harm,
    },
    /// The disk failed: its count rose.
    #[error("the disk failed")]
    Failed,
    /// Want of memory.
    #[error("out of memory")]
    Memory,
}

impl From<Failed> for OpenCause {
    ghost use Rattle.std.specs.Prelude.{◌≡◌};
    ghost use Rattle.cw_log.specs.declared.fault.OpenCause.TheVariants.{Failed};

    ghost from_gives = { λ _ cause. cause ≡ Failed };

    fn from(_: Failed) -> Self {
        OpenCause::Failed
    }
}

impl From<AllocError> for OpenCause {
    ghost use Rattle.std.specs.Prelude.{◌≡◌};
    ghost use Rattle.cw_log.specs.declared.fault.OpenCause.TheVariants.{Memory};

    ghost from_gives = { λ _ cause. cause ≡ Memory };

    fn from(_: AllocError) -> Self {
        OpenCause::Memory
    }
}

impl From<ReadFault> for OpenCause {
    ghost use Rattle.std.specs.Prelude.{◌≡◌};
    ghost use Rattle.cw_log.specs.State.{cause_of_read};

    ghost from_gives = { λ fault cause. cause ≡ cause_of_read fault };

    fn from(fault: ReadFault) -> Self {
        match fault {
            ReadFault::Failed => OpenCause::Failed,
            ReadFault::Memory => OpenCause::Memory,
        }
    }
}

/// Why a body was not appended.
#[derive(Clone, Copy, Debug, PartialEq, Eq, Drop, Error)]
pub enum AppendFault {
    /// The disk failed: its count rose. A stop may leave the list with the body or without it.
    #[error("the disk failed")]
    Failed,
    /// The log has no room: `length + frame` passes its limit.
    #[error("a frame of {frame} bytes has no room behind {length}")]
    Full {
        /// The bytes of the log, up to and with its closed gate.
        length: u64,
        /// The bytes that the frame has.
        frame: u64,
    },
    /// An earlier append of this log has failed.
    #[error("an earlier append has failed")]
    Shut,
    /// Want of memory.
    #[error("out of memory")]
    Memory,
}

impl From<Failed> for AppendFault {
    ghost use Rattle.std.specs.Prelude.{◌≡◌};
    ghost use Rattle.cw_log.specs.declared.fault.AppendFault.TheVariants.{Failed};

    ghost from_gives = { λ _ fault. fault ≡ Failed };

    fn from(_: Failed) -> Self {
        AppendFault::Failed
    }
}

impl From<AllocError> for AppendFault {
    ghost use Rattle.std.specs.Prelude.{◌≡◌};
    ghost use Rattle.cw_log.specs.declared.fault.AppendFault.TheVariants.{Memory};

    ghost from_gives = { λ _ fault. fault ≡ Memory };

    fn from(_: AllocError) -> Self {
        AppendFault::Memory
    }
}

/// Why a log was not compacted.
#[derive(Clone, Copy, Debug, PartialEq, Eq, Drop, Error)]
pub enum CompactFault {
    /// The other disk failed: its count rose. A stop may leave the old list or the new one.
    #[error("the disk failed")]
    Failed,
    /// An earlier append or compaction of this log has failed.
    #[error("an earlier append or compaction has failed")]
    Shut,
    /// The log's side number is the greatest there is.
    #[error("there is no greater side number")]
    Worn,
    /// Want of memory.
    #[error("out of memory")]
    Memory,
}

/// Why a body was not read.
#[derive(Clone, Copy, Debug, PartialEq, Eq, Drop, Error)]
pub enum ReadFault {
    /// The disk failed: its count rose.
    #[error("the disk failed")]
    Failed,
    /// Want of memory.
    #[error("out of memory")]
    Memory,
}

impl From<Failed> for ReadFault {
    ghost use Rattle.std.specs.Prelude.{◌≡◌};
    ghost use Rattle.cw_log.specs.declared.fault.ReadFault.TheVariants.{Failed};

    ghost from_gives = { λ _ fault. fault ≡ Failed };

    fn from(_: Failed) -> Self {
        ReadFault::Failed
    }
}

impl From<AllocError> for ReadFault {
    ghost use Rattle.std.specs.Prelude.{◌≡◌};
    ghost use Rattle.cw_log.specs.declared.fault.ReadFault.TheVariants.{Memory};

    ghost from_gives = { λ _ fault. fault ≡ Memory };

    fn from(_: AllocError) -> Self {
        ReadFault::Memory
    }
}

impl<T: Drop> From<AllocFailed<T>> for ReadFault {
    ghost use Rattle.std.specs.Prelude.{◌≡◌};
    ghost use Rattle.cw_log.specs.declared.fault.ReadFault.TheVariants.{Memory};

    ghost from_gives = { λ _ fault. fault ≡ Memory };

    fn from(_: AllocFailed<T>) -> Self {
        ReadFault::Memory
    }
}

/// A disk that was not opened as a log, and why.
#[derive(Drop)]
pub struct OpenFault<D> {
    /// The disk that was handed in.
    pub disk: D,
    /// Why it was not opened.
    pub cause: OpenCause,
}

impl<D> fmt::Display for OpenFault<D> {
    fn fmt<W: fmt::Write>(&self, f: &mut fmt::Formatter<W>) -> fmt::Result {
        write!(f, "{}", self.cause)
    }
}
