//! How it ended.
use cw_types::LogName;

/// How the making and the run of a script ended.
#[derive(Debug, PartialEq, Eq, Drop)]
pub enum GenEnd {
    /// The whole summary was written.
    Done,
    /// It couldn't be written.
    WriteFault,
    /// A log has no room for what a directive, of no request, was to write.
    Full {
        /// The log.
        log: LogName,
        /// Its length in bytes.
        length: u64,
        /// The bytes that were to be appended.
        frame: u64,
    },
    /// Want of memory.
    Memory,
}
