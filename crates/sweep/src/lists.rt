//! What logs hold, read off the bytes of their files alone.
use cw_disk::{Disks, MemDisk};
use cw_types::LogName;
use std::alloc::{AllocError, Global};

const LOGS: [LogName; 5] = [
    LogName::Config,
    LogName::Offsets,
    LogName::Status,
    LogName::Txn,
    LogName::Batches,
];

/// The frames of the five logs without their gates: each a length and a body. Behind those of each log stands a length
/// of 0, which no frame has.
#[derive(Drop)]
pub(crate) struct LogFrames {
    bytes: Vec<u8>,
}

impl LogFrames {
    /// What the logs of eight disks hold.
    pub(crate) fn of(alloc: Global, disks: &Disks<MemDisk>) -> Result<LogFrames, AllocError> {
        let mut bytes = Vec::new(alloc);
        for log in LOGS {
            add_log(&mut bytes, file_of(disks, log))?;
        }
        Ok(LogFrames { bytes })
    }

    /// Whether each log holds the same.
    pub(crate) fn is_same(&self, other: &LogFrames) -> bool {
        self.bytes.as_slice() == other.bytes.as_slice()
    }
}

// Puts the frames of a file, none where it isn't made, and a length of 0 behind others.
fn add_log(bytes: &mut Vec<u8>, file: &[u8]) -> Result<(), AllocError> {
    if is_made(file) {
        add_frames(bytes, file)?;
    }
    bytes.extend_from_slice(&[0; 4])?;
    Ok(())
}

// The file that a log is.
fn file_of(disks: &Disks<MemDisk>, log: LogName) -> &[u8] {
    match log {
        LogName::Config => chosen(disks.config_a.bytes(), disks.config_b.bytes()),
        LogName::Offsets => chosen(disks.offsets_a.bytes(), disks.offsets_b.bytes()),
        LogName::Status => chosen(disks.status_a.bytes(), disks.status_b.bytes()),
        LogName::Txn => disks.txn.bytes(),
        LogName::Batches => disks.batches.bytes(),
    }
}

// The made side with the greatest number.
fn chosen<'a>(a: &'a [u8], b: &'a [u8]) -> &'a [u8] {
    if is_made(b) && (!is_made(a) || number_of(a) < number_of(b)) {
        b
    } else {
        a
    }
}

// Whether a file is made: its first gate is open.
fn is_made(file: &[u8]) -> bool {
    file.len() > 1 && byte_at(file, 0) != 0
}

// The number of a side, in its bytes 8 to 15.
fn number_of(file: &[u8]) -> u64 {
    let mut number: u64 = 0;
    for at in 8..16 {
        number = number
            .wrapping_mul(256)
            .wrapping_add(u64::from(byte_at(file, at)));
    }
    number
}

fn byte_at(file: &[u8], at: usize) -> u8 {
    file.get(at).copied().unwrap_or(0)
}

// The place behind the frame whose gate stands at a place: the gate, four bytes of length and the body.
fn behind_frame(file: &[u8], gate: usize) -> usize {
    let mut length: usize = 0;
    for at in 1..5 {
        let byte = byte_at(file, gate.wrapping_add(at));
        length = length.wrapping_mul(256).wrapping_add(usize::from(byte));
    }
    gate.wrapping_add(5).wrapping_add(length)
}

// Puts the frames of a made file, up to its first closed gate, behind others. An open gate is any byte but 0.
fn add_frames(bytes: &mut Vec<u8>, file: &[u8]) -> Result<(), AllocError> {
    let mut gate = 16;
    for _ in 0..file.len() {
        if byte_at(file, gate) == 0 {
            break;
        }
        let end = behind_frame(file, gate);
        bytes.extend_from_slice(file.get(gate.wrapping_add(1)..end).unwrap_or(&[]))?;
        gate = end;
    }
    Ok(())
}
