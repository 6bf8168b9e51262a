//! A script that is stopped in each call of a disk, and what the images of the disks then open to.
use crate::cluster::{End, Left, play};
use crate::eight::{disks_with, empty_disks, images_of};
use crate::lists::LogFrames;
use crate::script::{count_of_lines, first_lines, swept_script};
use cw_disk::{Way, path_of};
use cw_types::DiskName;
use std::alloc::{AllocError, Global};
use std::io;
use std::rt::Clock;
use std::sync::Wait;
use std::thread::Threads;

// More calls of one disk than the script makes.
const MOST: u64 = 100_000;

/// The script that is swept, and the logs behind its first lines, for each number of lines.
#[derive(Drop)]
pub(crate) struct Swept {
    script: Vec<u8>,
    states: Vec<LogFrames>,
}

/// The swept script, played up to each of its lines.
pub(crate) fn play_swept<R: AllocGlobal + Threads + Wait + Clock + Sync>(
    rt: &R,
) -> Result<Swept, AllocError> {
    let script = swept_script(rt.alloc())?;
    let mut states = Vec::new(rt.alloc());
    for count in 0..count_of_lines(&script).saturating_add(1) {
        states.push(state_behind(rt, &script, count)?)?;
    }
    Ok(Swept { script, states })
}

// The logs behind the first lines of a script.
fn state_behind<R: AllocGlobal + Threads + Wait + Clock + Sync>(
    rt: &R,
    script: &[u8],
    count: usize,
) -> Result<LogFrames, AllocError> {
    let lines = first_lines(rt.alloc(), script, count)?;
    let left = play(rt, empty_disks(rt.alloc()), &lines)?;
    let frames = LogFrames::of(rt.alloc(), &left.disks);
    drop(left);
    frames
}

// What a run came to whose disk fails from some call on.
#[derive(Clone, Copy, Drop)]
enum Stop {
    // It made no such call.
    None,
    // It ended by a fault of this disk, and each image holds the logs before the line in hand or behind it.
    Kept,
    // It ended otherwise.
    Otherwise,
    // An image doesn't open, or holds other logs.
    OtherLogs,
}

/// Stops the script in each call of a disk, and tells how many stops there were, and which left what they mustn't.
pub(crate) fn sweep_disk<R: AllocGlobal + Print + Threads + Wait + Clock + Sync>(
    rt: &R,
    swept: &Swept,
    at: DiskName,
) -> io::Result<()> {
    let name = path_of(at);
    let mut stops: u64 = 0;
    for fuse in 0..MOST {
        match stop_in(rt, swept, at, fuse)? {
            Stop::None => break,
            Stop::Kept => {}
            Stop::Otherwise => println!(rt; "{name}: the stop in call {fuse} ends otherwise")?,
            Stop::OtherLogs => println!(rt; "{name}: the stop in call {fuse} leaves other logs")?,
        }
        stops = stops.saturating_add(1);
    }
    println!(rt; "{name}: {stops} stops, of each three images opened again")
}

// Stops the script in a call of a disk.
fn stop_in<R: AllocGlobal + Threads + Wait + Clock + Sync>(
    rt: &R,
    swept: &Swept,
    at: DiskName,
    fuse: u64,
) -> Result<Stop, AllocError> {
    let left = play(rt, disks_with(rt.alloc(), at, fuse)?, &swept.script)?;
    let stop = judge_stop(rt, swept, at, &left);
    drop(left);
    stop
}

// What a run came to, one of whose disks may have failed.
fn judge_stop<R: AllocGlobal + Threads + Wait + Clock + Sync>(
    rt: &R,
    swept: &Swept,
    at: DiskName,
    left: &Left,
) -> Result<Stop, AllocError> {
    match left.end {
        End::Done => Ok(Stop::None),
        End::StoreFault(disk, 1) if disk == at => judge_images(rt, &swept.states, left),
        _ => Ok(Stop::Otherwise),
    }
}

// Opens the three images that a stop may leave.
fn judge_images<R: AllocGlobal + Threads + Wait + Clock + Sync>(
    rt: &R,
    states: &[LogFrames],
    left: &Left,
) -> Result<Stop, AllocError> {
    let line = line_in_hand(left.output.bytes());
    for way in [Way::AsRead, Way::Old, Way::Noise] {
        if !opens_to(rt, states, line, left, way)? {
            return Ok(Stop::OtherLogs);
        }
    }
    Ok(Stop::Kept)
}

// Whether the logs of a stop's image, opened again, are those before a line or behind it.
fn opens_to<R: AllocGlobal + Threads + Wait + Clock + Sync>(
    rt: &R,
    states: &[LogFrames],
    line: usize,
    left: &Left,
    way: Way,
) -> Result<bool, AllocError> {
    let again = play(rt, images_of(rt.alloc(), &left.disks, way)?, b"")?;
    let is_kept = is_around(rt.alloc(), states, line, &again);
    drop(again);
    is_kept
}

// Whether a run came to its end, and the logs that it left are those before a line or behind it.
fn is_around(
    alloc: Global,
    states: &[LogFrames],
    line: usize,
    left: &Left,
) -> Result<bool, AllocError> {
    if !matches!(left.end, End::Done) {
        return Ok(false);
    }
    let found = LogFrames::of(alloc, &left.disks)?;
    Ok(is_at(states, line, &found) || is_at(states, line.saturating_add(1), &found))
}

// Whether these are the logs behind so many lines.
fn is_at(states: &[LogFrames], lines: usize, found: &LogFrames) -> bool {
    match states.get(lines) {
        Some(state) => state.is_same(found),
        None => false,
    }
}

// The number of the line that was in hand: one that is answered that a disk failed, or has no answer.
fn line_in_hand(answers: &[u8]) -> usize {
    let answered = count_of_lines(answers);
    if last_line(answers).starts_with(b"500 ") {
        answered.saturating_sub(1)
    } else {
        answered
    }
}

// The last line of a text whose lines end.
fn last_line(text: &[u8]) -> &[u8] {
    match text.iter().rev().skip(1).position(|byte| *byte == b'\n') {
        Some(behind) => text
            .get(text.len().saturating_sub(behind.saturating_add(1))..)
            .unwrap_or(text),
        None => text,
    }
}
