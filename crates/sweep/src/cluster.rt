//! A cluster over disks in memory.
use cw_connect::{Outcome, Status, connect};
use cw_disk::{Disk, Disks, MemDisk};
use cw_io::{MemLink, MemOutlet, MemShelf, MemSink, MemSource, Outlet, Shelf, Sink, Source};
use cw_log::Harm;
use cw_net::{Listener, MemClock, MemListener, OpenGate};
use cw_types::{DiskName, Name};
use std::alloc::{AllocError, Global};
use std::collections::VecDeque;
use std::rt::Clock;
use std::sync::Wait;
use std::thread::Threads;

// The most bytes that are read or written at once.
const PIECE: usize = 65_536;

/// How a run ended.
#[derive(Clone, Copy, Drop)]
pub(crate) enum End {
    /// Every line was answered.
    Done,
    /// A disk failed, and has so many faults.
    StoreFault(DiskName, u64),
    /// A disk has a harm at a place.
    Damaged(DiskName, u64, Harm),
    /// Otherwise.
    Other,
}

/// What a run leaves.
#[derive(Drop)]
pub(crate) struct Left {
    /// How it ended.
    pub(crate) end: End,
    /// What it answered.
    pub(crate) output: MemSink,
    /// The disks.
    pub(crate) disks: Disks<MemDisk>,
}

// What a run reads beside its disks.
#[derive(Drop)]
struct Given {
    words: Vec<String>,
    input: MemSource,
    shelf: MemShelf,
}

/// Plays a script over eight disks, with one feed.
pub(crate) fn play<R: AllocGlobal + Threads + Wait + Clock + Sync>(
    rt: &R,
    disks: Disks<MemDisk>,
    script: &[u8],
) -> Result<Left, AllocError> {
    match prepare(rt.alloc(), script) {
        Ok(given) => Ok(run(rt, rt.alloc(), given, disks)),
        Err(fault) => Err(fault),
    }
}

// The word of the command, the script and the feed.
fn prepare(alloc: Global, script: &[u8]) -> Result<Given, AllocError> {
    let script = script.to_vec(alloc)?;
    Ok(Given {
        words: words(alloc)?,
        input: MemSource::new(script, PIECE, Vec::new(alloc)),
        shelf: shelf(alloc)?,
    })
}

fn words(alloc: Global) -> Result<Vec<String>, AllocError> {
    let mut words = Vec::new(alloc);
    words.push(String::from_str(alloc, "drive")?)?;
    Ok(words)
}

// The shelf with the feed that the source reads.
fn shelf(alloc: Global) -> Result<MemShelf, AllocError> {
    let mut shelf = MemShelf::new(alloc, Vec::new(alloc));
    if let Some(name) = Name::from_bytes(alloc, b"orders")? {
        shelf.put(name, b"one\ntwo\nthree\nfour\nfive\n".to_vec(alloc)?)?;
    }
    Ok(shelf)
}

// Plays it over objects in memory.
fn run<R: AllocGlobal + Threads + Wait + Clock + Sync>(
    rt: &R,
    alloc: Global,
    given: Given,
    disks: Disks<MemDisk>,
) -> Left {
    let Given {
        words,
        mut input,
        mut shelf,
    } = given;
    let mut output = MemSink::new(alloc, PIECE, Vec::new(alloc));
    let outlet = MemOutlet::new(alloc, Vec::new(alloc));
    let net: MemListener<MemLink> = MemListener::new(VecDeque::new(alloc), Vec::new(alloc));
    let Ended { end, disks } = drive(
        rt,
        &words,
        disks,
        &mut input,
        &mut output,
        &mut shelf,
        outlet,
        net,
    );
    Left { end, output, disks }
}

// How a run ended, and its disks.
struct Ended<D> {
    end: End,
    disks: Disks<D>,
}

// Makes the top call, at a clock that stands. Of what it gives back just this is kept, so that its callers have small
// values.
fn drive<R, D, I, O, H, U, N>(
    rt: &R,
    words: &[String],
    disks: Disks<D>,
    input: &mut I,
    output: &mut O,
    shelf: &mut H,
    outlet: U,
    net: N,
) -> Ended<D>
where
    R: AllocGlobal + Threads + Wait + Clock + Sync,
    D: Disk + Send,
    I: Source,
    O: Sink,
    H: Shelf,
    U: Outlet + Send + Drop,
    N: Listener + Drop,
{
    let clock = MemClock::new(0, 0);
    let outcome = connect(
        rt, words, disks, input, output, shelf, outlet, net, clock, &OpenGate,
    );
    ended_by(outcome)
}

fn ended_by<D, U: Drop, N: Drop>(outcome: Outcome<D, U, N>) -> Ended<D> {
    Ended {
        end: end_of(&outcome.status),
        disks: outcome.disks,
    }
}

fn end_of(status: &Status) -> End {
    match status {
        Status::Done => End::Done,
        Status::StoreFault { disk, count } => End::StoreFault(*disk, *count),
        Status::Damaged { disk, at, harm } => End::Damaged(*disk, *at, *harm),
        _ => End::Other,
    }
}
