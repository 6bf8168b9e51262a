//! Runs of the top call over objects in memory.
ghost use Rattle.std.specs.Prelude.{◌<◌};

use crate::kept_link::KeptLink;
use crate::objects::{Failure, Object, PIECE, calls_of, empty_disks, shelf_of, words_of};
use crate::texts::status_text;
use cw_connect::{Outcome, connect};
use cw_disk::{Disks, MemDisk};
use cw_io::{MemLink, MemOutlet, MemShelf, MemSink, MemSource};
use cw_net::{MemClock, MemListener, OpenGate};
use cw_types::Name;
use std::alloc::{AllocError, Global};
use std::collections::VecDeque;
use std::rt::Clock;
use std::sync::{Mutex, Wait};
use std::thread::Threads;

/// What a run leaves beside its links.
#[derive(Drop)]
pub(crate) struct Left {
    /// How it ended.
    pub(crate) status: String,
    /// How many calls the journal of its server has.
    pub(crate) calls: usize,
    /// What it wrote.
    pub(crate) answers: Vec<u8>,
    /// The file of the script's sink.
    pub(crate) file: Vec<u8>,
}

/// What a run leaves, and the disks that it stood on.
#[derive(Drop)]
pub(crate) struct Ended {
    pub(crate) left: Result<Left, AllocError>,
    pub(crate) disks: Disks<MemDisk>,
}

// What the top call is handed beside disks, clock and gate.
#[derive(Drop)]
struct Objects<'k, R: Wait + Sync> {
    input: MemSource,
    output: MemSink,
    shelf: MemShelf,
    outlet: MemOutlet,
    net: MemListener<KeptLink<'k, R>>,
}

/// Runs a command over empty disks. The script is read in pieces of so many bytes, answers are written in pieces of
/// one byte, and the listener gives these links.
pub(crate) fn run<R: AllocGlobal + Threads + Wait + Clock + Sync>(
    rt: &R,
    command: &str,
    script: Vec<u8>,
    piece: usize,
    links: &[Mutex<MemLink>],
    failure: Option<Failure>,
) -> Result<Left, AllocError>
    requires { 0 < piece }
{
    let words = words_of(rt.alloc(), command)?;
    let objects = objects_of(rt, script, piece, links, failure)?;
    run_over(rt, &words, empty_disks(rt.alloc()), objects).left
}

/// Plays a script in pieces over what stands on these disks.
pub(crate) fn play_over<R: AllocGlobal + Threads + Wait + Clock + Sync>(
    rt: &R,
    disks: Disks<MemDisk>,
    script: Vec<u8>,
    failure: Option<Failure>,
) -> Result<Ended, AllocError> {
    let words = words_of(rt.alloc(), "drive")?;
    let objects = objects_of(rt, script, PIECE, &[], failure)?;
    Ok(run_over(rt, &words, disks, objects))
}

// Runs a command over these disks and objects.
fn run_over<R: AllocGlobal + Threads + Wait + Clock + Sync>(
    rt: &R,
    words: &[String],
    disks: Disks<MemDisk>,
    objects: Objects<'_, R>,
) -> Ended {
    let Objects {
        mut input,
        mut output,
        mut shelf,
        outlet,
        net,
    } = objects;
    let outcome = connect(
        rt,
        words,
        disks,
        &mut input,
        &mut output,
        &mut shelf,
        outlet,
        net,
        MemClock::new(0, 0),
        &OpenGate,
    );
    Ended {
        left: left_of(rt.alloc(), &outcome, &output),
        disks: outcome.disks,
    }
}

// The objects of a run.
fn objects_of<'k, R: AllocGlobal + Wait + Sync>(
    rt: &'k R,
    script: Vec<u8>,
    piece: usize,
    links: &'k [Mutex<MemLink>],
    failure: Option<Failure>,
) -> Result<Objects<'k, R>, AllocError>
    requires { 0 < piece }
{
    let alloc = rt.alloc();
    let of_input = calls_of(alloc, failure, Object::Input)?;
    let of_output = calls_of(alloc, failure, Object::Output)?;
    let of_outlet = calls_of(alloc, failure, Object::Outlet)?;
    let shelf = shelf_with(alloc, failure)?;
    let net = listener_of(rt, links, failure)?;
    Ok(Objects {
        input: MemSource::new(script, piece, of_input),
        output: MemSink::new(alloc, 1, of_output),
        shelf,
        outlet: MemOutlet::new(alloc, of_outlet),
        net,
    })
}

// The shelf of a run.
fn shelf_with(alloc: Global, failure: Option<Failure>) -> Result<MemShelf, AllocError> {
    shelf_of(alloc, calls_of(alloc, failure, Object::Shelf)?)
}

// The listener of a run.
fn listener_of<'k, R: AllocGlobal + Wait + Sync>(
    rt: &'k R,
    links: &'k [Mutex<MemLink>],
    failure: Option<Failure>,
) -> Result<MemListener<KeptLink<'k, R>>, AllocError> {
    let of_listener = calls_of(rt.alloc(), failure, Object::Listener)?;
    Ok(MemListener::new(lent(rt, links)?, of_listener))
}

// Links whose calls are those of others, in their order.
fn lent<'k, R: AllocGlobal + Wait>(
    rt: &'k R,
    links: &'k [Mutex<MemLink>],
) -> Result<VecDeque<KeptLink<'k, R>>, AllocError> {
    let mut lent = VecDeque::new(rt.alloc());
    for link in links {
        lent.push_back(KeptLink {
            rt,
            link,
            faults: 0,
        })?;
    }
    Ok(lent)
}

// What a run left whose answers went to this output.
fn left_of<N>(
    alloc: Global,
    outcome: &Outcome<MemDisk, MemOutlet, N>,
    output: &MemSink,
) -> Result<Left, AllocError> {
    let status = status_text(alloc, &outcome.status)?;
    let answers = output.bytes().to_vec(alloc)?;
    let file = file_of(alloc, &outcome.outlet)?;
    Ok(Left {
        status,
        calls: outcome.journal.entries().len(),
        answers,
        file,
    })
}

// What the file of the sink holds.
fn file_of(alloc: Global, outlet: &MemOutlet) -> Result<Vec<u8>, AllocError> {
    match Name::from_bytes(alloc, b"o")? {
        Some(name) => outlet.file(&name).unwrap_or(&[]).to_vec(alloc),
        None => Ok(Vec::new(alloc)),
    }
}

/// A link whose peer sends a text. It is read and written in pieces of so many bytes, and these of its calls fail.
pub(crate) fn link_of(
    alloc: Global,
    text: &[u8],
    piece: usize,
    failing: Vec<u64>,
) -> Result<Mutex<MemLink>, AllocError>
    requires { 0 < piece }
{
    let link = MemLink::new(alloc, text.to_vec(alloc)?, 0, piece, failing)?;
    Ok(Mutex::new(link))
}

/// What was written to a link.
pub(crate) fn written<R: AllocGlobal + Wait>(
    rt: &R,
    link: &Mutex<MemLink>,
) -> Result<Vec<u8>, AllocError> {
    link.lock(rt).written().to_vec(rt.alloc())
}
