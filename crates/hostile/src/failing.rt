//! What is left of a run in which one call of one object fails, beside what the same run leaves without a failure.
use crate::objects::{Failure, Object, PIECE, SERVE, calls_of, object_named};
use crate::runs::{Left, link_of, run, written};
use crate::texts::{number_of, part_text};
use std::alloc::{AllocError, Global};
use std::rt::Clock;
use std::sync::Wait;
use std::thread::Threads;

// Producers commit, a source is read to its end, and a sink writes its records.
const SCRIPT: &[u8] = b"init 0\ncommit 0 1 0 5\nspawn\nsettle 100\n\
rest 0 POST /connectors {\"name\":\"a\",\"config\":{\"connector.class\":\"FileStreamSource\",\"tasks.max\":1,\
\"file\":\"orders\",\"topic\":\"t\"}}\nsettle 1000\nrest 0 GET /connectors/a/offsets\n\
rest 0 POST /connectors {\"name\":\"b\",\"config\":{\"connector.class\":\"FileStreamSink\",\"file\":\"o\",\
\"topics\":\"t\"}}\n\
settle 1000\ntake t 11\ntake t 12\n";

// What each connection asks for.
const CALLS: &[u8] = b"GET /connectors HTTP/1.1\r\n\r\nGET /connector-plugins HTTP/1.1\r\n\r\n";

/// Runs a command so that a call of an object fails, and says what comes of it.
pub(crate) fn fail<R: AllocGlobal + Threads + Wait + Clock + Sync>(
    rt: &R,
    command: &str,
    object: &str,
    call: &str,
) -> Result<String, AllocError> {
    let Some(object) = object_named(object) else {
        return String::from_str(rt.alloc(), "no such object");
    };
    let failure = Failure {
        object,
        call: number_of(call),
    };
    if command == "serve" {
        fail_serving(rt, failure)
    } else {
        fail_playing(rt, command, failure)
    }
}

// Runs a command that serves nobody.
fn play<R: AllocGlobal + Threads + Wait + Clock + Sync>(
    rt: &R,
    command: &str,
    failure: Option<Failure>,
) -> Result<Left, AllocError> {
    let script = SCRIPT.to_vec(rt.alloc())?;
    run(rt, command, script, PIECE, &[], failure)
}

// Runs a command that serves nobody so that a call fails.
fn fail_playing<R: AllocGlobal + Threads + Wait + Clock + Sync>(
    rt: &R,
    command: &str,
    failure: Failure,
) -> Result<String, AllocError> {
    let due = play(rt, command, None)?;
    let left = play(rt, command, Some(failure))?;
    tell_left(rt.alloc(), &left, &due)
}

// Says what a run left of what is due.
fn tell_left(alloc: Global, left: &Left, due: &Left) -> Result<String, AllocError> {
    let status = left.status.as_str();
    let answers = part_text(alloc, &left.answers, &due.answers)?;
    let file = part_text(alloc, &left.file, &due.file)?;
    format!(in alloc; "{status}: {answers} of the answers, {file} of the sink's file")
}

// What is left of a server with two connections.
#[derive(Drop)]
struct Served {
    left: Left,
    first: Vec<u8>,
    second: Vec<u8>,
}

// Serves two connections, which send and get one byte at a time. Where it is a link's call that fails, it is the
// first one's.
fn serve_two<R: AllocGlobal + Threads + Wait + Clock + Sync>(
    rt: &R,
    failure: Option<Failure>,
) -> Result<Served, AllocError> {
    let alloc = rt.alloc();
    let failing = calls_of(alloc, failure, Object::Link)?;
    let links = [
        link_of(alloc, CALLS, 1, failing)?,
        link_of(alloc, CALLS, 1, Vec::new(alloc))?,
    ];
    let left = run(rt, SERVE, SCRIPT.to_vec(alloc)?, PIECE, &links, failure)?;
    let first = written(rt, &links[0])?;
    let second = written(rt, &links[1])?;
    Ok(Served {
        left,
        first,
        second,
    })
}

// Serves two connections so that a call fails.
fn fail_serving<R: AllocGlobal + Threads + Wait + Clock + Sync>(
    rt: &R,
    failure: Failure,
) -> Result<String, AllocError> {
    let due = serve_two(rt, None)?;
    let served = serve_two(rt, Some(failure))?;
    tell_served(rt.alloc(), &served, &due)
}

// Says what connections got of what is due.
fn tell_served(alloc: Global, served: &Served, due: &Served) -> Result<String, AllocError> {
    let status = served.left.status.as_str();
    let calls = served.left.calls;
    let first = part_text(alloc, &served.first, &due.first)?;
    let second = part_text(alloc, &served.second, &due.second)?;
    format!(in alloc; "{status}, {calls} calls: the first link got {first}, the second {second}")
}
