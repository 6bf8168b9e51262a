//! What connections get that send a text.
use crate::objects::SERVE;
use crate::runs::{link_of, run, written};
use crate::texts::{escaped, text_of};
use std::alloc::{AllocError, Global};
use std::rt::Clock;
use std::sync::Wait;
use std::thread::Threads;

// More bytes than any connection sends.
const LARGE: usize = 4_194_304;

/// Sends a text over a connection, and in pieces of one byte over a second one, and says what they get.
pub(crate) fn send<R: AllocGlobal + Threads + Wait + Clock + Sync>(
    rt: &R,
    fields: &[&str],
) -> Result<String, AllocError> {
    let alloc = rt.alloc();
    let text = text_of(alloc, fields)?;
    let links = [
        link_of(alloc, &text, LARGE, Vec::new(alloc))?,
        link_of(alloc, &text, 1, Vec::new(alloc))?,
    ];
    let left = run(rt, SERVE, Vec::new(alloc), LARGE, &links, None)?;
    let whole = written(rt, &links[0])?;
    let pieces = written(rt, &links[1])?;
    let status = left.status.as_str();
    let replies = replies_text(alloc, &whole, &pieces)?;
    let calls = left.calls;
    format!(in alloc; "{status}, {calls} calls, {replies}")
}

// What was got, whole and in pieces.
fn replies_text(alloc: Global, whole: &[u8], pieces: &[u8]) -> Result<String, AllocError> {
    let first = escaped(alloc, whole)?;
    if whole == pieces {
        return format!(in alloc; "both: {first}");
    }
    let second = escaped(alloc, pieces)?;
    format!(in alloc; "whole: {first}, in pieces: {second}")
}
