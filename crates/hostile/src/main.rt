//! `hostile`: the top call over objects in memory that fail, over what hostile peers send, and over scripts that are
//! too long.
//!
//! Its input has a line for each run, whose fields are parted by tabs, and its output a line with what came of it:
//! - `fail`, a command, an object and the number of one of its calls, counted from 0: the command is run twice, and in
//!   one of the runs that call fails. Told are the status, and how much is left of what the other run leaves.
//! - `send` and a text: two connections send it to a server over empty disks, one in large pieces and one in pieces of
//!   one byte. Told are the status, how many calls the journal has, and what both got.
//! - `play` and a text: it is the script of a cluster over empty disks. Told are the status and the answers.
//! - `over`, the number of a call of the output, and two texts of one part: the first is played over empty disks so that
//!   this call fails, and the second over what that left on them. Told is of both what is told of `play`.
//!
//! A text is a first part, and where more fields follow, a number, a middle part that stands so often, and a last part;
//! `\r`, `\n`, `\t` and `\0` stand for these bytes.
//! It promises no more than that it ends safely: what it finds is its stored output, which follows from the rules of
//! HTTP and of scripts. It stands on the top call.
#![tactic(auto)]

mod failing;
mod kept_link;
mod objects;
mod runs;
mod sending;
mod texts;

use crate::failing::fail;
use crate::objects::{Failure, Object, empty_disks};
use crate::runs::{Ended, Left, play_over, run};
use crate::sending::send;
use crate::texts::{escaped, field, number_of, text_of};
use std::alloc::{AllocError, Global};
use std::io::{self, BufRead, BufReader};
use std::rt::Clock;
use std::sync::Wait;
use std::thread::Threads;

// Plays a text as a script, and says what comes of it.
fn play_text<R: AllocGlobal + Threads + Wait + Clock + Sync>(
    rt: &R,
    fields: &[&str],
) -> Result<String, AllocError> {
    let script = text_of(rt.alloc(), fields)?;
    tell_played(rt.alloc(), &run(rt, "drive", script, 65_536, &[], None)?)
}

// Plays a script so that a call of the output fails, and another over what it left, and says what comes of both.
fn play_on<R: AllocGlobal + Threads + Wait + Clock + Sync>(
    rt: &R,
    call: &str,
    first: &str,
    second: &str,
) -> Result<String, AllocError> {
    let alloc = rt.alloc();
    let failure = Failure {
        object: Object::Output,
        call: number_of(call),
    };
    let script = text_of(alloc, &[first])?;
    let Ended { left, disks } = play_over(rt, empty_disks(alloc), script, Some(failure))?;
    let failed = tell_played(alloc, &left?)?;
    let script = text_of(alloc, &[second])?;
    let went_on = tell_played(alloc, &play_over(rt, disks, script, None)?.left?)?;
    format!(in alloc; "{failed}, then {went_on}")
}

// Says what came of a script.
fn tell_played(alloc: Global, left: &Left) -> Result<String, AllocError> {
    let status = left.status.as_str();
    let answers = escaped(alloc, &left.answers)?;
    format!(in alloc; "{status}: {answers}")
}

// What comes of a line.
fn answer_of<R: AllocGlobal + Threads + Wait + Clock + Sync>(
    rt: &R,
    line: &str,
) -> Result<String, AllocError> {
    let fields = fields_of(rt.alloc(), line)?;
    match field(&fields, 0) {
        "fail" => fail(rt, field(&fields, 1), field(&fields, 2), field(&fields, 3)),
        "send" => send(rt, fields.get(1..).unwrap_or(&[])),
        "play" => play_text(rt, fields.get(1..).unwrap_or(&[])),
        "over" => play_on(rt, field(&fields, 1), field(&fields, 2), field(&fields, 3)),
        _ => String::from_str(rt.alloc(), "no such run"),
    }
}

// The fields of a line.
fn fields_of<'a>(alloc: Global, line: &'a str) -> Result<Vec<&'a str>, AllocError> {
    let mut fields = Vec::new(alloc);
    for field in line.split('\t') {
        fields.push(field)?;
    }
    Ok(fields)
}

fn main(rt: HostRuntime) -> io::Result<()> {
    for line in BufReader::new(rt.alloc(), rt.reader())?.lines(rt.alloc()) {
        let line = line?;
        let answer = answer_of(&rt, line.as_str())?;
        println!(rt; "{answer}")?;
    }
    Ok(())
}
