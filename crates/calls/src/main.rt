//! `calls`: makes the calls that its input names, a line each, and prints a line with the answer of each.
//!
//! A line's fields are parted by tabs. The first one names a table, the next ones are the call and its
//! arguments. A text stands as it is where it is printable ASCII, or as `#` and its bytes in hex; `#-` is no
//! text. A list is the number of its elements and then these. It promises no more than that it ends safely:
//! what its answers must be is the stored output, which an independent model of the rules gave.
//! It stands on every crate whose calls take and give plain values.
#![tactic(auto)]

mod answer;
mod fault;
mod fields;
mod kinds;
mod states;
mod tables;

use crate::answer::Answer;
use crate::fault::Fault;
use crate::fields::Fields;
use crate::states::States;
use crate::tables::make_call;
use std::alloc::{AllocError, Global};
use std::io::{self, BufRead, BufReader, BufWriter, Write};

// Makes the call of a line. The answer to a line that is no call says so.
fn answer_line(states: &mut States, line: &str, answer: &mut Answer) -> Result<(), Fault> {
    answer.clear();
    let mut fields = Fields::of(line);
    match make_call(states, &mut fields, answer) {
        Err(Fault::NoCall) => {
            answer.clear();
            answer.word("NoCall")
        }
        made => made,
    }
}

// The bytes of the answer's line.
fn line_bytes<'a>(
    states: &mut States,
    line: &str,
    answer: &'a mut Answer,
) -> Result<&'a [u8], AllocError> {
    match answer_line(states, line, answer) {
        Ok(()) => answer.line(),
        Err(_) => Err(AllocError),
    }
}

fn states_of(alloc: Global) -> Result<States, AllocError> {
    States::new(alloc).map_err(|_| AllocError)
}

// Writes the answer of each line of the input.
fn answer_lines<R: AllocGlobal + Input, W: Write>(
    rt: &R,
    states: &mut States,
    output: &mut W,
) -> io::Result<()> {
    let mut answer = Answer::new(rt.alloc());
    for line in BufReader::new(rt.alloc(), rt.reader())?.lines(rt.alloc()) {
        let line = line?;
        output.write_all(line_bytes(states, line.as_str(), &mut answer)?)?;
    }
    output.flush()
}

fn main(rt: HostRuntime) -> io::Result<()> {
    let mut states = states_of(rt.alloc())?;
    let mut output = BufWriter::new(rt.alloc(), io::writer(&rt))?;
    answer_lines(&rt, &mut states, &mut output)
}
