//! `events`: makes the events of a cluster over disks in memory that its input names, a line each, and prints behind
//! each line what it was answered.
//!
//! A line's words are parted by a blank; one that begins with `#` is a comment. An event is made only where look-ups
//! show that it may be; else the answer is `NotNow`, and nothing is done. It promises no more than that it ends safely:
//! its stored output was read against the rules of the events.
//! It stands on the world, on what opens it, and on the ticks and calls over it.
#![tactic(auto)]

mod calls;
mod disks;
mod items;
mod line;
mod logs;
mod making;
mod producers;
mod refusal;
mod stage;
mod tasks;
mod workers;

use crate::making::answered;
use crate::stage::Stage;
use std::io::{self, BufRead, BufReader, BufWriter, Write};

fn main(rt: HostRuntime) -> io::Result<()> {
    let mut stage = Stage::new(rt.alloc());
    let mut output = BufWriter::new(rt.alloc(), io::writer(&rt))?;
    for line in BufReader::new(rt.alloc(), rt.reader())?.lines(rt.alloc()) {
        let line = line?;
        let answer = answered(&mut stage, line.as_str())?;
        output.write_all(answer.as_bytes())?;
    }
    output.flush()
}
