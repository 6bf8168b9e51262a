//! `sweep`: images of a cluster's eight disks: those that a table asks for, and those that a stop in every call of each
//! disk leaves.
//!
//! Its input has a line for each image: which script left the disks, what is changed of one of them (its length, or a
//! byte, or that its calls fail from some number on), and maybe a directive. The image is opened, with it as the
//! script, and what comes of it is printed. Then stops are swept: a script of a producer, a source with a sink,
//! alterations of offsets and compactions, of which each line makes at most one event that is written, is played by the
//! top call over eight disks in memory. One of them fails from some call on, for each number of that call until a run
//! meets no failure. Behind each stop the three images of the disks are opened again with an empty script, and have to
//! hold the logs as they stood before the line in hand or behind it.
//! It promises no more than that it ends safely: what it finds is its stored output. It stands on the top call.
#![tactic(auto)]

mod cluster;
mod eight;
mod images;
mod lists;
mod script;
mod stops;

use crate::eight::DISKS;
use crate::images::{Bases, open_image, play_bases};
use crate::stops::{Swept, play_swept, sweep_disk};
use std::io::{self, BufRead, BufReader};
use std::rt::Clock;
use std::sync::Wait;
use std::thread::Threads;

// The lines of the input.
fn lines_of<R: AllocGlobal + Input>(rt: &R) -> io::Result<Vec<String>> {
    let mut lines = Vec::new(rt.alloc());
    for line in BufReader::new(rt.alloc(), rt.reader())?.lines(rt.alloc()) {
        lines.push(line?)?;
    }
    Ok(lines)
}

// Opens the image of each line.
fn open_images<R: AllocGlobal + Print + Threads + Wait + Clock + Sync>(
    rt: &R,
    lines: &[String],
) -> io::Result<()> {
    let bases = play_bases(rt)?;
    let told = open_each(rt, &bases, lines);
    drop(bases);
    told
}

fn open_each<R: AllocGlobal + Print + Threads + Wait + Clock + Sync>(
    rt: &R,
    bases: &Bases,
    lines: &[String],
) -> io::Result<()> {
    for line in lines {
        open_image(rt, bases, line.as_str())?;
    }
    Ok(())
}

// Stops the script in each call of each disk.
fn sweep_disks<R: AllocGlobal + Print + Threads + Wait + Clock + Sync>(rt: &R) -> io::Result<()> {
    let swept = play_swept(rt)?;
    sweep_each(rt, &swept)
}

fn sweep_each<R: AllocGlobal + Print + Threads + Wait + Clock + Sync>(
    rt: &R,
    swept: &Swept,
) -> io::Result<()> {
    for at in DISKS {
        sweep_disk(rt, swept, at)?;
    }
    Ok(())
}

fn main(rt: HostRuntime) -> io::Result<()> {
    let lines = lines_of(&rt)?;
    open_images(&rt, lines.as_slice())?;
    sweep_disks(&rt)
}
