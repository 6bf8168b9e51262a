//! `connect`: Kafka Connect's distributed mode over logs on files.
//!
//! `main` makes the adapters over the standard streams, over the folders `connect-data`, `feeds` and `out`, over the
//! port and over the system's clock, and makes the top call, whose contract is the theorem of the whole program; it
//! exits with the number of the call's status. It stands on cw_connect, and on the crates of the adapters.
#![tactic(auto)]

use cw_connect::{Outcome, Status, connect, exit_number, status_of_fault};
use cw_disk::Disks;
use cw_io::{FolderOutlet, FolderShelf, ReaderSource, WriterSink};
use cw_net::{OpenGate, PortListener, SystemClock};
use std::env::Env;
use std::fs::{File, Files};
use std::process::ExitCode;
use std::{env, io};

fn main(rt: HostRuntime) -> ExitCode {
    // Where a standard stream is closed, the next file that is opened stands in its place: not one of a log.
    let _streams = (nothing(&rt), nothing(&rt), nothing(&rt));
    let status = match words_of(&rt) {
        Ok(words) => {
            let mut input = ReaderSource::new(rt.reader());
            let mut output = WriterSink::new(io::writer(&rt));
            let mut shelf = FolderShelf::new(&rt, "feeds");
            let outlet = FolderOutlet::new(&rt, "out");
            let disks = Disks::in_folder(&rt);
            let outcome = connect(
                &rt,
                &words,
                disks,
                &mut input,
                &mut output,
                &mut shelf,
                outlet,
                PortListener::new(&rt),
                SystemClock::new(&rt),
                &OpenGate,
            );
            status_of(outcome)
        }
        Err(status) => status,
    };
    let mut errors = WriterSink::new(rt.stderr());
    ExitCode::from(exit_number(&status, &mut errors))
}

// How the call ended; what it gave back is let go.
fn status_of<D: Drop, U: Drop, N: Drop>(outcome: Outcome<D, U, N>) -> Status {
    outcome.status
}

// A file that has nothing to read, and takes nothing.
fn nothing<R: Files>(rt: &R) -> Option<R::File> {
    File::open(rt, "/dev/null").ok()
}

// The words behind the program's name.
fn words_of<R: Env + AllocGlobal>(rt: &R) -> Result<Vec<String>, Status> {
    let mut words = Vec::new(rt.alloc());
    let all = env::args(rt).map_err(|fault| status_of_fault(fault.kind()))?;
    for word in all.skip(1) {
        words.push(word).map_err(|_| Status::Memory)?;
    }
    Ok(words)
}
