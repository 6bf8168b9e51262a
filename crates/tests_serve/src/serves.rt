//! A script leaves a cluster, and a server goes on from there.
use crate::gates::{Meeting, Passing, Waiting, Watched};
use cw_connect::{Outcome, Status, connect};
use cw_disk::{Disks, MemDisk};
use cw_io::{MemOutlet, MemShelf, MemSink, MemSource};
use cw_net::{Gate, MemClock};
use std::alloc::{AllocError, Global};
use std::rt::Clock;
use std::sync::Wait;
use std::sync::atomic::{AtomicU64, Ordering};
use std::test::Fail;
use std::thread::Threads;

fn empty_disks(alloc: Global) -> Disks<MemDisk> {
    Disks {
        config_a: MemDisk::empty(alloc),
        config_b: MemDisk::empty(alloc),
        offsets_a: MemDisk::empty(alloc),
        offsets_b: MemDisk::empty(alloc),
        status_a: MemDisk::empty(alloc),
        status_b: MemDisk::empty(alloc),
        txn: MemDisk::empty(alloc),
        batches: MemDisk::empty(alloc),
    }
}

fn words_of(alloc: Global, line: &str) -> Result<Vec<String>, AllocError> {
    let mut words = Vec::new(alloc);
    for word in line.split(' ') {
        words.push(String::from_str(alloc, word)?)?;
    }
    Ok(words)
}

// What a test's runtime gives.
trait Host: AllocGlobal + Threads + Wait + Clock + Sync {}

impl<R: AllocGlobal + Threads + Wait + Clock + Sync> Host for R {}

// What a run leaves, and what another goes on from.
#[derive(Drop)]
struct Left<N> {
    is_done: bool,
    disks: Disks<MemDisk>,
    net: N,
}

fn left_by<N: Drop>(outcome: Outcome<MemDisk, MemOutlet, N>) -> Left<N> {
    Left {
        is_done: is_done(&outcome.status),
        disks: outcome.disks,
        net: outcome.net,
    }
}

fn is_done(status: &Status) -> bool {
    matches!(status, Status::Done)
}

// What there is before the first run: a listener that waits for a gate, and nothing on the disks.
fn nothing<'r, R: Host, G: Watched>(rt: &'r R, gate: &'r G) -> Left<Waiting<'r, R, G>> {
    let disks = empty_disks(rt.alloc());
    let net = Waiting {
        rt,
        gate,
        ended: false,
    };
    Left {
        is_done: true,
        disks,
        net,
    }
}

// Runs a command from there on, with a script on its input and a clock that stands at 0.
fn run<'r, R: Host, G: Gate + Watched + Sync>(
    words: &str,
    script: Vec<u8>,
    from: Left<Waiting<'r, R, G>>,
) -> Result<Left<Waiting<'r, R, G>>, AllocError> {
    let (rt, gate) = (from.net.rt, from.net.gate);
    Ok(left_by(connect(
        rt,
        &words_of(rt.alloc(), words)?,
        from.disks,
        &mut MemSource::new(script, 65_536, Vec::new(rt.alloc())),
        &mut MemSink::new(rt.alloc(), 65_536, Vec::new(rt.alloc())),
        &mut MemShelf::new(rt.alloc(), Vec::new(rt.alloc())),
        MemOutlet::new(rt.alloc(), Vec::new(rt.alloc())),
        from.net,
        MemClock::new(0, 0),
        gate,
    )))
}

// What is looked at of what a run left.
#[derive(Clone, Copy, Drop)]
struct Seen {
    is_done: bool,
    // The lengths of the two sides of the config log, and the number of the second, below 256.
    first_side: usize,
    second_side: usize,
    number: Option<u8>,
}

fn look<N>(left: &Left<N>) -> Seen {
    let second = left.disks.config_b.bytes();
    Seen {
        is_done: left.is_done,
        first_side: left.disks.config_a.bytes().len(),
        second_side: second.len(),
        number: second.get(15).copied(),
    }
}

// What is seen behind a script, and behind a server that goes on from there.
#[derive(Clone, Copy, Drop)]
struct Ends {
    played: Seen,
    served: Seen,
}

// Plays a script over empty disks, and runs a server from there on, which ends when a gate is over.
fn ends_of<'r, R: Host, G: Gate + Watched + Sync>(
    rt: &'r R,
    gate: &'r G,
    script: Vec<u8>,
    words: &str,
) -> Result<Ends, AllocError> {
    let left = run("drive", script, nothing(rt, gate))?;
    let played = look(&left);
    let left = run(words, Vec::new(rt.alloc()), left)?;
    let served = look(&left);
    drop(left);
    Ok(Ends { played, served })
}

// Two task runners work beside each other: a runner that is held before its first scan sees a step of the other.
#[test]
fn two_runners_work_beside_each_other(rt: HostRuntime) -> Result<(), Fail> {
    let script = b"spawn\nsettle 100\nrest 0 POST /connectors {\"name\":\"s\",\"config\":{\
\"connector.class\":\"SequenceSource\",\"partitions\":2,\"tasks.max\":2,\"count\":1000,\"batch.size\":1,\
\"topic\":\"t\"}}\nsettle 14\n";
    let gate = Meeting {
        rt: &rt,
        state: AtomicU64::new(0),
    };
    let script = script.to_vec(rt.alloc())?;
    let words = "serve --workers 1 --runners 2 --handlers 1";
    let ends = ends_of(&rt, &gate, script, words)?;
    assert!(rt; ends.played.is_done);
    assert!(rt; ends.served.is_done);
    assert_eq!(rt; gate.state.load(Ordering::SeqCst), 2);
    Ok(())
}

// A connector's config of sixty thousand bytes, again and again.
fn long_configs(alloc: Global) -> Result<Vec<u8>, AllocError> {
    let mut script = b"spawn\nsettle 100\n".to_vec(alloc)?;
    for number in 0..18 {
        let head: &[u8] = if number == 0 {
            b"rest 0 POST /connectors {\"name\":\"s\",\"config\":"
        } else {
            b"rest 0 PUT /connectors/s/config "
        };
        script.extend_from_slice(head)?;
        script.extend_from_slice(
            b"{\"connector.class\":\"SequenceSource\",\"partitions\":1,\"count\":0,\"topic\":\"t\",\"x\":\"",
        )?;
        for _ in 0..60_000 {
            script.push(b'a')?;
        }
        script.extend_from_slice(if number == 0 { b"\"}}\n" } else { b"\"}\n" })?;
    }
    Ok(script)
}

// The herders of two workers tick, and the cleaner compacts the config log onto its other side.
#[test]
fn herders_tick_and_the_cleaner_compacts(rt: HostRuntime) -> Result<(), Fail> {
    let gate = Passing {
        cleaned: AtomicU64::new(0),
        first: AtomicU64::new(0),
        second: AtomicU64::new(0),
    };
    let script = long_configs(rt.alloc())?;
    let words = "serve --workers 2 --runners 1 --handlers 1";
    let ends = ends_of(&rt, &gate, script, words)?;
    assert!(rt; ends.played.first_side > 1_080_000);
    assert!(rt; ends.served.is_done);
    assert!(rt; gate.is_over());
    assert_eq!(rt; ends.served.number, Some(2));
    assert!(rt; ends.served.second_side < 100_000);
    Ok(())
}
