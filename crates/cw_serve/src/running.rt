//! A task runner's thread.
ghost use Rattle.std.specs.Prelude.{◌<◌};
ghost use Rattle.cw_model.specs.Tasks.{batch_limit_of};

use crate::common::Common;
use crate::naming::Begun;
use crate::polling::{Gathered, Work};
use crate::shared::Stop;
use crate::stepping::Stepped;
use cw_disk::Disk;
use cw_io::Outlet;
use cw_model::Instance;
use cw_net::{Gate, Point};
use cw_sinktask::Delivery;
use cw_sourcetask::scan;
use std::alloc::Global;
use std::sync::Wait;
use std::thread;
use std::time::Duration;

// What a pass over a runner's instances came to.
#[derive(Clone, Copy, Debug, PartialEq, Eq, Drop)]
enum Passed {
    Over,
    Idle,
    Done,
}

/// Steps the instances of a runner, pass by pass, until the server ends. It calls the gate before each poll and behind
/// each step that was answered, and sleeps for a millisecond behind a pass in which no step did anything.
pub fn run<J: Begun, D: Disk, U: Outlet, C, G: Gate, R: Wait + std::rt::Clock, W: Wait + Drop>(
    rt: &R,
    alloc: Global,
    common: &Common<J, D, U, C, W>,
    gate: &G,
    runner: u32,
) {
    for _ in rt.forever() {
        match pass(rt, alloc, common, gate, runner) {
            Passed::Over => break,
            Passed::Idle => thread::sleep(rt, Duration::from_millis(1)),
            Passed::Done => {}
        }
    }
}

// One pass over the instances of a runner.
fn pass<J: Begun, D: Disk, U: Outlet, C, G: Gate, R: Wait, W: Wait + Drop>(
    rt: &R,
    alloc: Global,
    common: &Common<J, D, U, C, W>,
    gate: &G,
    runner: u32,
) -> Passed {
    let Some(count) = instances(rt, common) else {
        return Passed::Over;
    };
    let mut passed = Passed::Idle;
    for i in 0..count {
        if i % u64::from(common.runners) != u64::from(runner) {
            continue;
        }
        match visit(rt, alloc, common, gate, runner, i) {
            Passed::Over => return Passed::Over,
            Passed::Idle => {}
            Passed::Done => passed = Passed::Done,
        }
    }
    passed
}

// How many instances there are; None where the server ends.
fn instances<J: Begun, D: Disk, U: Outlet, C, R: Wait, W: Wait + Drop>(
    rt: &R,
    common: &Common<J, D, U, C, W>,
) -> Option<u64> {
    common.shared.lock(rt).instances()
}

// One step of an instance.
fn visit<J: Begun, D: Disk, U: Outlet, C, G: Gate, R: Wait, W: Wait + Drop>(
    rt: &R,
    alloc: Global,
    common: &Common<J, D, U, C, W>,
    gate: &G,
    runner: u32,
    i: u64,
) -> Passed {
    let work = common.shared.lock(rt).work_of(i);
    let stepped = match work {
        Work::Over => return Passed::Over,
        Work::Nothing => return Passed::Idle,
        Work::Step => common.shared.lock(rt).step(i),
        Work::Paused => Stepped::Idle,
        Work::Scan => {
            gate.pass(Point::BeforeScan, runner);
            poll_source(rt, alloc, common, i)
        }
        Work::Gather => {
            gate.pass(Point::BeforeScan, runner);
            poll_sink(rt, alloc, common, i)
        }
    };
    match stepped {
        Stepped::Refused => Passed::Idle,
        Stepped::Idle => {
            gate.pass(Point::AfterStep, runner);
            Passed::Idle
        }
        Stepped::Done => {
            gate.pass(Point::AfterStep, runner);
            Passed::Done
        }
    }
}

// A source's poll: its feeds are scanned outside the lock.
fn poll_source<J: Begun, D: Disk, U: Outlet, C, R: Wait, W: Wait + Drop>(
    rt: &R,
    alloc: Global,
    common: &Common<J, D, U, C, W>,
    i: u64,
) -> Stepped {
    let copy = common.shared.lock(rt).copy_polling(alloc, i);
    match copy {
        Some(instance) => scan_polling(rt, common, i, &instance),
        None => Stepped::Refused,
    }
}

// What such a scan finds is taken under the lock, where the instance still waits for it.
fn scan_polling<J: Begun, D: Disk, U: Outlet, C, R: Wait, W: Wait + Drop>(
    rt: &R,
    common: &Common<J, D, U, C, W>,
    i: u64,
    instance: &Instance,
) -> Stepped
    requires { 0 < batch_limit_of instance.now }
{
    match scan(&common.feeds, instance) {
        Ok((turn, found)) => common.shared.lock(rt).take_found(i, &found, turn),
        Err(_) => {
            common.shared.lock(rt).stop_for(Stop::Memory);
            Stepped::Refused
        }
    }
}

// A sink's poll: what it gathers is put into its file under the outlet's lock alone.
fn poll_sink<J: Begun, D: Disk, U: Outlet, C, R: Wait, W: Wait + Drop>(
    rt: &R,
    alloc: Global,
    common: &Common<J, D, U, C, W>,
    i: u64,
) -> Stepped {
    let gathered = common.shared.lock(rt).gather(alloc, i);
    match gathered {
        Gathered::Refused => Stepped::Refused,
        Gathered::AtEnd => Stepped::Idle,
        Gathered::Found(delivery) => hand_out(rt, common, i, &delivery),
    }
}

// A delivery is put into its file, and the world then knows it.
fn hand_out<J: Begun, D: Disk, U: Outlet, C, R: Wait, W: Wait + Drop>(
    rt: &R,
    common: &Common<J, D, U, C, W>,
    i: u64,
    delivery: &Delivery,
) -> Stepped {
    let poured = common.outlet.lock(rt).pour(delivery);
    if poured {
        common.shared.lock(rt).deliver(i, delivery)
    } else {
        common.shared.lock(rt).stop_for(Stop::OutletFault);
        Stepped::Refused
    }
}
