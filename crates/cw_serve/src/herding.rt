//! A herder's thread.

use crate::common::Common;
use crate::naming::Begun;
use crate::turns::Herded;
use cw_disk::Disk;
use cw_io::Outlet;
use cw_net::{Clock, Gate, Point};
use std::alloc::Global;
use std::sync::Wait;
use std::thread;
use std::time::Duration;

/// Lets a worker's herder tick until the server ends. It calls the gate behind each tick that did something, and sleeps
/// for a millisecond where there is nothing to do.
pub fn herd<
    J: Begun,
    D: Disk,
    U: Outlet,
    C: Clock,
    G: Gate,
    R: Wait + std::rt::Clock,
    W: Wait + Drop,
>(rt: &R, alloc: Global, common: &Common<J, D, U, C, W>, gate: &G, w: u32) {
    for _ in rt.forever() {
        let now = common.clock.lock(rt).now();
        let herded = common.shared.lock(rt).herd(alloc, w, now);
        match herded {
            Herded::Over => break,
            Herded::Idle => thread::sleep(rt, Duration::from_millis(1)),
            Herded::Expired => {}
            Herded::Ticked => gate.pass(Point::AfterTick, w),
        }
    }
}
