//! The cleaner's thread.
ghost use Rattle.cw_model.specs.EventsCompaction.{MayCompact};

use crate::common::Common;
use crate::naming::Begun;
use crate::turns::Cleaned;
use cw_disk::Disk;
use cw_io::Outlet;
use cw_net::{Gate, Point};
use cw_types::LogName;
use std::sync::Wait;
use std::thread;
use std::time::Duration;

// How long each log was behind its last compaction in this run; 0 before the first.
#[derive(Clone, Copy, Debug, PartialEq, Eq, Drop)]
struct Compacted {
    config: u64,
    offsets: u64,
    status: u64,
}

/// Compacts logs until the server ends. It looks at each of the three logs in turn, calls the gate behind each
/// compaction, and then sleeps for a millisecond.
pub fn clean<J: Begun, D: Disk, U: Outlet, C, G: Gate, R: Wait + std::rt::Clock, W: Wait + Drop>(
    rt: &R,
    common: &Common<J, D, U, C, W>,
    gate: &G,
) {
    let mut last = Compacted {
        config: 0,
        offsets: 0,
        status: 0,
    };
    for _ in rt.forever() {
        if !clean_all(rt, common, gate, &mut last) {
            break;
        }
        thread::sleep(rt, Duration::from_millis(1));
    }
}

// Looks at each log; false where the server ends.
fn clean_all<J: Begun, D: Disk, U: Outlet, C, G: Gate, R: Wait, W: Wait + Drop>(
    rt: &R,
    common: &Common<J, D, U, C, W>,
    gate: &G,
    last: &mut Compacted,
) -> bool {
    clean_log(rt, common, gate, LogName::Config, &mut last.config)
        && clean_log(rt, common, gate, LogName::Offsets, &mut last.offsets)
        && clean_log(rt, common, gate, LogName::Status, &mut last.status)
}

// Compacts a log where that is worth it; false where the server ends.
fn clean_log<J: Begun, D: Disk, U: Outlet, C, G: Gate, R: Wait, W: Wait + Drop>(
    rt: &R,
    common: &Common<J, D, U, C, W>,
    gate: &G,
    log: LogName,
    last: &mut u64,
) -> bool
    requires { MayCompact log }
{
    let cleaned = common.shared.lock(rt).clean(log, *last);
    match cleaned {
        Cleaned::Over => return false,
        Cleaned::Idle => {}
        Cleaned::Compacted(bytes) => {
            *last = bytes;
            gate.pass(Point::AfterClean, 0);
        }
    }
    true
}
