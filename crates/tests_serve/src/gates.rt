//! Gates that see threads pass, and a listener that waits for them and then ends.
use cw_io::{Failed, MemLink};
use cw_net::{Gate, Listener, Point};
use std::rt::Clock;
use std::sync::atomic::{AtomicU64, Ordering};
use std::thread;
use std::time::Duration;

/// A gate that tells when it has seen what a test waits for.
pub(crate) trait Watched {
    fn is_over(&self) -> bool;
}

/// Holds runner 0 before its first scan until a step of runner 1 is answered, for a thousand milliseconds at most.
#[derive(Drop)]
pub(crate) struct Meeting<'r, R: Clock> {
    pub(crate) rt: &'r R,
    // 0: nobody is held; 1: runner 0 is; 2: runner 1 made a step meanwhile; 3: it didn't in time.
    pub(crate) state: AtomicU64,
}

impl<R: Clock> Meeting<'_, R> {
    fn hold(&self) {
        if self
            .state
            .compare_exchange(0, 1, Ordering::SeqCst, Ordering::SeqCst)
            .is_err()
        {
            return;
        }
        for _ in 0..1000 {
            if self.is_over() {
                return;
            }
            thread::sleep(self.rt, Duration::from_millis(1));
        }
        let _ = self
            .state
            .compare_exchange(1, 3, Ordering::SeqCst, Ordering::SeqCst);
    }
}

impl<R: Clock> Watched for Meeting<'_, R> {
    fn is_over(&self) -> bool {
        self.state.load(Ordering::SeqCst) > 1
    }
}

impl<R: Clock> Gate for Meeting<'_, R> {
    fn pass(&self, point: Point, who: u32) {
        match point {
            Point::BeforeScan if who == 0 => self.hold(),
            Point::AfterStep if who == 1 => {
                let _ = self
                    .state
                    .compare_exchange(1, 2, Ordering::SeqCst, Ordering::SeqCst);
            }
            _ => {}
        }
    }
}

/// Sees the cleaner and the herders of two workers pass, and holds nobody.
#[derive(Drop)]
pub(crate) struct Passing {
    pub(crate) cleaned: AtomicU64,
    pub(crate) first: AtomicU64,
    pub(crate) second: AtomicU64,
}

impl Watched for Passing {
    fn is_over(&self) -> bool {
        self.cleaned.load(Ordering::SeqCst) == 1
            && self.first.load(Ordering::SeqCst) == 1
            && self.second.load(Ordering::SeqCst) == 1
    }
}

impl Gate for Passing {
    fn pass(&self, point: Point, who: u32) {
        match point {
            Point::AfterClean => self.cleaned.store(1, Ordering::SeqCst),
            Point::AfterTick if who == 0 => self.first.store(1, Ordering::SeqCst),
            Point::AfterTick if who == 1 => self.second.store(1, Ordering::SeqCst),
            _ => {}
        }
    }
}

/// A listener that has no link: it waits until a gate has seen what a test waits for, ten seconds at most, and ends.
#[derive(Drop)]
pub(crate) struct Waiting<'r, R: Clock, G: Watched> {
    pub(crate) rt: &'r R,
    pub(crate) gate: &'r G,
    pub(crate) ended: bool,
}

impl<R: Clock, G: Watched> Listener for Waiting<'_, R, G> {
    ghost use Rattle.std.specs.Prelude.{[]};

    type Link = MemLink;

    ghost given = { λ l. [] };

    ghost ended = { λ l. l.ended };

    ghost faults = { λ l. 0 };

    fn accept(&mut self) -> Result<Option<MemLink>, Failed> {
        for _ in 0..10_000 {
            if self.gate.is_over() {
                break;
            }
            thread::sleep(self.rt, Duration::from_millis(1));
        }
        self.ended = true;
        Ok(None)
    }
}
