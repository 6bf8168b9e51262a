//! A link in memory that can be looked at behind its connection.
use cw_io::{Failed, Link, MemLink};
use std::sync::{Mutex, Wait};

/// A link whose calls are those of one in memory, which another keeps.
#[derive(Drop)]
pub(crate) struct KeptLink<'k, R: Wait> {
    pub(crate) rt: &'k R,
    pub(crate) link: &'k Mutex<MemLink>,
    // How many of its calls failed.
    pub(crate) faults: u64,
}

impl<R: Wait> Link for KeptLink<'_, R> {
    ghost use Rattle.std.specs.Prelude.{None};

    ghost left = { λ k. None };

    ghost held = { λ k. None };

    ghost faults = { λ k. k.faults };

    fn read(&mut self, into: &mut [u8]) -> Result<usize, Failed> {
        let done = self.link.lock(self.rt).read(into);
        if done.is_err() {
            self.faults = self.faults.saturating_add(1);
        }
        done
    }

    fn write(&mut self, from: &[u8]) -> Result<usize, Failed> {
        let done = self.link.lock(self.rt).write(from);
        if done.is_err() {
            self.faults = self.faults.saturating_add(1);
        }
        done
    }
}
