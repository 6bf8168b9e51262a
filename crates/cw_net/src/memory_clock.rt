//! A clock in memory.
ghost use Rattle.std.specs.Prelude.{◌≡◌, ◌≤◌};
ghost use Rattle.cw_net.specs.Memory.{next_time};

use crate::clock::Clock;
use std::marker::Model;

/// A clock in memory that goes on by the same step at each call, or stands.
#[derive(Debug, Drop)]
pub struct MemClock {
    last: u64,
    step: u64,
}

impl Model for MemClock {
    ghost use Rattle.cw_net.specs.Memory.{ClockState};

    ghost Value = { ClockState };

    ghost view = { λ c. record { last = c.last; step = c.step } };
}

impl MemClock {
    /// A clock whose first time is `step` above `last`.
    pub fn new(last: u64, step: u64) -> MemClock
        ensures { result ≡ record { last = last; step = step } }
    {
        MemClock { last, step }
    }
}

impl Clock for MemClock {
    ghost last = { λ c. c.last };

    fn now(&mut self) -> u64
        ensures next { result ≡ next_time self.old }
        ensures told { self.new.last ≡ result }
        ensures step { self.new.step ≡ self.old.step }
        ensures later { self.old.last ≤ result }
    {
        self.last = self.last.saturating_add(self.step);
        self.last
    }
}
