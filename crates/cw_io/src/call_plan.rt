//! The calls of an object in memory: how many were made, and which of them fail.
ghost use Rattle.std.specs.Prelude.{◌≡◌, ◌≤◌};
ghost use Rattle.cw_io.specs.Calls.{no_calls, is_listed, raised, after_call};

use std::marker::Model;

/// The calls so far, counted from 0, and the numbers of those that fail.
#[derive(Debug, Drop)]
pub struct CallPlan {
    failing: Vec<u64>,
    number: u64,
    faults: u64,
}

impl Model for CallPlan {
    ghost use Rattle.cw_io.specs.Calls.{Calls};

    ghost Value = { Calls };

    ghost view = { λ p. record { failing = p.failing.items; number = p.number; faults = p.faults } };
}

impl CallPlan {
    /// Before the first call, with a count of 0.
    pub fn new(failing: Vec<u64>) -> CallPlan
        ensures { result ≡ no_calls failing.items }
    {
        CallPlan {
            failing,
            number: 0,
            faults: 0,
        }
    }

    /// How many calls failed.
    pub fn faults(&self) -> u64
        ensures { result ≡ self.now.faults }
    {
        self.faults
    }

    /// Counts the next call, and tells whether it fails.
    pub fn fails_next(&mut self) -> bool
        ensures listed { result ≡ is_listed self.old }
        ensures after { self.new ≡ after_call result self.old }
        ensures later { self.old.faults ≤ self.new.faults }
    {
        let fails = self.failing.contains(&self.number);
        self.number = self.number.saturating_add(1);
        if fails {
            self.faults = self.faults.saturating_add(1);
        }
        fails
    }

    /// Counts a failure of the call that was counted last.
    pub fn count_fault(&mut self)
        ensures after { self.new ≡ record self.old { faults = raised self.old.faults } }
        ensures later { self.old.faults ≤ self.new.faults }
    {
        self.faults = self.faults.saturating_add(1);
    }
}
