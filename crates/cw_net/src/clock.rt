//! Clocks.

/// A clock in milliseconds that never falls.
pub trait Clock {
    ghost use Rattle.std.specs.Prelude.{◌≡◌, ◌≤◌, ℕ};

    /// The time that it told last; 0 before the first.
    ghost last: { Self → ℕ };

    /// The time in milliseconds, from a moment on that is the clock's own.
    fn now(&mut self) -> u64
        ensures told { last self.new ≡ result }
        ensures later { last self.old ≤ result };
}
