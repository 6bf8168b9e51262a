//! The scheduled delay of KIP-415.
ghost use Rattle.std.specs.Prelude.{◌≡◌, ◌≤◌, ◌<◌, ◌+◌, ◌-◌, ◌^◌, ℕ, min, IsTrue, ◌↔◌};

/// How long a lost member's items wait for its return (KIP-415, `scheduled.rebalance.max.delay.ms`).
/// Moments are milliseconds.
#[derive(Clone, Copy, Debug, PartialEq, Eq, Drop)]
pub enum Delay {
    /// Nothing waits.
    Idle,
    /// Lost items wait until this moment.
    Until(u64),
}

impl Delay {
    /// A delay of so many milliseconds from a moment on, which ends at the last moment there is where the
    /// sum passes that.
    pub fn started(now: u64, delay: u64) -> Delay
        ensures { result ≡ Delay.Until (min (now + delay) (2 ^ 64 - 1)) }
    {
        Delay::Until(now.saturating_add(delay))
    }

    /// Whether a delay was started and is over.
    pub fn is_due(&self, now: u64) -> bool
        ensures { IsTrue result ↔ ((at : ℕ) × (self.now ≡ Delay.Until at) × (at ≤ now)) }
    {
        match self {
            Delay::Idle => false,
            Delay::Until(at) => *at <= now,
        }
    }
}
