//! THE TRUSTED EDGE: the system's clock. No clause can say what time it is; what is proved is that the time that is
//! told never falls.
ghost use Rattle.std.specs.Prelude.{◌≡◌};

use crate::clock::Clock;
use std::time::SystemTime;

/// The system's clock, in milliseconds since 1970. Where it can't be read, or was set back, the last time is told
/// again.
#[derive(Drop)]
pub struct SystemClock<'r, R: std::rt::Clock> {
    system: &'r R,
    last: u64,
}

impl<'r, R: std::rt::Clock> SystemClock<'r, R> {
    /// The clock of this system. It has told no time yet.
    pub fn new(system: &'r R) -> SystemClock<'r, R>
        ensures { ⟦<SystemClock<'r, R> as Clock>⟧.last result ≡ 0 }
    {
        SystemClock { system, last: 0 }
    }
}

impl<R: std::rt::Clock> Clock for SystemClock<'_, R> {
    ghost last = { λ c. c.last };

    fn now(&mut self) -> u64 {
        self.last = self.last.max(milliseconds(self.system));
        self.last
    }
}

// The milliseconds since 1970; 0 where they can't be told.
fn milliseconds(system: &impl std::rt::Clock) -> u64 {
    let Ok(now) = SystemTime::now(system) else {
        return 0;
    };
    match now.duration_since(SystemTime::UNIX_EPOCH) {
        Ok(since) => u64::try_from(since.as_millis()).unwrap_or(0),
        Err(_) => 0,
    }
}
