//! Workers come, are killed, turn deaf and hear again, and the time goes on.
ghost use Rattle.std.specs.Prelude.{◌≡◌, ◌<◌, length, Ok};
ghost use Rattle.cw_model.specs.EventsWorkers.{spawn, kill, deaf, hear, clock};
ghost use Rattle.cw_rows.specs.Kept.{Is, IsOrWants};

use crate::cluster::Cluster;
use cw_model::WorldFault;
use std::alloc::AllocError;

impl Cluster {
    /// A new worker: the answer is its number.
    pub fn spawn(&mut self) -> Result<u32, WorldFault>
        ensures { IsOrWants spawn self.old self.new result }
    {
        self.test_open()?;
        let w = self.crew.workers();
        if w >= 64 {
            return Err(WorldFault::TooMany);
        }
        match self.crew.spawn() {
            Ok(()) => Ok(w),
            Err(AllocError) => Err(WorldFault::Memory),
        }
    }

    /// A worker no longer hears the group.
    pub fn deaf(&mut self, w: u32) -> Result<(), WorldFault>
        requires { w < length self.old.state.rows }
        ensures { Is (deaf w) self.old self.new result }
    {
        self.test_worker(w)?;
        self.crew.set_hearing(w, false);
        Ok(())
    }

    /// A worker is killed, and what it runs ends.
    pub fn kill(&mut self, w: u32) -> Result<(), WorldFault>
        requires { w < length self.old.state.rows }
        ensures { Is (kill w) self.old self.new result }
    {
        self.test_worker(w)?;
        self.crew.kill(w);
        Ok(())
    }

    /// A worker hears the group again.
    pub fn hear(&mut self, w: u32) -> Result<(), WorldFault>
        requires { w < length self.old.state.rows }
        ensures { Is (hear w) self.old self.new result }
    {
        self.test_worker(w)?;
        self.crew.set_hearing(w, true);
        Ok(())
    }

    /// The clock is set to a time in milliseconds, and never back: the answer is the time then.
    pub fn clock(&mut self, to: u64) -> u64
        ensures { Is (clock to) self.old self.new (Ok result) }
    {
        self.circle.go_on(to);
        self.circle.moment()
    }
}
