//! Workers come, are killed, turn deaf and hear again.
ghost use Rattle.std.specs.Prelude.{◌≡◌, ◌<◌, length};
ghost use Rattle.cw_model.specs.EventsWorkers.{spawn, kill, deaf, hear, clock};
ghost use Rattle.cw_world.specs.World.{Does, DoesOrWants};

use crate::world::World;
use cw_disk::Disk;
use cw_laws::workers_keep_facts;
use cw_model::WorldFault;

impl<D: Disk> World<D> {
    /// A new worker: the answer is its number.
    pub fn spawn(&mut self) -> Result<u32, WorldFault>
        ensures { DoesOrWants spawn self.old self.new result }
    {
        workers_keep_facts();
        self.cluster.spawn()
    }

    /// A worker is killed, and what it runs ends.
    pub fn kill(&mut self, w: u32) -> Result<(), WorldFault>
        requires { w < length self.old.state.rows }
        ensures { Does (kill w) self.old self.new result }
    {
        workers_keep_facts();
        self.cluster.kill(w)
    }

    /// A worker no longer hears the group.
    pub fn deaf(&mut self, w: u32) -> Result<(), WorldFault>
        requires { w < length self.old.state.rows }
        ensures { Does (deaf w) self.old self.new result }
    {
        workers_keep_facts();
        self.cluster.deaf(w)
    }

    /// A worker hears the group again.
    pub fn hear(&mut self, w: u32) -> Result<(), WorldFault>
        requires { w < length self.old.state.rows }
        ensures { Does (hear w) self.old self.new result }
    {
        workers_keep_facts();
        self.cluster.hear(w)
    }
}
