//! A round of the group (KIP-415).
ghost use Rattle.std.specs.Prelude.{◌≡◌, ◌<◌, length};
ghost use Rattle.cw_model.specs.EventsGroups.{close_round, store_plan, sync};
ghost use Rattle.cw_world.specs.World.{Does, DoesOrWants};
ghost use Rattle.cw_world.specs.Moments.{at_moment};

use crate::world::World;
use cw_disk::Disk;
use cw_laws::{rounds_keep_facts, workers_keep_facts};
use cw_model::WorldFault;

impl<D: Disk> World<D> {
    /// All have joined, and nobody joins this round any more.
    pub fn close_round(&mut self, w: u32) -> Result<(), WorldFault>
        requires { w < length self.old.state.rows }
        ensures { Does (close_round w) self.old self.new result }
    {
        rounds_keep_facts();
        self.cluster.close_round(w)
    }

    /// The leader plans at this time, and each member gets its share; a delay that has run out by then ends. Without
    /// memory the time alone goes on.
    pub fn store_plan(&mut self, w: u32, now: u64) -> Result<(), WorldFault>
        requires { w < length self.old.state.rows }
        ensures { DoesOrWants (store_plan w) (at_moment now self.old) self.new result }
    {
        workers_keep_facts();
        rounds_keep_facts();
        self.cluster.clock(now);
        self.cluster.store_plan(w)
    }

    /// A worker is told its share of the plan.
    pub fn sync(&mut self, w: u32) -> Result<(), WorldFault>
        requires { w < length self.old.state.rows }
        ensures { DoesOrWants (sync w) self.old self.new result }
    {
        rounds_keep_facts();
        self.cluster.sync(w)
    }
}
