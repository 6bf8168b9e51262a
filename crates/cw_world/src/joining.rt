//! Workers join the group, the group lets members go, and the time goes on.
ghost use Rattle.std.specs.Prelude.{◌≡◌, ◌<◌, length, Ok, Err};
ghost use Rattle.cw_types.specs.declared.ids.Item.{Item};
ghost use Rattle.cw_group.specs.declared.answers.GroupFault.{GroupFault};
ghost use Rattle.cw_model.specs.declared.fault.WorldFault.{WorldFault};
ghost use Rattle.cw_model.specs.EventsGroups.{join, MayJoin};
ghost use Rattle.cw_model.specs.EventsItems.{restart};
ghost use Rattle.cw_model.specs.EventsWorkers.{expire, clock};
ghost use Rattle.cw_world.specs.World.{Does, DoesOrWants};
ghost use Rattle.cw_world.specs.Moments.{at_moment};

use crate::world::World;
use cw_disk::Disk;
use cw_laws::{items_keep_facts, rounds_keep_facts, workers_keep_facts};
use cw_model::WorldFault;
use cw_types::Item;

impl<D: Disk> World<D> {
    /// A worker joins, and may run what it holds; where it is no member it enters first, and then holds nothing. The
    /// answer is the round. It is never told that it holds what isn't in its claim.
    pub fn join(&mut self, w: u32) -> Result<u64, WorldFault>
        requires there { w < length self.old.state.rows }
        requires may { MayJoin w self.old.state }
        ensures does { DoesOrWants (join w) self.old self.new result }
        ensures claimed { (item : Item) → result ≡ Err (WorldFault.Group (GroupFault.NotClaimed item)) → ⊥ }
    {
        rounds_keep_facts();
        self.cluster.join(w)
    }

    /// The group lets a member go: what it might run waits through the scheduled delay, from this time on. It takes no
    /// memory.
    pub fn expire(&mut self, w: u32, now: u64) -> Result<(), WorldFault>
        ensures { Does (expire self.old.setting w) (at_moment now self.old) self.new result }
    {
        workers_keep_facts();
        rounds_keep_facts();
        self.cluster.clock(now);
        self.cluster.expire(w)
    }

    /// What runs of an item at workers that take part ends, to be started again.
    pub fn restart(&mut self, w: u32, item: &Item) -> Result<(), WorldFault>
        requires { w < length self.old.state.rows }
        ensures { Does (restart w item.now) self.old self.new result }
    {
        items_keep_facts();
        self.cluster.restart(w, item)
    }

    /// The clock is set to a time in milliseconds, and never back: the answer is the time then.
    pub fn clock(&mut self, to: u64) -> u64
        ensures { Does (clock to) self.old self.new (Ok result) }
    {
        workers_keep_facts();
        self.cluster.clock(to)
    }
}
