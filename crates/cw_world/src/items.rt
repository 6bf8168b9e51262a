//! What a worker reads, starts and stops.
ghost use Rattle.std.specs.Prelude.{◌≡◌, ◌<◌, length};
ghost use Rattle.cw_model.specs.EventsItems.{read_config, start_item, stop_item, MayStart};
ghost use Rattle.cw_world.specs.World.{Does, DoesOrWants};

use crate::world::World;
use cw_disk::Disk;
use cw_laws::{items_keep_facts, starts_keep_facts};
use cw_model::WorldFault;
use cw_types::Item;

impl<D: Disk> World<D> {
    /// A worker reads the config log to its end.
    pub fn read_config(&mut self, w: u32) -> Result<(), WorldFault>
        requires { w < length self.old.state.rows }
        ensures { DoesOrWants (read_config w) self.old self.new result }
    {
        items_keep_facts();
        self.cluster.read_config(w)
    }

    /// A worker starts an item that is assigned to it: the answer is the instance's number.
    pub fn start_item(&mut self, w: u32, item: &Item) -> Result<u64, WorldFault>
        requires there { w < length self.old.state.rows }
        requires may { MayStart w item.now self.old.state }
        ensures { DoesOrWants (start_item w item.now) self.old self.new result }
    {
        starts_keep_facts();
        self.cluster.start_item(w, item)
    }

    /// An instance ends.
    pub fn stop_item(&mut self, i: u64) -> Result<(), WorldFault>
        requires { i < length self.old.state.instances }
        ensures { Does (stop_item i) self.old self.new result }
    {
        items_keep_facts();
        self.cluster.stop_item(i)
    }
}
