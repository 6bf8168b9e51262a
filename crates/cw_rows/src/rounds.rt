//! A round of the group (KIP-415).
ghost use Rattle.std.specs.Prelude.{◌≡◌, ◌<◌, length};
ghost use Rattle.cw_model.specs.EventsGroups.{close_round, sync};
ghost use Rattle.cw_rows.specs.Kept.{Is, IsOrWants};

use crate::cluster::Cluster;
use cw_group::GroupFault;
use cw_model::WorldFault;

impl Cluster {
    /// All have joined, and nobody joins this round any more.
    pub fn close_round(&mut self, w: u32) -> Result<(), WorldFault>
        requires { w < length self.old.state.rows }
        ensures { Is (close_round w) self.old self.new result }
    {
        self.test_worker(w)?;
        match self.circle.close_round(w) {
            Ok(()) => Ok(()),
            Err(fault) => Err(WorldFault::Group(fault)),
        }
    }

    /// A worker is told its share of the plan.
    pub fn sync(&mut self, w: u32) -> Result<(), WorldFault>
        requires { w < length self.old.state.rows }
        ensures { IsOrWants (sync w) self.old self.new result }
    {
        self.test_worker(w)?;
        let group = self.circle.group();
        match group.sync(w, group.round()) {
            Ok(told) => {
                self.crew.sync(w, told);
                Ok(())
            }
            Err(GroupFault::Memory) => Err(WorldFault::Memory),
            Err(fault) => Err(WorldFault::Group(fault)),
        }
    }
}
