//! What tasks do that is written to no log.
ghost use Rattle.std.specs.Prelude.{◌≡◌, ◌<◌, length};
ghost use Rattle.cw_model.specs.EventsReports.{fail};
ghost use Rattle.cw_model.specs.EventsSinks.{deliver, MayDeliver};
ghost use Rattle.cw_model.specs.EventsSources.{verify, fetch, MayVerify, MayFetch};
ghost use Rattle.cw_world.specs.World.{Does, DoesOrWants};

use crate::world::World;
use cw_disk::Disk;
use cw_laws::{
    reports_keep_facts, sinks_keep_facts, sources_begin_and_keep_facts, verifying_keeps_facts,
};
use cw_model::{Trace, WorldFault};

impl<D: Disk> World<D> {
    /// A task with an epoch goes on where its set is the newest, and all older ones are fenced: the answer is its
    /// generation.
    pub fn verify(&mut self, i: u64) -> Result<u64, WorldFault>
        requires there { i < length self.old.state.instances }
        requires may { MayVerify i self.old.state }
        ensures { Does (verify i) self.old self.new result }
    {
        verifying_keeps_facts();
        self.cluster.verify(i)
    }

    /// A verified task goes on from the committed end of each of its parts.
    pub fn fetch(&mut self, i: u64) -> Result<(), WorldFault>
        requires there { i < length self.old.state.instances }
        requires may { MayFetch i self.old.state }
        ensures { DoesOrWants (fetch i) self.old self.new result }
    {
        sources_begin_and_keep_facts();
        self.cluster.fetch(i)
    }

    /// A sink has handed out the records of a topic up to an offset.
    pub fn deliver(&mut self, i: u64, turn: u32, to: u64) -> Result<(), WorldFault>
        requires there { i < length self.old.state.instances }
        requires may { MayDeliver i turn to self.old.state }
        ensures { Does (deliver i turn to) self.old self.new result }
    {
        sinks_keep_facts();
        self.cluster.deliver(i, turn, to)
    }

    /// An instance fails, and keeps why.
    pub fn fail(&mut self, i: u64, trace: Trace) -> Result<(), WorldFault>
        requires { i < length self.old.state.instances }
        ensures { Does (fail i trace) self.old self.new result }
    {
        reports_keep_facts();
        self.cluster.fail(i, trace)
    }
}
