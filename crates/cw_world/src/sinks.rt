//! What a sink's task writes.
ghost use Rattle.std.specs.Prelude.{◌≡◌, ◌<◌, length};
ghost use Rattle.cw_types.specs.declared.logs.LogName.TheVariants as log;
ghost use Rattle.cw_model.specs.EventsSinks.{put_sink, MayPutSink};
ghost use Rattle.cw_world.specs.World.{Writes};

use crate::world::World;
use crate::write::write;
use cw_disk::Disk;
use cw_laws::sinks_keep_facts;
use cw_model::WorldFault;
use cw_types::LogName;

impl<D: Disk> World<D> {
    /// A sink stores how far it handed out a topic, under its own epoch.
    pub fn put_sink(&mut self, i: u64, to: u64) -> Result<(), WorldFault>
        requires there { i < length self.old.state.instances }
        requires may { MayPutSink i to self.old.state }
        ensures { Writes D.Disk log.Txn (put_sink i to) self.old self.new result }
    {
        sinks_keep_facts();
        let frame = self.cluster.ready_put_sink(i, to)?;
        write(
            &mut self.logs.txn,
            &mut self.cluster,
            LogName::Txn,
            frame.body(),
        )?;
        self.cluster.put_put_sink(i, to, frame);
        Ok(())
    }
}
