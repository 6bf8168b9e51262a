//! What workers report (Connect's status topic).
ghost use Rattle.std.specs.Prelude.{◌≡◌, ◌<◌, length};
ghost use Rattle.cw_types.specs.declared.logs.LogName.TheVariants as log;
ghost use Rattle.cw_model.specs.EventsReports.{put_status, MayReport};
ghost use Rattle.cw_world.specs.World.{Writes};

use crate::world::World;
use crate::write::write;
use cw_disk::Disk;
use cw_laws::reports_keep_facts;
use cw_log::BodyLog;
use cw_model::WorldFault;
use cw_types::{Item, LogName};

impl<D: Disk> World<D> {
    /// A worker reports the state of an item that it runs.
    pub fn put_status(&mut self, w: u32, item: &Item) -> Result<(), WorldFault>
        requires there { w < length self.old.state.rows }
        requires may { MayReport w item.now self.old.state }
        ensures { Writes D.Disk log.Status (put_status w item.now) self.old self.new result }
    {
        reports_keep_facts();
        let size = self.logs.status.length();
        let frame = self.cluster.ready_put_status(w, item, size)?;
        write(
            &mut self.logs.status,
            &mut self.cluster,
            LogName::Status,
            frame.body(),
        )?;
        self.cluster.put_put_status(w, item, frame);
        Ok(())
    }
}
