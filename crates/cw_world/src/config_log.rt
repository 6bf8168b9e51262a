//! What the leader writes to the config log.
ghost use Rattle.std.specs.Prelude.{◌≡◌, ◌<◌, length};
ghost use Rattle.cw_types.specs.declared.logs.LogName.TheVariants as log;
ghost use Rattle.cw_model.specs.EventsLeading.{append_config, append_fence, MayAppendConfig, MayAppendFence};
ghost use Rattle.cw_world.specs.World.{Writes};

use crate::world::World;
use crate::write::write;
use cw_disk::Disk;
use cw_keys::{ConfigKey, ConfigValue};
use cw_laws::configs_keep_facts;
use cw_log::BodyLog;
use cw_model::WorldFault;
use cw_types::{LogName, Name};

impl<D: Disk> World<D> {
    /// The leader writes records of these keys and values in one frame (Connect's config topic): the answer is the
    /// offset of the first.
    pub fn append_config(
        &mut self,
        w: u32,
        values: &[(ConfigKey, Option<ConfigValue>)],
    ) -> Result<u64, WorldFault>
        requires there { w < length self.old.state.rows }
        requires may { MayAppendConfig w values.now self.old.state }
        ensures { Writes D.Disk log.Config (append_config w values.now) self.old self.new result }
    {
        configs_keep_facts();
        let size = self.logs.config.length();
        let frame = self.cluster.ready_append_config(w, values, size)?;
        write(
            &mut self.logs.config,
            &mut self.cluster,
            LogName::Config,
            frame.body(),
        )?;
        Ok(self.cluster.put_append_config(w, frame))
    }

    /// The leader writes that the producers of a connector's older tasks are fenced, unless a newer task set was
    /// committed since it began (KIP-618): the answer is the record's offset.
    pub fn append_fence(&mut self, w: u32, name: &Name) -> Result<u64, WorldFault>
        requires there { w < length self.old.state.rows }
        requires may { MayAppendFence w name.now self.old.state }
        ensures { Writes D.Disk log.Config (append_fence w name.now) self.old self.new result }
    {
        configs_keep_facts();
        let size = self.logs.config.length();
        let frame = self.cluster.ready_append_fence(w, name, size)?;
        write(
            &mut self.logs.config,
            &mut self.cluster,
            LogName::Config,
            frame.body(),
        )?;
        Ok(self.cluster.put_append_fence(w, name, frame))
    }
}
