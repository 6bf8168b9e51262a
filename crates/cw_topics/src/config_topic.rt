//! One frame more in the config log: its memory is taken, and once it stands there it is put in.
ghost use Rattle.std.specs.Prelude.{◌≡◌, ◌<◌, ◌≤◌, ◌^◌, ◌++◌, ◌∷◌, [], length, map, OnOk};
ghost use Rattle.cw_config.specs.Compaction.{AreAccepted};
ghost use Rattle.cw_model.specs.Bodies.{config_applied};

use crate::config_frame::ConfigFrame;
use crate::topics::Topics;
use cw_compact::hang;
use std::alloc::AllocError;

impl Topics {
    /// Takes the memory of the records of a frame.
    pub fn ready_configs(&mut self, frame: &ConfigFrame) -> Result<(), AllocError>
        ensures same { self.new ≡ record self.old { ready_configs = self.new.ready_configs } }
        ensures ready { OnOk result (self.new.ready_configs ≡ frame.now) }
    {
        self.configs.ready(frame.records())
    }

    /// Puts in a frame that stands in the log. It takes no memory.
    pub fn put_configs(&mut self, frame: ConfigFrame)
        requires few { length self.old.config.frames < 2 ^ 62 }
        requires some { 1 ≤ length frame }
        requires ready { self.old.ready_configs ≡ frame }
        requires accepted { AreAccepted self.old.configs frame }
        ensures { self.new ≡ record self.old {
          config = record self.old.config {
            frames = self.old.config.frames ++ map config_applied frame ∷ [];
          };
          configs = self.old.configs ++ frame;
          ready_configs = [];
        } }
    {
        let (records, list) = frame.into_parts();
        hang(&mut self.config, list);
        self.configs.put(records);
    }
}
