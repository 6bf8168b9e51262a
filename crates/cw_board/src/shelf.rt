//! A worker's config state on the board.
ghost use Rattle.std.specs.Prelude.{◌≡◌, ◌+◌, [], ◌∷◌, ◌++◌, OnOk, OnErr, length};
ghost use Rattle.cw_config.specs.Compaction.{config_in};
ghost use Rattle.std.specs.List.{filter_map};

use cw_bytes::Applied;
use cw_config::ConfigState;
use std::alloc::{AllocError, Global};

/// A config state, and how many records it has.
#[derive(Drop)]
pub struct Shelf {
    pub config: ConfigState,
    pub count: u64,
    ghost counted: { count ≡ length config },
}

// Applies a record that is one of the config log and may stand there.
fn apply(config: &mut ConfigState, applied: &Applied) -> Result<(), AllocError>
    ensures ok { OnOk result (config.new ≡ config.old ++ filter_map config_in (applied.now ∷ [])) }
    ensures one { OnOk result (length config.new ≡ length config.old + 1) }
    ensures err { OnErr result (config.new ≡ config.old) }
{
    match config.apply(
        applied.offset,
        applied.stamp,
        applied.key.as_slice(),
        applied.text(),
    ) {
        Ok(()) => Ok(()),
        Err(_) => Err(AllocError),
    }
}

impl Shelf {
    /// With no record.
    pub fn new(alloc: Global) -> Shelf
        ensures { result.config ≡ [] }
    {
        Shelf {
            config: ConfigState::new(alloc),
            count: 0,
        }
    }

    /// Adds a record. At `Err` it stays as it was: memory is lacking, or the record may not stand there.
    pub fn add(&mut self, applied: &Applied) -> Result<(), AllocError>
        ensures ok { OnOk result (self.new.config ≡ self.old.config ++ filter_map config_in (applied.now ∷ [])) }
        ensures err { OnErr result (self.new.config ≡ self.old.config) }
    {
        let Some(count) = self.count.checked_add(1) else {
            return Err(AllocError);
        };
        apply(&mut self.config, applied)?;
        self.count = count;
        Ok(())
    }
}
