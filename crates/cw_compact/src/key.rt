//! Keys of the config log, without their values.
ghost use Rattle.std.specs.Prelude.{◌≡◌, IfOk};
ghost use Rattle.cw_config.specs.Compaction.{keyed};

use cw_bytes::Applied;
use cw_config::ConfigRecord;
use cw_keys::read_config_key;
use std::alloc::{AllocError, Global};

/// A record of the config log without its value, where its key is one.
pub fn keyed(alloc: Global, written: &Applied) -> Result<Option<ConfigRecord>, AllocError>
    ensures { IfOk result (λ made. made ≡ keyed written.now) }
{
    match read_config_key(alloc, written.key.as_slice())? {
        Some(key) => Ok(Some(ConfigRecord {
            offset: written.offset,
            stamp: written.stamp,
            key,
            value: None,
        })),
        None => Ok(None),
    }
}
