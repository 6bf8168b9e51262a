//! A record of the config log.
ghost use Rattle.std.specs.Prelude.{◌≡◌, ℕ, None, Some, Err, IfOk, option_map};
ghost use Rattle.cw_config.specs.Acceptance.{record_of};
ghost use Rattle.cw_config.specs.Compaction.{config_in};

use crate::fault::ApplyFault;
use cw_bytes::Applied;
use cw_keys::{ConfigKey, ConfigValue, KeyFault, read_config};
use std::alloc::{AllocError, Global};

/// A record of the config log, read.
#[derive(Debug, Drop)]
pub struct ConfigRecord {
    /// Its offset in the log, never used again.
    pub offset: u64,
    /// The length of the transaction list when it was written.
    pub stamp: u64,
    /// Its key.
    pub key: ConfigKey,
    /// Its value, of its key's kind; none removes what the key names.
    pub value: Option<ConfigValue>,
}

impl ConfigRecord {
    /// A copy.
    pub fn copy(&self) -> Result<Self, AllocError>
        ensures { IfOk result (λ made. made ≡ self.now) }
    {
        Ok(ConfigRecord {
            offset: self.offset,
            stamp: self.stamp,
            key: self.key.copy()?,
            value: copy_value(&self.value)?,
        })
    }
}

fn copy_value(value: &Option<ConfigValue>) -> Result<Option<ConfigValue>, AllocError>
    ensures { IfOk result (λ made. made ≡ value.now) }
{
    match value {
        Some(value) => Ok(Some(value.copy()?)),
        None => Ok(None),
    }
}

/// The record that a key and a value are.
pub fn read_record(
    alloc: Global,
    offset: u64,
    stamp: u64,
    key: &[u8],
    value: Option<&[u8]>,
) -> Result<ConfigRecord, ApplyFault>
    ensures read { IfOk result (λ made. record_of offset stamp key.now (option_map (λ text. text.now) value.entry)
        ≡ Some made) }
    ensures refused { (at : ℕ) → result ≡ Err (ApplyFault.BadRecord at) →
        (at ≡ offset) × (record_of offset stamp key.now (option_map (λ text. text.now) value.entry) ≡ None) }
{
    match read_config(alloc, key, value) {
        Ok((key, value)) => Ok(ConfigRecord {
            offset,
            stamp,
            key,
            value,
        }),
        Err(KeyFault::BadKey) => Err(ApplyFault::BadRecord(offset)),
        Err(KeyFault::BadValue) => Err(ApplyFault::BadRecord(offset)),
        Err(KeyFault::Memory) => Err(ApplyFault::Memory),
    }
}

/// The record that fields are, if they are one. Its only error is want of memory.
pub fn record_in(alloc: Global, applied: &Applied) -> Result<Option<ConfigRecord>, AllocError>
    ensures { IfOk result (λ found. found ≡ config_in applied.now) }
{
    match read_config(alloc, applied.key.as_slice(), applied.text()) {
        Ok((key, value)) => Ok(Some(ConfigRecord {
            offset: applied.offset,
            stamp: applied.stamp,
            key,
            value,
        })),
        Err(KeyFault::BadKey) => Ok(None),
        Err(KeyFault::BadValue) => Ok(None),
        Err(KeyFault::Memory) => Err(AllocError),
    }
}
