//! A record of a log.
ghost use Rattle.std.specs.Prelude.{◌≡◌, IfOk, option_map};

use cw_types::Listed;
use std::alloc::AllocError;

/// One record of a list of records, as it stands in a log (Kafka's record with its offset and timestamp).
#[derive(Debug, Drop)]
pub struct Applied {
    /// Its offset in the log.
    pub offset: u64,
    /// The length of the transaction list when it was written.
    pub stamp: u64,
    /// Its key.
    pub key: Listed<u8>,
    /// Its value; none is a tombstone.
    pub value: Option<Listed<u8>>,
}

impl Applied {
    /// A copy.
    pub fn copy(&self) -> Result<Self, AllocError>
        ensures { IfOk result (λ applied. applied ≡ self.now) }
    {
        Ok(Applied {
            offset: self.offset,
            stamp: self.stamp,
            key: self.key.copy()?,
            value: copy_of_value(&self.value)?,
        })
    }

    /// The bytes of its value.
    pub fn text(&self) -> Option<&[u8]>
        ensures { option_map (λ text. text.now) result ≡ self.now.value }
    {
        match &self.value {
            Some(text) => Some(text.as_slice()),
            None => None,
        }
    }
}

fn copy_of_value(value: &Option<Listed<u8>>) -> Result<Option<Listed<u8>>, AllocError>
    ensures { IfOk result (λ copy. copy ≡ value.now) }
{
    match value {
        Some(value) => Ok(Some(value.copy()?)),
        None => Ok(None),
    }
}
