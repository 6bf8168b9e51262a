//! Values of the offset log.
ghost use Rattle.std.specs.Prelude.{◌≡◌, false, Some, IfOk, IfErr, ok_or, option_and_then};
ghost use Rattle.serde_json.specs.View.{view};
ghost use Rattle.cw_json.specs.Reading.{reading};
ghost use Rattle.cw_types.specs.Answers.{Gives};
ghost use Rattle.cw_keys.specs.Counts.{u64_at};
ghost use Rattle.cw_keys.specs.Offsets.{offset_name, offset_of, offset_text};
ghost use Rattle.cw_keys.specs.Parts.{is_raw};

use crate::fault::KeyFault;
use crate::members::{count_value, text_of_value, u64_at};
use cw_json::read_value;
use cw_types::PartKey;
use std::alloc::{AllocError, Global};

/// The member that holds a part's offset: `position` for a source's partition, `kafka_offset` for a sink's topic.
pub fn offset_name(part: &PartKey) -> &'static str
    ensures { result.now ≡ offset_name part.now }
{
    match part {
        PartKey::Raw(_) | PartKey::File { .. } | PartKey::Seq { .. } => "position",
        PartKey::Sink { .. } => "kafka_offset",
    }
}

// The whole number at a key of a text.
fn u64_in_text(alloc: Global, key: &str, text: &[u8]) -> Result<Option<u64>, AllocError>
    ensures { IfOk result (λ found. found ≡ option_and_then (u64_at key.now) (reading text.now)) }
{
    match read_value(alloc, text)? {
        Some(value) => Ok(u64_at(key, &value)),
        None => Ok(None),
    }
}

/// The offset that a value of the offset log tells of a part: the position of a source's partition, or
/// the offset in a sink's topic. BadValue comes just where the value isn't in that grammar.
pub fn read_offset(alloc: Global, part: &PartKey, value: &[u8]) -> Result<u64, KeyFault>
    ensures { Gives KeyFault.Memory result (ok_or (offset_of part.now value.now) KeyFault.BadValue) }
{
    match u64_in_text(alloc, offset_name(part), value)? {
        Some(offset) => Ok(offset),
        None => Err(KeyFault::BadValue),
    }
}

/// The value of the offset log that tells an offset of a part.
pub fn write_offset(alloc: Global, part: &PartKey, offset: u64) -> Result<Vec<u8>, KeyFault>
    requires { is_raw part.now ≡ false }
    ensures text { IfOk result (λ text. text.items ≡ offset_text part.now offset) }
    ensures again { IfOk result (λ text. offset_of part.now text.items ≡ Some offset) }
    ensures memory { IfErr result (λ fault. fault ≡ KeyFault.Memory) }
{
    let value = count_value(alloc, offset_name(part), offset)?;
    Ok(text_of_value(alloc, &value)?)
}
