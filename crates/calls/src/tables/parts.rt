//! Keys and values of the offset log.

use crate::answer::Answer;
use crate::fault::Fault;
use crate::fields::Fields;
use crate::tables::config_values::say_fault;
use cw_keys::{read_offset, read_part, write_offset, write_part};
use cw_types::PartKey;
use std::alloc::Global;

/// `part PART`: its key, and the part that the key is.
pub fn write(alloc: Global, fields: &mut Fields<'_>, answer: &mut Answer) -> Result<(), Fault> {
    let part = fields.part(alloc)?;
    let key = key_of(alloc, &part)?;
    answer.text(&key)?;
    say_part(alloc, &key, answer)
}

/// `part_key KEY`: the part that the key is and its key, or that it is none.
pub fn read(alloc: Global, fields: &mut Fields<'_>, answer: &mut Answer) -> Result<(), Fault> {
    let key = fields.text(alloc)?;
    say_part(alloc, &key, answer)
}

fn say_part(alloc: Global, key: &[u8], answer: &mut Answer) -> Result<(), Fault> {
    match read_part(alloc, key) {
        Ok(part) => answer.part(&part),
        Err(fault) => say_fault(fault, answer),
    }
}

// A part of a script has no key.
fn key_of(alloc: Global, part: &PartKey) -> Result<Vec<u8>, Fault> {
    match part {
        PartKey::Raw(_) => Err(Fault::NoCall),
        _ => write_part(alloc, part).map_err(|_| Fault::Memory),
    }
}

/// `offset PART VALUE`: the offset and how it is written, or that the value is none.
pub fn offset(alloc: Global, fields: &mut Fields<'_>, answer: &mut Answer) -> Result<(), Fault> {
    let part = fields.part(alloc)?;
    let value = fields.text(alloc)?;
    match read_offset(alloc, &part, &value) {
        Ok(offset) => {
            answer.long(offset)?;
            let written = value_of(alloc, &part, offset)?;
            answer.text(&written)
        }
        Err(fault) => say_fault(fault, answer),
    }
}

fn value_of(alloc: Global, part: &PartKey, offset: u64) -> Result<Vec<u8>, Fault> {
    match part {
        PartKey::Raw(_) => Err(Fault::NoCall),
        _ => write_offset(alloc, part, offset).map_err(|_| Fault::Memory),
    }
}
