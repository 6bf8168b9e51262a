//! A frame of the config log.
ghost use Rattle.std.specs.Prelude.{◌≡◌, ◌≤◌, ◌<◌, ◌+◌, ◌^◌, ◌∷◌, [], ℕ, length, map, true, IfOk, option_map};
ghost use Rattle.std.specs.List.{AllByRecursion};
ghost use Rattle.cw_bytes.specs.Spelling.{IsRecord, IsValue, AreRecords};
ghost use Rattle.cw_keys.specs.Configs.{is_record};
ghost use Rattle.cw_model.specs.Bodies.{config_applied, config_body};
ghost use Rattle.cw_topics.specs.Configs.{IsWritable, IsWritableRecord, recorded, records_from, first_of};

use cw_bytes::{Applied, write_record_body};
use cw_compact::one_frame;
use cw_config::ConfigRecord;
use cw_keys::{ConfigKey, ConfigValue, write_config};
use cw_types::Listed;
use std::alloc::{AllocError, Global};
use std::collections::LinkedList;
use std::marker::Model;

/// A frame of the config log: its records, the list of their fields, which is hung to the log's frames, and its bytes.
/// Clauses see its records.
#[derive(Drop)]
pub struct ConfigFrame {
    records: Vec<ConfigRecord>,
    applied: LinkedList<Listed<Applied>>,
    body: Vec<u8>,
}

impl Model for ConfigFrame {
    ghost use Rattle.std.specs.Prelude.{List};
    ghost use Rattle.cw_config.specs.declared.records.ConfigRecord.{ConfigRecord};
    ghost use Rattle.cw_topics.specs.Configs.{IsSpelled};

    ghost Value = { List ConfigRecord };

    ghost view = { λ f. f.records.items };

    ghost invariant = { λ f. IsSpelled f.records.items f.applied f.body.items };
}

impl ConfigFrame {
    /// The frame of records. Texts of 2^32 bytes and more count as want of memory.
    pub(crate) fn new(alloc: Global, records: Vec<ConfigRecord>) -> Result<ConfigFrame, AllocError>
        requires some { 1 ≤ length records.items }
        requires few { length records.items < 2 ^ 32 }
        requires writable { AllByRecursion IsWritableRecord records.items }
        ensures { IfOk result (λ frame. frame ≡ records.items) }
    {
        let applied = applied_of(alloc, records.as_slice())?;
        if !are_short(applied.as_slice()) {
            return Err(AllocError);
        }
        let body = write_record_body(alloc, applied.as_slice())?;
        let applied = one_frame(alloc, Listed::new(applied))?;
        Ok(ConfigFrame {
            records,
            applied,
            body,
        })
    }

    /// Its bytes.
    pub fn body(&self) -> &[u8]
        ensures bytes { result.now ≡ config_body self.now }
        ensures some { 1 ≤ length result.now }
    {
        self.body.as_slice()
    }

    /// Its records.
    pub fn records(&self) -> &[ConfigRecord]
        ensures { result.now ≡ self.now }
    {
        self.records.as_slice()
    }

    /// Its records, and the list that is hung to the log's frames, once its bytes stand in the log.
    pub(crate) fn into_parts(self) -> (Vec<ConfigRecord>, LinkedList<Listed<Applied>>)
        ensures records { result.0.items ≡ self }
        ensures list { result.1 ≡ map config_applied self ∷ [] }
    {
        (self.records, self.applied)
    }

    /// The offset of its first record.
    pub fn first(&self) -> u64
        ensures { result ≡ first_of self.now }
    {
        match self.records.as_slice() {
            [] => 0,
            [first, ..] => first.offset,
        }
    }
}

/// The frame of keys and values, which get these offsets from the first on, and this stamp.
pub fn frame_from(
    alloc: Global,
    first: u64,
    stamp: u64,
    values: &[(ConfigKey, Option<ConfigValue>)],
) -> Result<ConfigFrame, AllocError>
    requires places { first + length values.now ≤ 2 ^ 64 }
    requires some { 1 ≤ length values.now }
    requires few { length values.now < 2 ^ 32 }
    requires writable { AllByRecursion IsWritable values.now }
    ensures { IfOk result (λ frame. frame ≡ records_from first stamp values.now) }
{
    let records = records_from(alloc, first, stamp, values)?;
    ConfigFrame::new(alloc, records)
}

// Their records.
fn records_from(
    alloc: Global,
    first: u64,
    stamp: u64,
    values: &[(ConfigKey, Option<ConfigValue>)],
) -> Result<Vec<ConfigRecord>, AllocError>
    requires { first + length values.now ≤ 2 ^ 64 }
    ensures { IfOk result (λ records. records.items ≡ records_from first stamp values.now) }
{
    let mut records = Vec::new(alloc);
    for at in 0..values.len() {
        records.push(recorded(first + at as u64, stamp, &values[at])?)?;
    }
    Ok(records)
}

// The record of a place, a key and a value.
fn recorded(
    offset: u64,
    stamp: u64,
    value: &(ConfigKey, Option<ConfigValue>),
) -> Result<ConfigRecord, AllocError>
    ensures { IfOk result (λ made. made ≡ recorded stamp (offset, value.now)) }
{
    Ok(ConfigRecord {
        offset,
        stamp,
        key: value.0.copy()?,
        value: copy_value(&value.1)?,
    })
}

// A copy of a value.
fn copy_value(value: &Option<ConfigValue>) -> Result<Option<ConfigValue>, AllocError>
    ensures { IfOk result (λ copy. copy ≡ value.now) }
{
    match value {
        Some(value) => Ok(Some(value.copy()?)),
        None => Ok(None),
    }
}

/// The fields of records, as they are written. Its only error is want of memory.
pub fn applied_of(alloc: Global, records: &[ConfigRecord]) -> Result<Vec<Applied>, AllocError>
    requires { AllByRecursion IsWritableRecord records.now }
    ensures { IfOk result (λ applied. applied.items ≡ map config_applied records.now) }
{
    let mut applied = Vec::new(alloc);
    for one in records {
        applied.push(applied_one(alloc, one)?)?;
    }
    Ok(applied)
}

// The fields of a record.
fn applied_one(alloc: Global, one: &ConfigRecord) -> Result<Applied, AllocError>
    requires { is_record one.now.key one.now.value ≡ true }
    ensures { IfOk result (λ applied. applied ≡ config_applied one.now) }
{
    match write_config(alloc, &one.key, one.value.as_ref()) {
        Ok((key, value)) => Ok(Applied {
            offset: one.offset,
            stamp: one.stamp,
            key: Listed::new(key),
            value: listed(value),
        }),
        Err(_) => Err(AllocError),
    }
}

// A text as it is kept.
fn listed(text: Option<Vec<u8>>) -> Option<Listed<u8>>
    ensures { result ≡ option_map (λ text. text.items) text }
{
    match text {
        Some(text) => Some(Listed::new(text)),
        None => None,
    }
}

// Whether the texts of records have lengths that fit their fields.
fn are_short(applied: &[Applied]) -> bool
    requires some { 1 ≤ length applied.now }
    requires few { length applied.now < 2 ^ 32 }
    ensures { result ≡ true → AreRecords applied.now }
{
    for one in applied {
        if !is_short(one) {
            return false;
        }
    }
    true
}

// The same of one record.
fn is_short(one: &Applied) -> bool
    ensures { result ≡ true → IsRecord one.now }
{
    let _offset = one.offset;
    let _stamp = one.stamp;
    is_text(one.key.as_slice()) && is_value(&one.value)
}

// The same of a value.
fn is_value(value: &Option<Listed<u8>>) -> bool
    ensures { result ≡ true → IsValue value.now }
{
    match value {
        Some(text) => is_text(text.as_slice()),
        None => true,
    }
}

// The same of a text.
fn is_text(text: &[u8]) -> bool
    ensures { result ≡ true → length text.now < 2 ^ 32 }
{
    text.len() <= u32::MAX as usize
}
