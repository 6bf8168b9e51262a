//! Keys of the offset log.
ghost use Rattle.std.specs.Prelude.{◌≡◌, false, IfOk, IfErr, OnOk, Ok, Some, ok_or, option_and_then};
ghost use Rattle.serde_json.specs.View.{view, items_view};
ghost use Rattle.serde_json.specs.Find.{as_array, as_str};
ghost use Rattle.cw_json.specs.Reading.{reading};
ghost use Rattle.cw_types.specs.Answers.{Gives};
ghost use Rattle.cw_keys.specs.Parts.{part_named, part_in_items, part_of, part_text, part_data, key_data};
ghost use Rattle.cw_keys.specs.Parts.{file_partition, seq_partition, sink_partition, is_raw, IsPart};
ghost use Rattle.cw_types.specs.Name.{name_of, IsName};

use crate::fault::KeyFault;
use crate::members::{count_at, name_at, text_of_value};
use crate::names::text_of_name;
use cw_json::read_value;
use cw_types::{Name, PartKey};
use serde_json::{Value, json};
use std::alloc::{AllocError, Global};

// The part of a connector that a partition's members name.
fn part_named(
    alloc: Global,
    connector: Name,
    partition: &Value,
) -> Result<Option<PartKey>, AllocError>
    ensures { IfOk result (λ part. part ≡ part_named connector (view partition.now)) }
{
    if let Some(feed) = name_at(alloc, "filename", partition)? {
        return Ok(Some(PartKey::File { connector, feed }));
    }
    if let Some(index) = count_at("sequence", partition) {
        return Ok(Some(PartKey::Seq { connector, index }));
    }
    match name_at(alloc, "kafka_topic", partition)? {
        Some(topic) => Ok(Some(PartKey::Sink { connector, topic })),
        None => Ok(None),
    }
}

// The name that a value is.
fn name_in(alloc: Global, value: &Value) -> Result<Option<Name>, AllocError>
    ensures { IfOk result (λ name. name ≡ option_and_then name_of (as_str (view value.now))) }
{
    match value.as_str() {
        Some(text) => Name::from_bytes(alloc, text.as_bytes()),
        None => Ok(None),
    }
}

// The part that a connector and a partition name.
fn part_in_items(alloc: Global, items: &[Value]) -> Result<Option<PartKey>, AllocError>
    ensures { IfOk result (λ part. part ≡ part_in_items (items_view items.now)) }
{
    let [connector, partition, ..] = items else {
        return Ok(None);
    };
    match name_in(alloc, connector)? {
        Some(connector) => part_named(alloc, connector, partition),
        None => Ok(None),
    }
}

// The part that an array names.
fn part_in(alloc: Global, value: &Value) -> Result<Option<PartKey>, AllocError>
    ensures { IfOk result (λ part. part ≡ option_and_then part_in_items (as_array (view value.now))) }
{
    match value.as_array() {
        Some(items) => part_in_items(alloc, items.as_slice()),
        None => Ok(None),
    }
}

// The part that a text names in any spelling.
fn part_in_text(alloc: Global, text: &[u8]) -> Result<Option<PartKey>, AllocError>
    ensures { IfOk result (λ part. part ≡ option_and_then part_in_items (option_and_then as_array (reading text.now))) }
{
    match read_value(alloc, text)? {
        Some(value) => part_in(alloc, &value),
        None => Ok(None),
    }
}

/// The part whose key these bytes are. BadKey comes just where they are not what `write_part` writes
/// for a part of a connector: a key is compared by its bytes, so another spelling is another key.
pub fn read_part(alloc: Global, key: &[u8]) -> Result<PartKey, KeyFault>
    ensures part { Gives KeyFault.Memory result (ok_or (part_of key.now) KeyFault.BadKey) }
    ensures writable { IfOk result (λ part. is_raw part ≡ false) }
{
    let Some(part) = part_in_text(alloc, key)? else {
        return Err(KeyFault::BadKey);
    };
    if part_bytes(alloc, &part)?.as_slice() == key {
        Ok(part)
    } else {
        Err(KeyFault::BadKey)
    }
}

fn file_value(alloc: Global, connector: &str, feed: &str) -> Result<Value, AllocError>
    ensures { IfOk result (λ value. view value ≡ key_data connector.now (file_partition feed.now)) }
{
    json!(in alloc; [connector, {"filename": feed}])
}

fn seq_value(alloc: Global, connector: &str, index: u32) -> Result<Value, AllocError>
    ensures { IfOk result (λ value. view value ≡ key_data connector.now (seq_partition index)) }
{
    json!(in alloc; [connector, {"sequence": index}])
}

fn sink_value(alloc: Global, connector: &str, topic: &str) -> Result<Value, AllocError>
    ensures { IfOk result (λ value. view value ≡ key_data connector.now (sink_partition topic.now)) }
{
    json!(in alloc; [connector, {"kafka_partition": 0u32, "kafka_topic": topic}])
}

// The JSON of a part's key.
fn part_value(alloc: Global, part: &PartKey) -> Result<Value, AllocError>
    ensures value { IfOk result (λ value. view value ≡ part_data part.now) }
    ensures part { OnOk result (IsPart part.now) }
{
    match part {
        PartKey::Raw(_) => Ok(Value::Null),
        PartKey::File { connector, feed } => file_value(
            alloc,
            text_of_name(connector),
            text_of_name(feed),
        ),
        PartKey::Seq { connector, index } => seq_value(alloc, text_of_name(connector), *index),
        PartKey::Sink { connector, topic } => sink_value(
            alloc,
            text_of_name(connector),
            text_of_name(topic),
        ),
    }
}

// The text of a part's key.
fn part_bytes(alloc: Global, part: &PartKey) -> Result<Vec<u8>, AllocError>
    ensures text { IfOk result (λ bytes. bytes.items ≡ part_text part.now) }
    ensures again { IfOk result (λ bytes. reading bytes.items ≡ Some (part_data part.now)) }
    ensures part { OnOk result (IsPart part.now) }
{
    let value = part_value(alloc, part)?;
    text_of_value(alloc, &value)
}

/// The key of a part of a connector in the offset log. A part of a script has none.
pub fn write_part(alloc: Global, part: &PartKey) -> Result<Vec<u8>, KeyFault>
    requires { is_raw part.now ≡ false }
    ensures text { IfOk result (λ bytes. bytes.items ≡ part_text part.now) }
    ensures again { IfOk result (λ bytes. part_of bytes.items ≡ Some part.now) }
    ensures memory { IfErr result (λ fault. fault ≡ KeyFault.Memory) }
{
    Ok(part_bytes(alloc, part)?)
}
