//! Numbers, names, properties and texts in JSON values.
ghost use Rattle.std.specs.Prelude.{◌≡◌, ◌≤◌, false, Some, IfOk};
ghost use Rattle.serde_json.specs.View.{view, members_view};
ghost use Rattle.serde_json.specs.Data.{depth};
ghost use Rattle.serde_json.specs.Find.{as_str};
ghost use Rattle.serde_json.specs.Read.{max_depth};
ghost use Rattle.serde_json.specs.Written.{compact_text, has_float};
ghost use Rattle.cw_json.specs.Reading.{reading};
ghost use Rattle.cw_keys.specs.Counts.{u64_at, count_at, count_data};
ghost use Rattle.cw_keys.specs.Parts.{name_at};
ghost use Rattle.cw_keys.specs.Properties.{member_texts, properties_of, properties_data};

use cw_json::{Props, Text, value_of};
use cw_types::Name;
use serde_json::{Map, Value, json};
use std::alloc::{AllocError, AllocFailed, Global};

/// The whole number below 2^64 at a key of an object, if one stands there.
pub fn u64_at(key: &str, value: &Value) -> Option<u64>
    ensures { result ≡ u64_at key.now (view value.now) }
{
    value.get(key)?.as_u64()
}

/// The whole number below 2^32 at a key of an object, if one stands there.
pub fn count_at(key: &str, value: &Value) -> Option<u32>
    ensures { result ≡ count_at key.now (view value.now) }
{
    u32::try_from(u64_at(key, value)?).ok()
}

/// The name at a key of an object, if a text that is one stands there.
pub fn name_at(alloc: Global, key: &str, value: &Value) -> Result<Option<Name>, AllocError>
    ensures { IfOk result (λ name. name ≡ name_at key.now (view value.now)) }
{
    match value.get(key).and_then(Value::as_str) {
        Some(text) => Name::from_bytes(alloc, text.as_bytes()),
        None => Ok(None),
    }
}

// An object with a count alone.
pub(crate) fn count_value(alloc: Global, key: &str, count: u64) -> Result<Value, AllocError>
    ensures { IfOk result (λ value. view value ≡ count_data key.now count) }
{
    json!(in alloc; {key: count})
}

// A member's text, copied.
fn member_text(alloc: Global, value: &Value) -> Result<Option<Text>, AllocError>
    ensures { IfOk result (λ text. text ≡ as_str (view value.now)) }
{
    match value.as_str() {
        Some(text) => Ok(Some(Text::of(alloc, text)?)),
        None => Ok(None),
    }
}

// The properties that members are, if all of them are texts.
fn member_texts(alloc: Global, members: &Map<String, Value>) -> Result<Option<Props>, AllocError>
    ensures { IfOk result (λ props. props ≡ member_texts (members_view members.now.entries)) }
{
    let mut pairs = Vec::new(alloc);
    for (key, value) in members.iter() {
        let Some(text) = member_text(alloc, value)? else {
            return Ok(None);
        };
        pairs.push((Text::of(alloc, key.as_str())?, text))?;
    }
    Ok(Some(Props::new(pairs)))
}

// The properties of a config, if all of them are texts.
pub(crate) fn properties_of(alloc: Global, value: &Value) -> Result<Option<Props>, AllocError>
    ensures { IfOk result (λ props. props ≡ properties_of (view value.now)) }
{
    match value.get("properties").and_then(Value::as_object) {
        Some(members) => member_texts(alloc, members),
        None => Ok(None),
    }
}

// The value that is written for a config.
pub(crate) fn properties_value(alloc: Global, props: &Props) -> Result<Value, AllocError>
    ensures { IfOk result (λ value. view value ≡ properties_data props.now) }
{
    let properties = value_of(alloc, props)?;
    json!(in alloc; {"properties": properties})
}

// The compact text of a value that has no float.
pub(crate) fn text_of_value(alloc: Global, value: &Value) -> Result<Vec<u8>, AllocError>
    requires whole { has_float (view value.now) ≡ false }
    requires shallow { depth (view value.now) ≤ max_depth }
    ensures text { IfOk result (λ text. text.items ≡ compact_text (view value.now)) }
    ensures again { IfOk result (λ text. reading text.items ≡ Some (view value.now)) }
{
    value.to_vec(alloc)
}
