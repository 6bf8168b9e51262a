//! From texts and JSON values to properties.
ghost use Rattle.std.specs.Prelude.{◌≡◌, IfOk, option_map};
ghost use Rattle.cw_types.specs.Answers.{Gives};
ghost use Rattle.serde_json.specs.View.{view, number_view, members_view};
ghost use Rattle.cw_json.specs.Props.{number_property, property, member_props, props_of_data};
ghost use Rattle.cw_json.specs.Reading.{reading, props_of_text};

use crate::fault::JsonFault;
use crate::props::Props;
use crate::text::Text;
use serde_json::{Map, Number, Value};
use std::alloc::{AllocError, Global};

// The text of a whole number.
fn number_property(alloc: Global, number: &Number) -> Result<Option<Text>, AllocError>
    ensures { IfOk result (λ text. text ≡ number_property (number_view number.now)) }
{
    if let Some(n) = number.as_u64() {
        Ok(Some(Text::new(n.to_string(alloc)?)))
    } else if let Some(z) = number.as_i64() {
        Ok(Some(Text::new(z.to_string(alloc)?)))
    } else {
        Ok(None)
    }
}

// The text that a property's value stands for.
fn property(alloc: Global, value: &Value) -> Result<Option<Text>, AllocError>
    ensures { IfOk result (λ text. text ≡ property (view value.now)) }
{
    match value {
        Value::Null | Value::Array(_) | Value::Object(_) => Ok(None),
        Value::Bool(true) => Ok(Some(Text::of(alloc, "true")?)),
        Value::Bool(false) => Ok(Some(Text::of(alloc, "false")?)),
        Value::String(text) => Ok(Some(Text::of(alloc, text.as_str())?)),
        Value::Number(number) => number_property(alloc, number),
    }
}

// The properties that an object's members are.
fn props_of_members(alloc: Global, members: &Map<String, Value>) -> Result<Props, JsonFault>
    ensures { Gives JsonFault.Memory result (member_props (members_view members.now.entries)) }
{
    let mut pairs = Vec::new(alloc);
    for (key, value) in members.iter() {
        let key = Text::of(alloc, key.as_str())?;
        match property(alloc, value)? {
            Some(text) => pairs.push((key, text))?,
            None => return Err(JsonFault::BadValue(key)),
        }
    }
    Ok(Props::new(pairs))
}

/// The properties that an object's members are. Texts are taken as they are, whole numbers and truth
/// values as their JSON text. The fault is NotObject for another kind, else BadValue with the first
/// key, by bytes, whose value is of no such kind.
pub fn props_of(alloc: Global, value: &Value) -> Result<Props, JsonFault>
    ensures { Gives JsonFault.Memory result (props_of_data (view value.now)) }
{
    match value.as_object() {
        Some(members) => props_of_members(alloc, members),
        None => Err(JsonFault::NotObject),
    }
}

/// The JSON value that a text is, if it is one.
pub fn read_value(alloc: Global, text: &[u8]) -> Result<Option<Value>, AllocError>
    ensures { IfOk result (λ value. option_map view value ≡ reading text.now) }
{
    match Value::from_slice(alloc, text) {
        Ok(value) => Ok(Some(value)),
        Err(fault) => if fault.is_memory() {
            Err(AllocError)
        } else {
            Ok(None)
        },
    }
}

/// The properties that a text stands for. The fault is NotJson where the text is no JSON, else that of
/// `props_of`.
pub fn read_props(alloc: Global, text: &[u8]) -> Result<Props, JsonFault>
    ensures { Gives JsonFault.Memory result (props_of_text text.now) }
{
    match read_value(alloc, text)? {
        Some(value) => props_of(alloc, &value),
        None => Err(JsonFault::NotJson),
    }
}
