//! From properties to JSON values and texts.
ghost use Rattle.std.specs.Prelude.{◌≡◌, ◌≤◌, ℕ, List, Some, Ok, IfOk, OnOk};
ghost use Rattle.serde_json.specs.View.{view, members_view};
ghost use Rattle.serde_json.specs.Data.{Data, object, string, put, depth};
ghost use Rattle.serde_json.specs.Read.{max_depth};
ghost use Rattle.serde_json.specs.Written.{compact_text};
ghost use Rattle.cw_json.specs.Plain.{IsPlain, AreTexts};
ghost use Rattle.cw_json.specs.Rising.{IsRising};
ghost use Rattle.cw_json.specs.Reading.{reading, props_of_text};
ghost use Rattle.cw_json.specs.Writing.{members_of_props, props_text};

use crate::props::Props;
use crate::text::Text;
use serde_json::{Map, Value};
use std::alloc::{AllocError, Global};

// Puts a member in.
fn put_text(
    alloc: Global,
    members: &mut Map<String, Value>,
    key: &Text,
    value: &Text,
) -> Result<(), AllocError>
    ensures { OnOk result (members_view members.new.entries ≡
        put key.now (string value.now) (members_view members.old.entries)) }
{
    let value = Value::String(String::from_str(alloc, value.as_str())?);
    members.insert(String::from_str(alloc, key.as_str())?, value)?;
    Ok(())
}

/// The object whose members are the properties, each a text.
pub fn value_of(alloc: Global, props: &Props) -> Result<Value, AllocError>
    ensures { IfOk result (λ value. view value ≡ object (members_of_props props.now)) }
{
    let mut members = Map::new(alloc);
    for (key, value) in props.as_slice() {
        put_text(alloc, &mut members, key, value)?;
    }
    Ok(Value::Object(members))
}

/// The properties as a compact object, keys in byte order.
pub fn text_of(alloc: Global, props: &Props) -> Result<Vec<u8>, AllocError>
    ensures text { IfOk result (λ text. text.items ≡ props_text props.now) }
    ensures again { IfOk result (λ text. props_of_text text.items ≡ Ok props.now) }
{
    let object = value_of(alloc, props)?;
    object.to_vec(alloc)
}

/// The law of written texts: a plain value of at most 127 levels, and properties whose texts are UTF-8,
/// are read again from what is written for them.
pub fn texts_are_read_again()
    ensures values { (d : Data) → IsPlain d → depth d ≤ max_depth → reading (compact_text d) ≡ Some d }
    ensures properties { (pairs : List (List ℕ × List ℕ)) → IsRising pairs → AreTexts pairs →
        props_of_text (props_text pairs) ≡ Ok pairs }
{}
