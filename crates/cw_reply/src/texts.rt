//! Texts in messages and values.
ghost use Rattle.std.specs.Prelude.{◌≡◌, ◌++◌, IfOk, string_bytes};
ghost use Rattle.serde_json.specs.Data.{string};
ghost use Rattle.serde_json.specs.View.{view};

use serde_json::Value;
use std::alloc::{AllocError, Global};

// A text between two others.
pub(crate) fn between(
    alloc: Global,
    before: &str,
    text: &str,
    behind: &str,
) -> Result<String, AllocError>
    ensures { IfOk result (λ made. string_bytes made ≡ before.now ++ text.now ++ behind.now) }
{
    let mut made = String::from_str(alloc, before)?;
    made.push_str(text)?;
    made.push_str(behind)?;
    Ok(made)
}

// A text as a JSON value.
pub(crate) fn text_value(alloc: Global, text: &str) -> Result<Value, AllocError>
    ensures { IfOk result (λ value. view value ≡ string text.now) }
{
    Ok(Value::String(String::from_str(alloc, text)?))
}
