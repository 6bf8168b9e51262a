//! What the body of a call that makes or changes a connector says.
ghost use Rattle.std.specs.Prelude.{◌≡◌, ◌&&◌, ◌==◌, Some, IfOk, option_map, option_and_then, string_bytes};
ghost use Rattle.std.specs.Result.{result_ok};
ghost use Rattle.serde_json.specs.View.{view};
ghost use Rattle.cw_json.specs.Props.{props_of_data};
ghost use Rattle.cw_rest.specs.Bodies as body;
ghost use Rattle.cw_reply.specs.Bodies.{asked_of};

use cw_json::{JsonFault, Props, Text, props_of, read_value};
use serde_json::Value;
use std::alloc::{AllocError, Global};

/// A connector that is to be made.
#[derive(Drop)]
pub struct Asked {
    /// Its name, which may be none that a connector can have.
    pub name: Text,
    /// Its properties, as they are kept.
    pub config: Props,
}

// Whether a value is an object of so many members.
#[tactic(auto, using(crate::proofs::Tasks::count_members))]
pub(crate) fn has_members(count: usize, value: &Value) -> bool
    ensures { result ≡ body.has_members count (view value.now) }
{
    match value.as_object() {
        Some(members) => members.len() == count,
        None => false,
    }
}

// The properties that a value is, if it is some.
fn some_props(alloc: Global, value: &Value) -> Result<Option<Props>, AllocError>
    ensures { IfOk result (λ props. props ≡ result_ok (props_of_data (view value.now))) }
{
    match props_of(alloc, value) {
        Ok(props) => Ok(Some(props)),
        Err(JsonFault::Memory) => Err(AllocError),
        Err(_) => Ok(None),
    }
}

// Whether properties name this connector, or none.
fn may_be_named(name: &str, props: &Props) -> bool
    ensures { result ≡ body.may_be_named name.now props.now }
{
    match props.get("name") {
        Some(own) => own.as_str() == name,
        None => true,
    }
}

// The properties of a connector, as they are kept.
fn named_config(alloc: Global, name: &str, value: &Value) -> Result<Option<Props>, AllocError>
    ensures { IfOk result (λ props. props ≡ body.named_config name.now (view value.now)) }
{
    let Some(mut props) = some_props(alloc, value)? else {
        return Ok(None);
    };
    if !may_be_named(name, &props) {
        return Ok(None);
    }
    props.insert(Text::of(alloc, "name")?, Text::of(alloc, name)?)?;
    Ok(Some(props))
}

/// The config that a body gives a connector, as it is kept; none where the body is no config of that connector. Want of
/// memory is the only error.
pub fn config_in(alloc: Global, name: &str, text: &[u8]) -> Result<Option<Props>, AllocError>
    ensures { IfOk result (λ props. props ≡ body.config_in name.now text.now) }
{
    match read_value(alloc, text)? {
        Some(value) => named_config(alloc, name, &value),
        None => Ok(None),
    }
}

// The connector of a name and a config.
fn asked_with(alloc: Global, value: &Value, name: &str) -> Result<Option<Asked>, AllocError>
    ensures { IfOk result (λ asked. option_map asked_of asked ≡ body.asked_with (view value.now) name.now) }
{
    let Some(config) = value.get("config") else {
        return Ok(None);
    };
    let Some(config) = named_config(alloc, name, config)? else {
        return Ok(None);
    };
    Ok(Some(Asked {
        name: Text::of(alloc, name)?,
        config,
    }))
}

// The connector that an object asks for.
fn asked_by(alloc: Global, value: &Value) -> Result<Option<Asked>, AllocError>
    ensures { IfOk result (λ asked. option_map asked_of asked ≡ body.asked_by (view value.now)) }
{
    match value.get("name").and_then(Value::as_str) {
        Some(name) => asked_with(alloc, value, name),
        None => Ok(None),
    }
}

/// The connector that a body asks for; its name may be none that a connector can have. Want of memory is the only
/// error.
pub fn asked_in(alloc: Global, text: &[u8]) -> Result<Option<Asked>, AllocError>
    ensures { IfOk result (λ asked. option_map asked_of asked ≡ body.asked_in text.now) }
{
    let Some(value) = read_value(alloc, text)? else {
        return Ok(None);
    };
    if !has_members(2, &value) {
        return Ok(None);
    }
    asked_by(alloc, &value)
}
