//! Names as texts, and names and tasks within keys.
ghost use Rattle.std.specs.Prelude.{◌≡◌, ◌<◌, ◌^◌, ◌++◌, IfOk, OnOk, option_map};
ghost use Rattle.cw_keys.specs.Names.{cut_last, task_of, task_text};
ghost use Rattle.cw_types.specs.Name.{IsName};

use cw_types::{Name, TaskId};
use memchr::memrchr;
use std::alloc::{AllocError, Global};

/// A name as a text.
pub fn text_of_name(name: &Name) -> &str
    ensures text { result.now ≡ name.now }
    ensures name { IsName name.now }
{
    match str::from_utf8(name.as_bytes()) {
        Ok(text) => text,
        Err(_) => "",
    }
}

// What stands before the last dash, and behind it.
fn cut_last(bytes: &[u8]) -> Option<(&[u8], &[u8])>
    ensures { option_map (λ parts. (parts.0.now, parts.1.now)) result ≡ cut_last bytes.now }
{
    let at = memrchr(b'-', bytes)?;
    Some((&bytes[..at], &bytes[at + 1..]))
}

// The task that bytes are.
pub(crate) fn read_task(alloc: Global, bytes: &[u8]) -> Result<Option<TaskId>, AllocError>
    ensures { IfOk result (λ id. id ≡ task_of bytes.now) }
{
    match cut_last(bytes) {
        Some((connector, index)) => TaskId::from_bytes(alloc, connector, index),
        None => Ok(None),
    }
}

// A text and a name behind it.
pub(crate) fn text_and_name(alloc: Global, text: &[u8], name: &Name) -> Result<Vec<u8>, AllocError>
    ensures text { IfOk result (λ bytes. bytes.items ≡ text.now ++ name.now) }
    ensures name { OnOk result (IsName name.now) }
{
    let mut bytes = text.to_vec(alloc)?;
    bytes.extend_from_slice(name.as_bytes())?;
    Ok(bytes)
}

// A text and a task behind it.
pub(crate) fn text_and_task(alloc: Global, text: &[u8], id: &TaskId) -> Result<Vec<u8>, AllocError>
    ensures text { IfOk result (λ bytes. bytes.items ≡ text.now ++ task_text id.now) }
    ensures name { OnOk result (IsName id.now.connector) }
    ensures index { OnOk result (id.now.index < 2 ^ 32) }
{
    let index = id.index;
    let mut bytes = text.to_vec(alloc)?;
    bytes.extend_from_slice(id.connector.as_bytes())?;
    bytes.push(b'-')?;
    bytes.extend_from_slice(index.to_string(alloc)?.as_bytes())?;
    Ok(bytes)
}
