//! Texts of traces: why a task failed.
ghost use Rattle.std.specs.Prelude.{◌≡◌, IfOk};
ghost use Rattle.cw_keys.specs.Traces.{fenced_trace, long_line_trace};

use cw_json::Text;
use std::alloc::{AllocError, Global};

/// The trace of a task whose producer has epoch `own` while its id has a later one (KIP-618).
pub fn fenced_trace(alloc: Global, own: u64, current: u64) -> Result<Text, AllocError>
    ensures { IfOk result (λ text. text ≡ fenced_trace own current) }
{
    let mut text = String::from_str(alloc, "Fenced: epoch ")?;
    text.push_str(own.to_string(alloc)?.as_str())?;
    text.push_str(", current ")?;
    text.push_str(current.to_string(alloc)?.as_str())?;
    Ok(Text::new(text))
}

/// The trace of a source task whose feed has a line at this position that is too long to be a record.
pub fn long_line_trace(alloc: Global, at: u64) -> Result<Text, AllocError>
    ensures { IfOk result (λ text. text ≡ long_line_trace at) }
{
    let mut text = String::from_str(alloc, "Line too long at ")?;
    text.push_str(at.to_string(alloc)?.as_str())?;
    Ok(Text::new(text))
}
