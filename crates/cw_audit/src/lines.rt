//! The lines of a report.
ghost use Rattle.std.specs.Prelude.{◌≡◌, ◌++◌, IfOk, OnOk, decimal};
ghost use Rattle.cw_audit.specs.Lines as line;
ghost use Rattle.cw_rest.specs.Messages.{log_text};

use cw_types::LogName;
use std::alloc::{AllocError, Global};

/// `log NAME frames F bytes B`.
pub(crate) fn log_line(
    alloc: Global,
    log: LogName,
    frames: u64,
    bytes: u64,
) -> Result<Vec<u8>, AllocError>
    ensures { IfOk result (λ made. made.items ≡ line.log_line log frames bytes) }
{
    let mut made = Vec::from_slice(alloc, b"log ")?;
    made.extend_from_slice(log_text(log))?;
    made.extend_from_slice(b" frames ")?;
    push_number(&mut made, frames)?;
    made.extend_from_slice(b" bytes ")?;
    push_number(&mut made, bytes)?;
    made.push(b'\n')?;
    Ok(made)
}

fn log_text(log: LogName) -> &'static [u8]
    ensures { result.now ≡ log_text log }
{
    match log {
        LogName::Config => b"config",
        LogName::Offsets => b"offsets",
        LogName::Status => b"status",
        LogName::Txn => b"transactions",
        LogName::Batches => b"batches",
    }
}

/// `tid TEXT epoch E`.
pub(crate) fn tid_line(alloc: Global, text: &[u8], epoch: u64) -> Result<Vec<u8>, AllocError>
    ensures { IfOk result (λ made. made.items ≡ line.tid_line text.now epoch) }
{
    let mut made = Vec::from_slice(alloc, b"tid ")?;
    made.extend_from_slice(text)?;
    made.extend_from_slice(b" epoch ")?;
    push_number(&mut made, epoch)?;
    made.push(b'\n')?;
    Ok(made)
}

/// `part KEY base B end E`, with `none` for no end.
pub(crate) fn part_line(
    alloc: Global,
    key: &[u8],
    base: u64,
    end: Option<u64>,
) -> Result<Vec<u8>, AllocError>
    ensures { IfOk result (λ made. made.items ≡ line.part_line key.now base end) }
{
    let mut made = Vec::from_slice(alloc, b"part ")?;
    made.extend_from_slice(key)?;
    made.extend_from_slice(b" base ")?;
    push_number(&mut made, base)?;
    made.extend_from_slice(b" end ")?;
    push_end(&mut made, end)?;
    made.push(b'\n')?;
    Ok(made)
}

/// `connector NAME generation G count N pending yes`, or `no`.
pub(crate) fn connector_line(
    alloc: Global,
    name: &[u8],
    generation: u64,
    count: u32,
    pending: bool,
) -> Result<Vec<u8>, AllocError>
    ensures { IfOk result (λ made. made.items ≡ line.connector_line name.now generation count pending) }
{
    let mut made = Vec::from_slice(alloc, b"connector ")?;
    made.extend_from_slice(name)?;
    made.extend_from_slice(b" generation ")?;
    push_number(&mut made, generation)?;
    made.extend_from_slice(b" count ")?;
    push_number(&mut made, u64::from(count))?;
    made.extend_from_slice(b" pending ")?;
    made.extend_from_slice(yes_or_no(pending))?;
    made.push(b'\n')?;
    Ok(made)
}

/// `feeds agree`, or `feeds differ`.
pub(crate) fn feeds_line(agrees: bool) -> &'static [u8]
    ensures { result.now ≡ line.feeds_line agrees }
{
    if agrees {
        b"feeds agree\n"
    } else {
        b"feeds differ\n"
    }
}

fn yes_or_no(pending: bool) -> &'static [u8]
    ensures { result.now ≡ line.yes_or_no pending }
{
    if pending { b"yes" } else { b"no" }
}

fn push_end(text: &mut Vec<u8>, end: Option<u64>) -> Result<(), AllocError>
    ensures { OnOk result (text.new.items ≡ text.old.items ++ line.end_text end) }
{
    match end {
        Some(end) => push_number(text, end),
        None => text.extend_from_slice(b"none"),
    }
}

// A number in decimal.
fn push_number(text: &mut Vec<u8>, number: u64) -> Result<(), AllocError>
    ensures { OnOk result (text.new.items ≡ text.old.items ++ decimal number) }
{
    let mut digits = itoa::Buffer::new();
    text.extend_from_slice(digits.format(number).as_bytes())
}
