//! The texts that lines give, and those that answers are made of.
use cw_connect::Status;
use cw_types::read_u64;
use std::alloc::{AllocError, Global};

/// A field of a line; an empty one where there is none.
pub(crate) fn field<'a>(fields: &[&'a str], at: usize) -> &'a str {
    match fields.get(at) {
        Some(field) => *field,
        None => "",
    }
}

/// The number that a field is; 0 where it is none.
pub(crate) fn number_of(field: &str) -> u64 {
    read_u64(field.as_bytes()).unwrap_or(0)
}

/// The text that fields give: a first part, how often the middle part stands, the middle part, and a last part.
pub(crate) fn text_of(alloc: Global, fields: &[&str]) -> Result<Vec<u8>, AllocError> {
    let mut text = Vec::new(alloc);
    add(&mut text, field(fields, 0))?;
    let mut middle = Vec::new(alloc);
    add(&mut middle, field(fields, 2))?;
    for _ in 0..number_of(field(fields, 1)) {
        text.extend_from_slice(&middle)?;
    }
    add(&mut text, field(fields, 3))?;
    Ok(text)
}

// Puts the bytes that a part of a text stands for behind others.
fn add(text: &mut Vec<u8>, part: &str) -> Result<(), AllocError> {
    let mut is_escaped = false;
    for byte in part.as_bytes() {
        if is_escaped {
            text.push(meant_by(*byte))?;
        } else if *byte != b'\\' {
            text.push(*byte)?;
        }
        is_escaped = !is_escaped && *byte == b'\\';
    }
    Ok(())
}

// The byte that stands behind a backslash.
fn meant_by(byte: u8) -> u8 {
    match byte {
        b'r' => b'\r',
        b'n' => b'\n',
        b't' => b'\t',
        b'0' => 0,
        _ => byte,
    }
}

/// Bytes on one line; where there are none, that is said.
pub(crate) fn escaped(alloc: Global, bytes: &[u8]) -> Result<String, AllocError> {
    if bytes.is_empty() {
        return String::from_str(alloc, "nothing");
    }
    let mut text = String::new(alloc);
    for byte in bytes {
        match *byte {
            b'\r' => text.push_str("\\r")?,
            b'\n' => text.push_str("\\n")?,
            b' '..=b'~' => text.push(char::from(*byte))?,
            _ => text.push('?')?,
        }
    }
    Ok(text)
}

/// How many bytes there are, and whether they are all that are due, a first part of these, or others.
pub(crate) fn part_text(alloc: Global, bytes: &[u8], due: &[u8]) -> Result<String, AllocError> {
    let count = bytes.len();
    if bytes == due {
        format!(in alloc; "all {count} bytes")
    } else if due.starts_with(bytes) {
        format!(in alloc; "the first {count} bytes")
    } else {
        format!(in alloc; "{count} other bytes")
    }
}

/// How a run ended.
pub(crate) fn status_text(alloc: Global, status: &Status) -> Result<String, AllocError> {
    match status {
        Status::BadScript { line, kind } => {
            let kind = kind.name();
            format!(in alloc; "BadScript({line}, {kind})")
        }
        Status::TooLong(count) => format!(in alloc; "TooLong({count})"),
        Status::StoreFault { count, .. } => format!(in alloc; "StoreFault({count})"),
        Status::Damaged { at, harm, .. } => format!(in alloc; "Damaged({at}, {harm:?})"),
        _ => String::from_str(alloc, status_name(status)),
    }
}

// The name of a status.
fn status_name(status: &Status) -> &'static str {
    match status {
        Status::Done => "Done",
        Status::Usage => "Usage",
        Status::ReadFault => "ReadFault",
        Status::WriteFault => "WriteFault",
        Status::ShelfFault => "ShelfFault",
        Status::OutletFault => "OutletFault",
        Status::NetFault => "NetFault",
        Status::Full { .. } => "Full",
        Status::Memory => "Memory",
        Status::Disagree { .. } => "Disagree",
        _ => "another status",
    }
}
