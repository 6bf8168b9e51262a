//! Replies are written to a link.
ghost use Rattle.std.specs.Prelude.{◌≡◌, ◌≤◌, ◌++◌, length, take, [], unwrap_or, OnOk, OnErr, IfOk};
ghost use Rattle.http.specs.StatusCode.{reason_phrase};
ghost use Rattle.cw_types.specs.Faults.{Rose};
ghost use Rattle.cw_io.specs.Told.{with_back};
ghost use Rattle.cw_io.specs.Written.{IsWrittenInPart};
ghost use Rattle.cw_http.specs.Sending.{Waits};
ghost use Rattle.cw_http.specs.Replies.{phrase, status_line, close_line, length_line, type_line, reply_text};
ghost use Rattle.cw_http.specs.Replies.{refusal_of, refusal_text};

use crate::sending::send_line;
use cw_io::{Failed, Link, send_all};
use cw_route::Reply;
use cw_types::Listed;
use http::StatusCode;
use itoa::Buffer;
use std::alloc::{AllocError, Global};

// How many bytes wait at most to be sent with those behind them.
const ROOM: usize = 1024;

/// Writes a reply, and says whether the connection closes behind it. It takes no memory. Where the link
/// fails, some first part of the text was written.
pub fn write_reply<L: Link>(link: &mut L, reply: &Reply, close: bool) -> Result<(), Failed>
    ensures whole { OnOk result (L.held link.new ≡ with_back (reply_text reply.now close) (L.held link.old)) }
    ensures in_part { OnErr result (IsWrittenInPart (reply_text reply.now close) (L.held link.old) (L.held link.new)) }
    ensures apart { L.left link.new ≡ L.left link.old }
    ensures later { L.faults link.old ≤ L.faults link.new }
    ensures rose { OnErr result (Rose (L.faults link.old) (L.faults link.new)) }
{
    let body = reply.body.as_slice();
    let kind = type_line(reply.code, body.len());
    let mut waiting = [0u8; ROOM];
    let status = send_status(link, &mut waiting, reply.code, close)?;
    let length = send_length(link, &mut waiting, status, reply.code, body.len())?;
    let whole = send_line(link, &mut waiting, length, kind, b"\r\n", body)?;
    send_all(link, &waiting[..whole])?;
    Ok(())
}

// Sends the first line, and the one that says that the connection closes, where it does.
fn send_status<L: Link>(
    link: &mut L,
    waiting: &mut [u8],
    code: u16,
    close: bool,
) -> Result<usize, Failed>
    ensures fits { IfOk result (λ n. n ≤ length waiting.new) }
    ensures ok { IfOk result (λ n. Waits (status_line code ++ close_line close) (take n waiting.new)
        (L.held link.old) (L.held link.new)) }
    ensures in_part { OnErr result (IsWrittenInPart (status_line code ++ close_line close)
        (L.held link.old) (L.held link.new)) }
    ensures apart { L.left link.new ≡ L.left link.old }
    ensures later { L.faults link.old ≤ L.faults link.new }
    ensures rose { OnErr result (Rose (L.faults link.old) (L.faults link.new)) }
{
    let mut digits = Buffer::new();
    let text = digits.format(code).as_bytes();
    let begun = send_line(link, waiting, 0, b"HTTP/1.1 ", text, b" ")?;
    let ended = send_line(
        link,
        waiting,
        begun,
        phrase(code).as_bytes(),
        b"\r\n",
        close_line(close),
    )?;
    Ok(ended)
}

// Sends the line that tells the length of a body, for each code but 204.
fn send_length<L: Link>(
    link: &mut L,
    waiting: &mut [u8],
    count: usize,
    code: u16,
    size: usize,
) -> Result<usize, Failed>
    requires { count ≤ length waiting.old }
    ensures fits { IfOk result (λ n. n ≤ length waiting.new) }
    ensures ok { IfOk result (λ n. Waits (take count waiting.old ++ length_line code size) (take n waiting.new)
        (L.held link.old) (L.held link.new)) }
    ensures in_part { OnErr result (IsWrittenInPart (take count waiting.old ++ length_line code size)
        (L.held link.old) (L.held link.new)) }
    ensures apart { L.left link.new ≡ L.left link.old }
    ensures later { L.faults link.old ≤ L.faults link.new }
    ensures rose { OnErr result (Rose (L.faults link.old) (L.faults link.new)) }
{
    if code == 204 {
        return Ok(count);
    }
    let mut digits = Buffer::new();
    let text = digits.format(size).as_bytes();
    let ended = send_line(link, waiting, count, b"Content-Length: ", text, b"\r\n")?;
    Ok(ended)
}

// The phrase of a code.
fn phrase(code: u16) -> &'static str
    ensures { result.now ≡ phrase code }
{
    match StatusCode::from_u16(code) {
        Ok(status) => reason(status),
        Err(_) => "",
    }
}

// The phrase of a status, if it has one.
fn reason(status: StatusCode) -> &'static str
    ensures { result.now ≡ unwrap_or (reason_phrase status) [] }
{
    match status.canonical_reason() {
        Some(reason) => reason,
        None => "",
    }
}

// The line that says that the connection closes, where it does.
fn close_line(close: bool) -> &'static [u8]
    ensures { result.now ≡ close_line close }
{
    if close { b"Connection: close\r\n" } else { b"" }
}

// The line that tells the type of a body of this size that is there.
fn type_line(code: u16, size: usize) -> &'static [u8]
    ensures { result.now ≡ type_line code size }
{
    if code == 204 {
        return b"";
    }
    if size == 0 {
        b""
    } else {
        b"Content-Type: application/json\r\n"
    }
}

/// The reply of a request that is refused with this code.
pub fn refusal(alloc: Global, code: u16) -> Result<Reply, AllocError>
    ensures { IfOk result (λ reply. reply ≡ refusal_of code) }
{
    Ok(Reply {
        code,
        body: Listed::new(refusal_text(alloc, code)?),
    })
}

// The body of a refusal.
fn refusal_text(alloc: Global, code: u16) -> Result<Vec<u8>, AllocError>
    ensures { IfOk result (λ text. text.items ≡ refusal_text code) }
{
    let mut buffer = Buffer::new();
    let digits = buffer.format(code).as_bytes();
    let mut text = b"{\"error_code\":".to_vec(alloc)?;
    text.extend_from_slice(digits)?;
    text.extend_from_slice(b",\"message\":\"HTTP ")?;
    text.extend_from_slice(digits)?;
    text.extend_from_slice(b"\"}")?;
    Ok(text)
}
