//! Requests are read from a link, piece by piece.
ghost use Rattle.std.specs.Prelude.{◌≡◌, ◌+◌, ◌^◌, ◌<◌, ◌≤◌, ℕ, max, take, drop, length, IfSome, IfOk, OnOk, OnErr};
ghost use Rattle.std.specs.Prelude.{vec_len};
ghost use Rattle.cw_types.specs.Faults.{Rose};
ghost use Rattle.cw_io.specs.Told.{with_front, IsAtEnd};
ghost use Rattle.cw_http.specs.HeadEnd.{head_length};
ghost use Rattle.cw_http.specs.Reading.{unfinished, refused};
ghost use Rattle.cw_http.specs.Kept.{Moved, IsOpen, IsTold, IsTaken, IsRefusalCode};
ghost use Rattle.cw_http.specs.Outline.{FitsHead, IsTakenBy};

use crate::head_end::head_length;
use crate::outline::{Outline, outline_of};
use crate::request::{HttpFault, Request};
use cw_io::Link;
use cw_types::Listed;
use std::alloc::{AllocError, Global};

// The most bytes that are read at once, and the most bytes of a head.
const PIECE: usize = 8192;

/// Reads one request. What was read past its end is kept for the next one: `kept` holds the bytes that were
/// read from this link and are of no request yet, and begins empty. Which request it is, or which refusal, is
/// told by the bytes alone, however they were cut (RFC 9112; a head has at most 8,192 bytes and 64 lines
/// between its first line and its empty line, a body at most 1,048,576 bytes). Behind a refusal the
/// connection is to be closed. At want of memory and at a link's failure the call can be made again.
pub fn read_request<L: Link>(
    alloc: Global,
    link: &mut L,
    kept: &mut Vec<u8>,
) -> Result<Request, HttpFault>
    ensures request { IfOk result (λ request. IsTaken request
        (with_front kept.old.items (L.left link.old)) (with_front kept.new.items (L.left link.new))) }
    ensures ended { result ≡ Err HttpFault.Ended → IsTold unfinished (with_front kept.old.items (L.left link.old)) }
    ensures at_end { result ≡ Err HttpFault.Ended → IsAtEnd (L.left link.new) }
    ensures bad { (code : ℕ) → result ≡ Err (HttpFault.Bad code)
        → IsTold (refused code) (with_front kept.old.items (L.left link.old)) }
    ensures code { (code : ℕ) → result ≡ Err (HttpFault.Bad code) → IsRefusalCode code }
    ensures link_fault { result ≡ Err HttpFault.LinkFault → Rose (L.faults link.old) (L.faults link.new) }
    ensures kept { OnErr result (Moved kept.old.items kept.new.items (L.left link.old) (L.left link.new)) }
    ensures small { vec_len kept.new ≤ max (vec_len kept.old) (8192 + 1048576) }
    ensures apart { L.held link.new ≡ L.held link.old }
    ensures later { L.faults link.old ≤ L.faults link.new }
{
    let length = read_head(link, kept)?;
    let outline = match outline_of(&kept[..length]) {
        Ok(outline) => outline,
        Err(code) => return Err(HttpFault::Bad(code)),
    };
    read_body(link, kept, length + outline.body)?;
    Ok(take_request(alloc, kept, length, &outline)?)
}

// Why no more bytes were read.
#[derive(Clone, Copy, Debug, PartialEq, Eq, Drop)]
enum ReadFault {
    Ended,
    Failed,
    Memory,
}

impl From<AllocError> for ReadFault {
    ghost use Rattle.std.specs.Prelude.{◌≡◌};
    ghost use Rattle.cw_http.specs.declared.reading.ReadFault.TheVariants.{Memory};

    ghost from_gives = { λ _ fault. fault ≡ Memory };

    fn from(_: AllocError) -> ReadFault {
        ReadFault::Memory
    }
}

// Reads a piece of at most `most` bytes behind what is kept. Memory is made for it before it is read.
fn read_piece<L: Link>(link: &mut L, kept: &mut Vec<u8>, most: usize) -> Result<(), ReadFault>
    requires some { 0 < most }
    requires room { vec_len kept.old + most < 2 ^ 63 }
    ensures moved { Moved kept.old.items kept.new.items (L.left link.old) (L.left link.new) }
    ensures more { OnOk result (vec_len kept.old < vec_len kept.new) }
    ensures most { vec_len kept.new ≤ vec_len kept.old + most }
    ensures kept { OnErr result (kept.new.items ≡ kept.old.items) }
    ensures at_end { result ≡ Err ReadFault.Ended → IsAtEnd (L.left link.new) }
    ensures failed { result ≡ Err ReadFault.Failed → Rose (L.faults link.old) (L.faults link.new) }
    ensures apart { L.held link.new ≡ L.held link.old }
    ensures later { L.faults link.old ≤ L.faults link.new }
{
    let length = kept.len();
    kept.resize(length + most, 0)?;
    match link.read(&mut kept[length..]) {
        Ok(0) => {
            kept.truncate(length);
            Err(ReadFault::Ended)
        }
        Ok(count) => {
            kept.truncate(length + count);
            Ok(())
        }
        Err(_) => {
            kept.truncate(length);
            Err(ReadFault::Failed)
        }
    }
}

impl From<ReadFault> for HttpFault {
    ghost use Rattle.std.specs.Prelude.{◌≡◌};
    ghost use Rattle.cw_http.specs.Faults.{fault_of};

    ghost from_gives = { λ read fault. fault ≡ fault_of read };

    fn from(fault: ReadFault) -> HttpFault {
        match fault {
            ReadFault::Ended => HttpFault::Ended,
            ReadFault::Failed => HttpFault::LinkFault,
            ReadFault::Memory => HttpFault::Memory,
        }
    }
}

// How long the head at the front of what is kept is, if it is within the limit.
fn front_length(kept: &[u8]) -> Option<usize>
    ensures length { result ≡ head_length (take 8192 kept.now) }
    ensures within { IfSome result (λ n. n ≤ length kept.now) }
    ensures limit { IfSome result (λ n. n ≤ 8192) }
{
    head_length(&kept[..kept.len().min(PIECE)])
}

// Reads until a whole head stands at the front of what is kept, and tells its length.
fn read_head<L: Link>(link: &mut L, kept: &mut Vec<u8>) -> Result<usize, HttpFault>
    ensures moved { Moved kept.old.items kept.new.items (L.left link.old) (L.left link.new) }
    ensures head { IfOk result (λ n. head_length (take 8192 kept.new.items) ≡ Some n) }
    ensures within { IfOk result (λ n. n ≤ vec_len kept.new) }
    ensures limit { IfOk result (λ n. n ≤ 8192) }
    ensures ended { result ≡ Err HttpFault.Ended → IsOpen kept.new.items }
    ensures short { result ≡ Err HttpFault.Ended → vec_len kept.new < 8192 }
    ensures at_end { result ≡ Err HttpFault.Ended → IsAtEnd (L.left link.new) }
    ensures bad { (code : ℕ) → result ≡ Err (HttpFault.Bad code) → IsOpen kept.new.items }
    ensures code { (code : ℕ) → result ≡ Err (HttpFault.Bad code) → code ≡ 431 }
    ensures long { (code : ℕ) → result ≡ Err (HttpFault.Bad code) → 8192 ≤ vec_len kept.new }
    ensures failed { result ≡ Err HttpFault.LinkFault → Rose (L.faults link.old) (L.faults link.new) }
    ensures small { vec_len kept.new ≤ max (vec_len kept.old) 8192 }
    ensures apart { L.held link.new ≡ L.held link.old }
    ensures later { L.faults link.old ≤ L.faults link.new }
{
    loop {
        let found = front_length(kept);
        if let Some(length) = found {
            return Ok(length);
        }
        if kept.len() >= PIECE {
            return Err(HttpFault::Bad(431));
        }
        read_piece(link, kept, PIECE - kept.len())?;
    }
}

// Reads until so many bytes are kept.
fn read_body<L: Link>(link: &mut L, kept: &mut Vec<u8>, wanted: usize) -> Result<(), ReadFault>
    requires { wanted < 2 ^ 32 }
    ensures moved { Moved kept.old.items kept.new.items (L.left link.old) (L.left link.new) }
    ensures whole { OnOk result (wanted ≤ vec_len kept.new) }
    ensures ended { result ≡ Err ReadFault.Ended → vec_len kept.new < wanted }
    ensures at_end { result ≡ Err ReadFault.Ended → IsAtEnd (L.left link.new) }
    ensures failed { result ≡ Err ReadFault.Failed → Rose (L.faults link.old) (L.faults link.new) }
    ensures small { vec_len kept.new ≤ max (vec_len kept.old) wanted }
    ensures apart { L.held link.new ≡ L.held link.old }
    ensures later { L.faults link.old ≤ L.faults link.new }
{
    while kept.len() < wanted {
        let most = PIECE.min(wanted - kept.len());
        read_piece(link, kept, most)?;
    }
    Ok(())
}

// Takes the request of an outline from the front of what is kept.
fn take_request(
    alloc: Global,
    kept: &mut Vec<u8>,
    length: usize,
    outline: &Outline,
) -> Result<Request, AllocError>
    requires fits { FitsHead length outline.now }
    requires whole { length + outline.now.body ≤ vec_len kept.old }
    ensures request { IfOk result (IsTakenBy kept.old.items length outline.now) }
    ensures rest { OnOk result (kept.new.items ≡ drop (length + outline.now.body) kept.old.items) }
    ensures kept { OnErr result (kept.new.items ≡ kept.old.items) }
    ensures small { vec_len kept.new ≤ vec_len kept.old }
{
    let end = length + outline.body;
    let head = &kept[..length];
    let request = Request {
        method: Listed::new(outline.method.of(head).to_vec(alloc)?),
        target: Listed::new(outline.target.of(head).to_vec(alloc)?),
        body: Listed::new(kept[length..end].to_vec(alloc)?),
        close: outline.close,
    };
    *kept = kept[end..].to_vec(alloc)?;
    Ok(request)
}
