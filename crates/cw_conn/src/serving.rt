//! A connection is served: one exchange behind the other.
ghost use Rattle.std.specs.Prelude.{◌≡◌, ◌≤◌, ◌<◌, ◌⊎◌, ◌==◌, ◌||◌, ℕ, true, false, List, Option};
ghost use Rattle.std.specs.Prelude.{IfOk, IfErr, OnOk, IfSome, IfNone};
ghost use Rattle.cw_types.specs.Faults.{Rose};
ghost use Rattle.cw_io.specs.Told.{with_front, IsAtEnd};
ghost use Rattle.cw_http.specs.Kept.{IsTaken, IsRefusalCode};
ghost use Rattle.cw_model.specs.declared.journal.JournalEntry.{JournalEntry};
ghost use Rattle.cw_conn.specs.Exchanges.{Exchange, asked_call};
ghost use Rattle.cw_conn.specs.Talked.{moment, Talked};
ghost use Rattle.cw_conn.specs.Steps.{Exchanged};

use crate::desk::Desk;
use crate::ends::ConnEnd;
use crate::refusing::{end_unread, end_wanting};
use cw_http::{Request, read_request, write_reply};
use cw_io::Link;
use cw_route::{Call, RouteFault, route};
use std::alloc::{AllocError, Global};

// The most replies of a connection.
const MOST: u32 = 100;

/// Serves one link: reads its requests one after the other, has the desk answer each, and writes the replies. It ends
/// where the peer's bytes or the link end, behind a request that asks for it or the 100th reply, where bytes are
/// refused, and where memory is wanting; the last two are told by a refusal. A request that is no call is answered by
/// the desk like any other (RFC 9112; Kafka Connect's REST API).
pub fn serve_conn<L: Link, K: Desk>(alloc: Global, link: &mut L, desk: &mut K) -> ConnEnd
    ensures talked { (kept : List ℕ) × Talked 0 result
        (moment (L.left link.old) (L.held link.old) (K.entries desk.old))
        (moment (with_front kept (L.left link.new)) (L.held link.new) (K.entries desk.new)) }
    ensures ended { result ≡ ConnEnd.Ended → IsAtEnd (L.left link.new) }
    ensures bad { (code : ℕ) → result ≡ ConnEnd.Bad code → IsRefusalCode code }
    ensures link_fault { result ≡ ConnEnd.LinkFault → Rose (L.faults link.old) (L.faults link.new) }
    ensures later { L.faults link.old ≤ L.faults link.new }
{
    let mut kept = Vec::new(alloc);
    for number in 0..MOST {
        if let Some(end) = exchange(alloc, link, &mut kept, desk, number) {
            return end;
        }
    }
    unreachable!()
}

// One exchange, or the end.
fn exchange<L: Link, K: Desk>(
    alloc: Global,
    link: &mut L,
    kept: &mut Vec<u8>,
    desk: &mut K,
    number: u32,
) -> Option<ConnEnd>
    requires { number < 100 }
    ensures on { IfNone result ((x : Exchange) × Exchanged number x
        (moment (with_front kept.old.items (L.left link.old)) (L.held link.old) (K.entries desk.old))
        (moment (with_front kept.new.items (L.left link.new)) (L.held link.new) (K.entries desk.new))
        × (x.request.close ≡ false)) }
    ensures few { IfNone result (number < 99) }
    ensures off { IfSome result (λ end. Talked number end
        (moment (with_front kept.old.items (L.left link.old)) (L.held link.old) (K.entries desk.old))
        (moment (with_front kept.new.items (L.left link.new)) (L.held link.new) (K.entries desk.new))) }
    ensures ended { result ≡ Some ConnEnd.Ended → IsAtEnd (L.left link.new) }
    ensures bad { (code : ℕ) → result ≡ Some (ConnEnd.Bad code) → IsRefusalCode code }
    ensures link_fault { result ≡ Some ConnEnd.LinkFault → Rose (L.faults link.old) (L.faults link.new) }
    ensures later { L.faults link.old ≤ L.faults link.new }
{
    match next_request(alloc, link, kept) {
        Ok(request) => answer(alloc, link, desk, &request, number),
        Err(end) => Some(end),
    }
}

// The next request, or how the connection ends without one.
fn next_request<L: Link>(
    alloc: Global,
    link: &mut L,
    kept: &mut Vec<u8>,
) -> Result<Request, ConnEnd>
    ensures taken { IfOk result (λ request. IsTaken request
        (with_front kept.old.items (L.left link.old)) (with_front kept.new.items (L.left link.new))) }
    ensures silent { OnOk result (L.held link.new ≡ L.held link.old) }
    ensures off { IfErr result (λ end. (number : ℕ) (entries : List JournalEntry) → number < 100 → Talked number end
        (moment (with_front kept.old.items (L.left link.old)) (L.held link.old) entries)
        (moment (with_front kept.new.items (L.left link.new)) (L.held link.new) entries)) }
    ensures ended { result ≡ Err ConnEnd.Ended → IsAtEnd (L.left link.new) }
    ensures bad { (code : ℕ) → result ≡ Err (ConnEnd.Bad code) → IsRefusalCode code }
    ensures link_fault { result ≡ Err ConnEnd.LinkFault → Rose (L.faults link.old) (L.faults link.new) }
    ensures later { L.faults link.old ≤ L.faults link.new }
{
    match read_request(alloc, link, kept) {
        Ok(request) => Ok(request),
        Err(fault) => Err(end_unread(alloc, link, fault)),
    }
}

// The call that a request asks for. One that is no call asks to be refused.
fn call_of(alloc: Global, request: &Request) -> Result<Call, AllocError>
    ensures { IfOk result (λ call. call ≡ asked_call request.now) }
{
    let method = request.method.as_slice();
    let target = request.target.as_slice();
    match route(alloc, method, target, request.body.as_slice()) {
        Ok(call) => Ok(call),
        Err(fault) => match fault {
            RouteFault::Memory => Err(AllocError),
            _ => Ok(Call::Refused(fault)),
        },
    }
}

// Answers a request that was read behind so many others, and says how the connection ends, if it does.
fn answer<L: Link, K: Desk>(
    alloc: Global,
    link: &mut L,
    desk: &mut K,
    request: &Request,
    number: u32,
) -> Option<ConnEnd>
    requires { number < 100 }
    ensures on { IfNone result ((before behind : Option (List ℕ)) → IsTaken request.now before behind →
        (x : Exchange) × Exchanged number x (moment before (L.held link.old) (K.entries desk.old))
        (moment behind (L.held link.new) (K.entries desk.new)) × (x.request.close ≡ false)) }
    ensures few { IfNone result (number < 99) }
    ensures off { IfSome result (λ end. (before behind : Option (List ℕ)) → IsTaken request.now before behind →
        Talked number end (moment before (L.held link.old) (K.entries desk.old))
        (moment behind (L.held link.new) (K.entries desk.new))) }
    ensures apart { L.left link.new ≡ L.left link.old }
    ensures called { (result ≡ Some ConnEnd.Ended → ⊥) × ((code : ℕ) → result ≡ Some (ConnEnd.Bad code) → ⊥) }
    ensures link_fault { result ≡ Some ConnEnd.LinkFault → Rose (L.faults link.old) (L.faults link.new) }
    ensures later { L.faults link.old ≤ L.faults link.new }
{
    let Ok(call) = call_of(alloc, request) else {
        return Some(end_wanting(link));
    };
    let shut = shuts(request.close, number);
    match desk.answer(call) {
        Ok(entry) => match write_reply(link, &entry.reply, shut) {
            Ok(()) => end_behind(request.close, number),
            Err(_) => Some(ConnEnd::LinkFault),
        },
        Err(_) => Some(end_wanting(link)),
    }
}

// Whether the connection closes behind a reply.
fn shuts(asks: bool, number: u32) -> bool
    ensures { result ≡ asks || (number == 99) }
{
    asks || number == MOST - 1
}

// How the connection ends behind a reply that was written, if it does.
fn end_behind(asks: bool, number: u32) -> Option<ConnEnd>
    requires { number < 100 }
    ensures on { IfNone result ((asks ≡ false) × (number < 99)) }
    ensures off { IfSome result (λ end. ((end ≡ ConnEnd.Closed) × (asks ≡ true))
        ⊎ ((end ≡ ConnEnd.Many) × (asks ≡ false) × (number ≡ 99))) }
{
    if asks {
        Some(ConnEnd::Closed)
    } else if number == MOST - 1 {
        Some(ConnEnd::Many)
    } else {
        None
    }
}
