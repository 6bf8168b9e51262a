//! What a connection ends with where there is no request to answer.
ghost use Rattle.std.specs.Prelude.{◌≡◌, ◌⊎◌, ◌≤◌, true};
ghost use Rattle.cw_types.specs.Faults.{Rose};
ghost use Rattle.cw_http.specs.declared.request.HttpFault.TheVariants as http;
ghost use Rattle.cw_conn.specs.Ends.{memory_text};
ghost use Rattle.cw_conn.specs.Refusals.{Refuses, EndsUnread};

use crate::ends::ConnEnd;
use cw_http::{HttpFault, refusal, write_reply};
use cw_io::{Link, send_all};
use std::alloc::Global;

// The reply that tells want of memory. It stands ready, since there is no memory to make it.
const UNAVAILABLE: &[u8] =
    b"HTTP/1.1 503 Service Unavailable\r\nConnection: close\r\nContent-Length: 44\r\n\
    Content-Type: application/json\r\n\r\n{\"error_code\":503,\"message\":\"Out of memory\"}";

// Ends a connection off which no request was read.
pub(crate) fn end_unread<L: Link>(alloc: Global, link: &mut L, fault: HttpFault) -> ConnEnd
    ensures end { EndsUnread fault (L.held link.old) (L.held link.new) result }
    ensures rose { result ≡ ConnEnd.LinkFault →
        (fault ≡ HttpFault.LinkFault) ⊎ Rose (L.faults link.old) (L.faults link.new) }
    ensures apart { L.left link.new ≡ L.left link.old }
    ensures later { L.faults link.old ≤ L.faults link.new }
{
    match fault {
        HttpFault::Ended => ConnEnd::Ended,
        HttpFault::LinkFault => ConnEnd::LinkFault,
        HttpFault::Bad(code) => refuse(alloc, link, code),
        HttpFault::Memory => end_wanting(link),
    }
}

// Refuses bytes that are no request. Where there is no memory for that, it is want of memory that is told.
fn refuse<L: Link>(alloc: Global, link: &mut L, code: u16) -> ConnEnd
    ensures end { EndsUnread (HttpFault.Bad code) (L.held link.old) (L.held link.new) result }
    ensures rose { result ≡ ConnEnd.LinkFault → Rose (L.faults link.old) (L.faults link.new) }
    ensures apart { L.left link.new ≡ L.left link.old }
    ensures later { L.faults link.old ≤ L.faults link.new }
{
    let Ok(reply) = refusal(alloc, code) else {
        return end_wanting(link);
    };
    match write_reply(link, &reply, true) {
        Ok(()) => ConnEnd::Bad(code),
        Err(_) => ConnEnd::LinkFault,
    }
}

// Ends a connection for want of memory.
pub(crate) fn end_wanting<L: Link>(link: &mut L) -> ConnEnd
    ensures end { Refuses ConnEnd.Memory memory_text (L.held link.old) (L.held link.new) result }
    ensures rose { result ≡ ConnEnd.LinkFault → Rose (L.faults link.old) (L.faults link.new) }
    ensures apart { L.left link.new ≡ L.left link.old }
    ensures later { L.faults link.old ≤ L.faults link.new }
{
    match send_all(link, unavailable()) {
        Ok(()) => ConnEnd::Memory,
        Err(_) => ConnEnd::LinkFault,
    }
}

// The reply that tells want of memory.
fn unavailable() -> &'static [u8]
    ensures { result.now ≡ memory_text }
{
    UNAVAILABLE
}
