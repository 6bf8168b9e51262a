//! What peers get for what they send, at once and byte by byte, and how their connections end.
use cw_conn::{ConnEnd, MemDesk, serve_conn};
use cw_io::MemLink;
use cw_route::{Call, Reply, RouteFault};
use cw_types::Listed;
use std::alloc::{AllocError, Global};
use std::collections::VecDeque;
use std::test::Fail;

const OPEN: &[u8] =
    b"HTTP/1.1 200 OK\r\nContent-Length: 2\r\nContent-Type: application/json\r\n\r\n[]";

const SHUT: &[u8] = b"HTTP/1.1 200 OK\r\nConnection: close\r\nContent-Length: 2\r\n\
    Content-Type: application/json\r\n\r\n[]";

const BAD: &[u8] = b"HTTP/1.1 501 Not Implemented\r\nConnection: close\r\nContent-Length: 39\r\n\
    Content-Type: application/json\r\n\r\n{\"error_code\":501,\"message\":\"HTTP 501\"}";

// A desk that answers so many calls.
fn desk_of(alloc: Global, count: usize) -> Result<MemDesk, AllocError> {
    let mut replies = VecDeque::new(alloc);
    for _ in 0..count {
        let body = Listed::new(b"[]".to_vec(alloc)?);
        replies.push_back(Reply { code: 200, body })?;
    }
    Ok(MemDesk::new(alloc, replies))
}

// How a connection ends, and what is written to it.
fn talk(alloc: Global, sent: &[u8], bytewise: bool) -> Result<(ConnEnd, Vec<u8>), AllocError> {
    let most = if bytewise { 1 } else { 9000 };
    let mut link = MemLink::new(alloc, sent.to_vec(alloc)?, 0, most, Vec::new(alloc))?;
    let end = serve_conn(alloc, &mut link, &mut desk_of(alloc, 101)?);
    Ok((end, link.written().to_vec(alloc)?))
}

#[test]
fn each_gets_its_due(rt: HostRuntime) -> Result<(), Fail> {
    let chunked = b"GET / HTTP/1.1\r\nTransfer-Encoding: chunked\r\n\r\n".as_slice();
    let twice = b"POST / HTTP/1.1\r\nContent-Length: 2\r\nContent-Length: 2\r\n\r\n".as_slice();
    let large = b"POST / HTTP/1.1\r\nContent-Length: 1048577\r\n\r\n".as_slice();
    let long = [b'a'; 8192];
    for bytewise in [false, true] {
        let closing = talk(rt.alloc(), b"GET /connectors HTTP/1.0\r\n\r\n", bytewise)?;
        assert!(rt; closing.0 == ConnEnd::Closed && closing.1.as_slice() == SHUT);
        let half = talk(rt.alloc(), b"GET /connectors HT", bytewise)?;
        assert!(rt; half.0 == ConnEnd::Ended && half.1.is_empty());
        assert_eq!(rt; talk(rt.alloc(), chunked, bytewise)?.1.as_slice(), BAD);
        for (sent, code) in [(twice, 400), (large, 413), (&long, 431)] {
            assert_eq!(rt; talk(rt.alloc(), sent, bytewise)?.0, ConnEnd::Bad(code));
        }
    }
    Ok(())
}

#[test]
fn a_link_fails_in_a_reply(rt: HostRuntime) -> Result<(), Fail> {
    let sent = b"GET /x HTTP/1.1\r\n\r\n".to_vec(rt.alloc())?;
    let mut link = MemLink::new(rt.alloc(), sent, 0, 30, vec![in rt.alloc(); 2u64]?)?;
    let mut desk = desk_of(rt.alloc(), 1)?;
    assert_eq!(rt;
        serve_conn(rt.alloc(), &mut link, &mut desk),
        ConnEnd::LinkFault
    );
    assert_eq!(rt; link.written(), &OPEN[..30]);
    assert_eq!(rt; desk.entries.len(), 1);
    assert!(rt; matches!(desk.entries[0].call, Call::Refused(RouteFault::NotFound)));
    Ok(())
}

#[test]
fn a_hundred_replies_are_many(rt: HostRuntime) -> Result<(), Fail> {
    let mut sent = Vec::new(rt.alloc());
    for _ in 0..101 {
        sent.extend_from_slice(b"GET /connectors HTTP/1.1\r\n\r\n")?;
    }
    let (end, text) = talk(rt.alloc(), &sent, false)?;
    assert!(rt; end == ConnEnd::Many && text.len() == 99 * OPEN.len() + SHUT.len());
    Ok(())
}
