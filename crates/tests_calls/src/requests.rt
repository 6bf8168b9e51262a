//! Requests behind one another, a link that fails in mid-stream, a body of the greatest size, and replies.
use cw_http::{HttpFault, read_request, refusal, write_reply};
use cw_io::MemLink;
use cw_route::Reply;
use cw_types::Listed;
use std::alloc::Global;
use std::test::Fail;

// Whether the next request has this target and this body, and whether it closes its connection as told.
fn comes(
    alloc: Global,
    link: &mut MemLink,
    kept: &mut Vec<u8>,
    (target, body, close): (&[u8], &[u8], bool),
) -> Result<bool, HttpFault> {
    let request = read_request(alloc, link, kept)?;
    let is = request.target.as_slice() == target && request.body.as_slice() == body;
    Ok(is && request.close == close)
}

#[test]
fn requests_stand_one_behind_the_other(rt: HostRuntime) -> Result<(), Fail> {
    let alloc = rt.alloc();
    let text = b"POST /a HTTP/1.1\r\nContent-Length: 2\r\n\r\nxyGET /b HTTP/1.0\r\n\r\nGET";
    let mut link = MemLink::new(alloc, text.to_vec(alloc)?, 0, 100, Vec::new(alloc))?;
    let mut kept = Vec::new(alloc);
    assert!(rt; comes(alloc, &mut link, &mut kept, (b"/a", b"xy", false))?);
    assert!(rt; comes(alloc, &mut link, &mut kept, (b"/b", b"", true))?);
    assert!(rt; read_request(alloc, &mut link, &mut kept).is_err());
    Ok(())
}

#[test]
fn a_link_that_fails_in_mid_stream_loses_nothing(rt: HostRuntime) -> Result<(), Fail> {
    let alloc = rt.alloc();
    let text = b"GET /a HTTP/1.1\r\n\r\n";
    let mut link = MemLink::new(alloc, text.to_vec(alloc)?, 0, 7, vec![in alloc; 1u64]?)?;
    let mut kept = Vec::new(alloc);
    let failed = read_request(alloc, &mut link, &mut kept);
    assert_eq!(rt; failed.err(), Some(HttpFault::LinkFault));
    assert!(rt; comes(alloc, &mut link, &mut kept, (b"/a", b"", false))?);
    Ok(())
}

#[test]
fn a_body_of_the_greatest_size_is_read(rt: HostRuntime) -> Result<(), Fail> {
    let alloc = rt.alloc();
    let mut text = b"PUT /a HTTP/1.1\r\nContent-Length: 1048576\r\n\r\n".to_vec(alloc)?;
    text.resize(text.len() + 1_048_576, b'x')?;
    let mut link = MemLink::new(alloc, text, 0, 65_536, Vec::new(alloc))?;
    let request = read_request(alloc, &mut link, &mut Vec::new(alloc))?;
    assert_eq!(rt; request.body.as_slice().len(), 1_048_576);
    Ok(())
}

#[test]
fn a_reply_is_cut_off_where_its_link_fails(rt: HostRuntime) -> Result<(), Fail> {
    let alloc = rt.alloc();
    let body = Listed::new(b"{}".to_vec(alloc)?);
    let reply = Reply { code: 201, body };
    let text = b"HTTP/1.1 201 Created\r\nContent-Length: 2\r\n\
        Content-Type: application/json\r\n\r\n{}";
    let mut link = MemLink::new(alloc, Vec::new(alloc), 200, 60, vec![in alloc; 3u64]?)?;
    assert!(rt; write_reply(&mut link, &reply, false).is_ok());
    assert_eq!(rt; link.written(), text.as_slice());
    assert!(rt; write_reply(&mut link, &reply, false).is_err());
    assert_eq!(rt; link.written().len(), text.len() + 60);
    Ok(())
}

#[test]
fn a_refusal_closes(rt: HostRuntime) -> Result<(), Fail> {
    let alloc = rt.alloc();
    let mut link = MemLink::new(alloc, Vec::new(alloc), 200, 200, Vec::new(alloc))?;
    assert!(rt; write_reply(&mut link, &refusal(alloc, 413)?, true).is_ok());
    let text = b"HTTP/1.1 413 Payload Too Large\r\nConnection: close\r\nContent-Length: 39\r\n\
        Content-Type: application/json\r\n\r\n{\"error_code\":413,\"message\":\"HTTP 413\"}";
    assert_eq!(rt; link.written(), text.as_slice());
    Ok(())
}
