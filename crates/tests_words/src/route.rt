//! Requests of any bytes, which no table of calls can hold.
use cw_route::{Call, RouteFault, route};
use cw_types::{Listed, Name};
use std::process::Abort;
use std::test::Fail;

#[test]
fn a_path_of_other_bytes_is_not_found(rt: HostRuntime) -> Result<(), Fail> {
    let targets: [&[u8]; 4] = [
        b"/connectors/\xc3\xa9",
        b"/connectors\x7f",
        b"/connectors/a\x00",
        b"/\xff",
    ];
    for target in targets {
        let answer = route(rt.alloc(), b"GET", target, b"{\"x\":1}");
        assert_eq!(rt; answer.err(), Some(RouteFault::NotFound));
    }
    Ok(())
}

#[test]
fn a_method_of_any_bytes_is_judged(rt: HostRuntime) -> Result<(), Fail> {
    let methods: [&[u8]; 3] = [b"G\xffT", b"", b"get"];
    for method in methods {
        let answer = route(rt.alloc(), method, b"/connectors", b"");
        assert_eq!(rt; answer.err(), Some(RouteFault::NotAllowed));
    }
    Ok(())
}

// The name and the body of a call that has both.
fn named_body(call: &Call) -> Option<(&Name, &Listed<u8>)> {
    match call {
        Call::PutConfig(name, body) => Some((name, body)),
        Call::Alter(name, body) => Some((name, body)),
        _ => None,
    }
}

// A call of the connector `a` has this body.
fn expect_body(rt: &impl Abort, call: &Call, bytes: &[u8]) -> Result<(), Fail> {
    let (name, body) = named_body(call).ok_or("the call has no body")?;
    assert_eq!(rt; name.as_bytes(), b"a".as_slice());
    assert_eq!(rt; body.as_slice(), bytes);
    Ok(())
}

#[test]
fn a_body_of_any_bytes_is_kept(rt: HostRuntime) -> Result<(), Fail> {
    let bytes = b"\xff\x00".as_slice();
    let requests: [(&[u8], &[u8]); 2] = [
        (b"PUT", b"/connectors/a/config"),
        (b"PATCH", b"/connectors/a/offsets"),
    ];
    for (method, target) in requests {
        let call = route(rt.alloc(), method, target, bytes)?;
        expect_body(&rt, &call, bytes)?;
    }
    Ok(())
}
