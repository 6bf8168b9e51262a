//! What is in memory gives what it was given and fails where it is told to; the adapters reach the system.
use cw_io::{Failed, MemLink, send_all};
use cw_net::{
    Clock, Gate, Listener, MemClock, MemListener, OpenGate, Point, PortListener, SystemClock,
};
use std::alloc::Global;
use std::collections::VecDeque;
use std::net::TcpListener;
use std::test::Fail;

// A listener that gives two links, and whose second call fails.
fn two_links(alloc: Global) -> Result<MemListener<MemLink>, Fail> {
    let mut links = VecDeque::new(alloc);
    for name in [b"a", b"b"] {
        links.push_back(MemLink::new(alloc, name.to_vec(alloc)?, 8, 8, Vec::new(alloc))?)?;
    }
    Ok(MemListener::new(links, vec![in alloc; 1u64]?))
}

// Whether a listener gives one more link.
fn gives(listener: &mut MemListener<MemLink>) -> Result<bool, Failed> {
    Ok(listener.accept()?.is_some())
}

#[test]
fn a_listener_in_memory_fails_where_told(rt: HostRuntime) -> Result<(), Fail> {
    let mut listener = two_links(rt.alloc())?;
    let mut first = listener.accept()?.ok_or("no link")?;
    assert_eq!(rt; send_all(&mut first, b"x"), Ok(()));
    assert_eq!(rt; gives(&mut listener), Err(Failed));
    assert_eq!(rt; gives(&mut listener), Ok(true));
    assert_eq!(rt; gives(&mut listener), Ok(false));
    Ok(())
}

#[test]
fn a_port_that_is_taken_is_a_fault(rt: HostRuntime) {
    let _taken = TcpListener::bind(&rt, "127.0.0.1:8083");
    let mut listener = PortListener::new(&rt);
    match listener.accept() {
        Ok(_) => assert!(rt; false),
        Err(fault) => assert_eq!(rt; fault, Failed),
    }
}

#[test]
fn clocks_go_on(rt: HostRuntime) {
    let mut clock = MemClock::new(5, 2);
    assert_eq!(rt; clock.now(), 7);
    assert_eq!(rt; clock.now(), 9);
    let mut clock = SystemClock::new(&rt);
    let first = clock.now();
    assert!(rt; first > 1_600_000_000_000);
    assert!(rt; clock.now() >= first);
    OpenGate.pass(Point::AfterTick, 0);
}
