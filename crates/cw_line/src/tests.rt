ghost use Rattle.std.specs.Prelude.{◌≡◌};
ghost use Rattle.cw_line.specs.Sides.{IsFirstOf, name_of};

use super::*;
use crossbeam_queue::Pass;
use cw_io::MemLink;
use cw_net::MemListener;
use std::alloc::Global;
use std::collections::VecDeque;
use std::marker::Brand;
use std::process::Abort;
use std::sync::Wait;
use std::test::Fail;

// A handler takes the first of three links, and those that it left are taken behind it.
fn take_each<J: Seat, R: Wait + Abort>(
    rt: &R,
    line: &Line<MemLink>,
    pass: Pass<Ticket<MemLink>, Hand<MemLink>>,
    mut net: MemListener<MemLink>,
) -> Accepted
    requires seat { name_of line.now ≡ J.table }
    requires first { IsFirstOf J.table pass }
{
    let mut acceptor = Acceptor::<J, MemLink>::new(pass);
    let mut taker = acceptor.split(line);
    let accepted = accept_links(rt, line, &mut acceptor, &mut net, 8);
    assert_eq!(rt; number_of(taker.take(rt, line)), Some(0));
    acceptor.absorb(line, taker);
    assert_eq!(rt; number_of(acceptor.take_left(rt, line)), Some(1));
    assert_eq!(rt; number_of(acceptor.take_left(rt, line)), Some(2));
    assert!(rt; acceptor.take_left(rt, line).is_none());
    accepted
}

fn number_of(ticket: Option<Ticket<MemLink>>) -> Option<u64> {
    match ticket {
        Some(ticket) => Some(ticket.number),
        None => None,
    }
}

// Three links without bytes.
fn three_links(alloc: Global) -> Result<VecDeque<MemLink>, Fail> {
    let mut links = VecDeque::new(alloc);
    for _ in 0..3 {
        links.push_back(MemLink::new(alloc, Vec::new(alloc), 0, 8, Vec::new(alloc))?)?;
    }
    Ok(links)
}

#[test]
fn each_link_is_taken_once_in_its_order(rt: HostRuntime) -> Result<(), Fail> {
    let net = MemListener::new(three_links(rt.alloc())?, Vec::new(rt.alloc()));
    let Opened { line, pass } = open_line(rt.alloc(), 8)?;
    let accepted = take_each::<Brand, HostRuntime>(&rt, &line, pass, net);
    assert_eq!(rt; accepted.pushed, 3);
    assert!(rt; !accepted.failed);
    Ok(())
}
