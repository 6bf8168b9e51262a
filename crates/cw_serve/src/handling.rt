//! A connection handler's thread.
ghost use Rattle.std.specs.Prelude.{◌≡◌};
ghost use Rattle.cw_line.specs.Sides.{name_of};
ghost use Rattle.cw_serve.specs.Talking.{Serves, entries_in};

use crate::common::Common;
use crate::desk::{Asked, LockDesk};
use crate::kept::Kept;
use crate::naming::Begun;
use cw_conn::serve_conn;
use cw_disk::Disk;
use cw_io::{Link, Outlet};
use cw_line::{Line, Taker, Ticket};
use std::alloc::Global;
use std::marker::Model;
use std::sync::Wait;
use std::thread;
use std::time::Duration;

/// What a handler has: its side of the line, and what it keeps of its calls. Clauses see the links that it took, with
/// their numbers, as they were accepted. Over each of these there was one connection, and the connections were answered
/// by the entries of which it keeps receipts.
#[derive(Drop)]
pub struct Handler<J: Begun, L: Link> {
    pub taker: Taker<J, L>,
    pub kept: Kept<J>,
}

impl<J: Begun, L: Link> Model for Handler<J, L> {
    ghost use Rattle.std.specs.Prelude.{List};
    ghost use Rattle.cw_line.specs.declared.rule.Ticket.{Ticket};
    ghost use Rattle.cw_serve.specs.Talking.{AreTalks, entries_in};

    ghost Value = { List (Ticket L) };

    ghost view = { λ h. h.taker };

    ghost invariant = { λ h. AreTalks L.Link h.taker (entries_in h.kept.receipts.items) };
}

/// Serves links until all were accepted and none waits. It sleeps for a millisecond where none waits.
pub fn handle<
    J: Begun,
    D: Disk,
    U: Outlet,
    C,
    L: Link + Drop,
    R: Wait + std::rt::Clock,
    W: Wait + Drop,
>(
    rt: &R,
    alloc: Global,
    common: &Common<J, D, U, C, W>,
    line: &Line<L>,
    handler: Handler<J, L>,
) -> Handler<J, L>
    requires { name_of line.now ≡ J.table }
{
    let Handler {
        mut taker,
        mut kept,
    } = handler;
    for _ in rt.forever() {
        let ended = common.shared.lock(rt).has_ended();
        match taker.take(rt, line) {
            Some(ticket) => kept = serve_link(rt, alloc, common, ticket, kept),
            None => {
                if ended {
                    return Handler { taker, kept };
                }
                thread::sleep(rt, Duration::from_millis(1));
            }
        }
    }
    unreachable!()
}

/// Serves a link through the worker that its number picks: one connection, by whose entries the receipts grow.
pub fn serve_link<J: Begun, D: Disk, U: Outlet, C, L: Link + Drop, R: Wait, W: Wait + Drop>(
    rt: &R,
    alloc: Global,
    common: &Common<J, D, U, C, W>,
    ticket: Ticket<L>,
    kept: Kept<J>,
) -> Kept<J>
    ensures { Serves L.Link ticket (entries_in kept.receipts.items) (entries_in result.receipts.items) }
{
    let Ticket { number, mut link } = ticket;
    let mut desk = LockDesk {
        rt,
        alloc,
        lock: &common.shared,
        kept,
        worker: Asked::new((number % u64::from(common.workers)) as u32),
    };
    serve_conn(alloc, &mut link, &mut desk);
    let LockDesk {
        rt: _,
        alloc: _,
        lock: _,
        kept,
        worker: _,
    } = desk;
    kept
}
