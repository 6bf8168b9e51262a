//! The calling thread: it accepts links beside all other threads.
ghost use Rattle.std.specs.Prelude.{◌≡◌, ◌+◌, ◌++◌, ◌≤◌, ◌⊎◌, [], length, true, false, vec_len};
ghost use Rattle.cw_types.specs.Faults.{Rose};
ghost use Rattle.cw_line.specs.Sides.{name_of, with_pushed};

use crate::common::Common;
use crate::crew::{Crew, work_all};
use crate::naming::Begun;
use cw_disk::Disk;
use cw_io::Outlet;
use cw_line::{Accepted, Acceptor, Line, accept_links};
use cw_net::{Clock, Gate, Listener};
use std::alloc::Global;
use std::sync::Wait;
use std::thread::{Threads, join_mut};

// Accepts links, and then marks that all were accepted.
fn accept<J: Begun, D: Disk, U: Outlet, C, N: Listener, R: Wait, W: Wait + Drop>(
    rt: &R,
    common: &Common<J, D, U, C, W>,
    line: &Line<N::Link>,
    acceptor: &mut Acceptor<J, N::Link>,
    net: &mut N,
    most: u32,
) -> Accepted
    requires seat { name_of line.now ≡ J.table }
    requires fresh { acceptor.old.pushed ≡ [] }
    ensures given { N.given net.new ≡ N.given net.old ++ acceptor.new.pushed }
    ensures pushed { acceptor.new ≡ with_pushed acceptor.new.pushed acceptor.old }
    ensures count { length acceptor.new.pushed ≡ result.pushed }
    ensures most { result.pushed ≤ most }
    ensures done { result.failed ≡ false → (result.pushed ≡ most) ⊎ (N.ended net.new ≡ true) }
    ensures failed { result.failed ≡ true → Rose (N.faults net.old) (N.faults net.new) }
    ensures later { N.faults net.old ≤ N.faults net.new }
{
    let accepted = accept_links(rt, line, acceptor, net, most);
    common.shared.lock(rt).end();
    accepted
}

/// Accepts links in this thread, while the crew and all other threads work. All are joined then.
pub fn accept_beside<'a, J, R, D, U, N, C, G, W>(
    rt: &'a R,
    alloc: Global,
    common: &'a Common<J, D, U, C, W>,
    gate: &'a G,
    line: &'a Line<N::Link>,
    acceptor: &'a mut Acceptor<J, N::Link>,
    crew: &'a mut Crew<J, N::Link>,
    net: &'a mut N,
    most: u32,
) -> Accepted
where
    J: Begun + Send + Sync,
    D: Disk + Send,
    U: Outlet + Send,
    N: Listener + 'a,
    N::Link: 'a,
    C: Clock + Send,
    G: Gate + Sync,
    R: Threads + Wait + std::rt::Clock + Sync,
    W: Wait + Drop + Send,
    requires seat { name_of line.now ≡ J.table }
    requires fresh { acceptor.old.pushed ≡ [] }
    ensures given { N.given net.new ≡ N.given net.old ++ acceptor.new.pushed }
    ensures pushed { acceptor.new ≡ with_pushed acceptor.new.pushed acceptor.old }
    ensures count { length acceptor.new.pushed ≡ result.pushed }
    ensures most { result.pushed ≤ most }
    ensures done { result.failed ≡ false → (result.pushed ≡ most) ⊎ (N.ended net.new ≡ true) }
    ensures failed { result.failed ≡ true → Rose (N.faults net.old) (N.faults net.new) }
    ensures later { N.faults net.old ≤ N.faults net.new }
    ensures crew { vec_len crew.new.done ≡ vec_len crew.old.waiting + vec_len crew.old.done }
{
    let mut work = || -> ()
        requires { name_of line.now ≡ J.table }
        ensures { vec_len crew.exit.now.done ≡ vec_len crew.entry.now.waiting + vec_len crew.entry.now.done }
    { work_all(rt, alloc, common, gate, line, crew) };
    let mut accept = || -> Accepted
        requires { (name_of line.now ≡ J.table) × (acceptor.now.pushed ≡ []) }
        ensures { (N.given net.exit.now ≡ N.given net.entry.now ++ acceptor.exit.now.pushed)
            × (acceptor.exit.now ≡ with_pushed acceptor.exit.now.pushed acceptor.entry.now)
            × (length acceptor.exit.now.pushed ≡ result.pushed)
            × (result.pushed ≤ most)
            × (result.failed ≡ false → (result.pushed ≡ most) ⊎ (N.ended net.exit.now ≡ true))
            × (result.failed ≡ true → Rose (N.faults net.entry.now) (N.faults net.exit.now))
            × (N.faults net.entry.now ≤ N.faults net.exit.now) }
    { accept(rt, common, line, acceptor, net, most) };
    join_mut(rt, &mut work, &mut accept).1
}
