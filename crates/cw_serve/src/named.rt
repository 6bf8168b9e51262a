//! A server under names that its caller picks.
ghost use Rattle.std.specs.Prelude.{◌≡◌, ◌+◌, ◌≤◌, ◌<◌, ℕ, [], None, true, replicate, vec_len, vec_capacity, IfOk};
ghost use Rattle.cw_model.specs.Lookups.{row_of};
ghost use Rattle.cw_turns.specs.Going.{Start, GoesOn};
ghost use Rattle.cw_line.specs.Sides.{IsFirstOf, beginning, name_of};
ghost use Rattle.cw_serve.specs.Starting.{AreServed};
ghost use Rattle.cw_serve.specs.Serving.{IsAgreed, IsServed};
ghost use Rattle.cw_serve.specs.Talking.{HaveTalked};

use crate::accepting::accept_beside;
use crate::beginning::{Ready, prepare};
use crate::common::Common;
use crate::crew::Crew;
use crate::ending::{end_line, finish};
use crate::ends::{ServeEnd, Served};
use crate::kept::Kept;
use crate::naming::Begun;
use crate::outlet::Poured;
use crate::shared::Shared;
use crate::sizes::Sizes;
use crossbeam_queue::Pass;
use cw_board::{BoardWriter, History, open_board};
use cw_disk::Disk;
use cw_feed::Feeds;
use cw_io::{Link, Outlet};
use cw_line::{Acceptor, Hand, Line, Ticket};
use cw_net::{Clock, Gate, Listener};
use cw_turns::begin;
use cw_world::World;
use std::alloc::{AllocError, Global};
use std::sync::ledger::{Blank, Share};
use std::sync::{Mutex, Wait};
use std::thread::Threads;

/// What a server is handed.
pub struct Given<D: Disk, U, N, C> {
    pub world: World<D>,
    pub feeds: Feeds,
    pub sizes: Sizes,
    pub outlet: U,
    pub net: N,
    pub clock: C,
}

/// What a server leaves that couldn't begin for want of memory.
#[tactic(auto, using(crate::proofs::Unbegun::none_are))]
pub fn unserved<D: Disk, U: Outlet, N: Listener>(
    alloc: Global,
    world: World<D>,
    outlet: U,
    net: N,
) -> Served<D, U, N>
    requires fresh { (world.state.journal ≡ []) × (world.state.closed ≡ None) }
    ensures world { result.world ≡ world }
    ensures served { (conns : ℕ) → IsServed U.Outlet N.Listener conns outlet net result }
    ensures talked { HaveTalked N.Listener N.Link.Link (IsAgreed result.end) net result.net result.receipts.items }
{
    Served {
        world,
        outlet,
        net,
        receipts: Vec::new(alloc),
        end: ServeEnd::Memory,
    }
}

/// Serves under the names of this ledger, this line, this board, and this start.
pub fn serve_named<J, R, D, U, N, C, G>(
    rt: &R,
    alloc: Global,
    given: Given<D, U, N, C>,
    gate: &G,
    blank: Blank,
    line: &Line<N::Link>,
    pass: Pass<Ticket<N::Link>, Hand<N::Link>>,
    history: History,
) -> Served<D, U, N>
where
    J: Begun + Send + Sync,
    D: Disk + Send,
    U: Outlet + Send,
    N: Listener,
    C: Clock + Send + Drop,
    G: Gate + Sync,
    R: Threads + Wait + std::rt::Clock + Sync,
    requires ledger { (blank.name ≡ J.name) × (blank.parts ≡ J.parts) × (J.parts ≡ given.sizes.handlers + 2) }
    requires line { (name_of line.now ≡ J.table) × IsFirstOf J.table pass }
    requires history { history.seen.book ≡ J.book }
    requires goes_on { GoesOn D.Disk J.start given.world }
    requires workers { (given.sizes.workers ≡ J.workers) × (given.world.state.rows ≡ []) }
    requires fresh { (given.world.state.journal ≡ []) × (given.world.state.closed ≡ None) }
    requires outlet { J.faults ≡ U.faults given.outlet }
    requires sizes { AreServed given.sizes }
    ensures goes_on { GoesOn D.Disk J.start result.world }
    ensures served { IsServed U.Outlet N.Listener given.sizes.conns given.outlet given.net result }
    ensures talked { HaveTalked N.Listener N.Link.Link (IsAgreed result.end) given.net result.net
        result.receipts.items }
{
    let (book, mut rest) = blank.open::<J>();
    let mut acceptor = Acceptor::<J, N::Link>::new(pass);
    let Given {
        world,
        feeds,
        sizes,
        outlet,
        net,
        clock,
    } = given;
    let mut world = world;
    let made = make_all(
        rt,
        alloc,
        &mut world,
        sizes,
        history,
        line,
        &mut acceptor,
        &mut rest,
    );
    let Ok((board, ready)) = made else {
        return unserved(alloc, world, outlet, net);
    };
    let Ready {
        crew,
        own,
        books,
        moments,
        given,
    } = ready;
    let common = Common {
        shared: Mutex::new(Shared::new(alloc, world, book, moments, board, given)),
        outlet: Mutex::new(Poured::new(outlet)),
        clock: Mutex::new(clock),
        feeds,
        workers: sizes.workers,
        runners: sizes.runners,
    };
    let staff = Staff {
        acceptor,
        rest,
        crew,
        own,
        books,
    };
    serve_all(rt, alloc, common, gate, line, staff, net, sizes.conns)
}

// The workers come, and all is made that takes memory before the first thread. Its only error is want of memory.
fn make_all<'a, J: Begun, D: Disk, L: Link, R: Wait>(
    rt: &'a R,
    alloc: Global,
    world: &mut World<D>,
    sizes: Sizes,
    history: History,
    line: &Line<L>,
    acceptor: &mut Acceptor<J, L>,
    rest: &mut Share<J>,
) -> Result<(BoardWriter<J, &'a R>, Ready<J, L>), AllocError>
    requires seat { name_of line.now ≡ J.table }
    requires history { history.seen.book ≡ J.book }
    requires workers { (sizes.workers ≡ J.workers) × (world.old.state.rows ≡ []) }
    requires alive { world.old.state.closed ≡ None }
    requires sizes { AreServed sizes }
    requires acceptor { acceptor.old ≡ beginning }
    requires share { (rest.old.parts ≡ sizes.handlers + 2) × (rest.old.amount ≡ 0) }
    ensures goes_on { (start : Start) → GoesOn D.Disk start world.old → GoesOn D.Disk start world.new }
    ensures fresh { (world.new.state.journal ≡ world.old.state.journal) × (world.new.state.closed ≡ None) }
    ensures live { IfOk result (λ _. (w : ℕ) → w < sizes.workers → (row_of w world.new.state).live ≡ true) }
    ensures board { IfOk result (λ made. made.0 ≡ record { published = []; given = []; front = 0 }) }
    ensures given { IfOk result (λ made. made.1.given.items ≡ replicate sizes.workers 0) }
    ensures crew { IfOk result (λ made. (vec_len made.1.crew.waiting ≡ sizes.handlers) ×
        (vec_len made.1.crew.done ≡ 0)) }
    ensures own { IfOk result (λ made. made.1.own.receipts.items ≡ []) }
    ensures books { IfOk result (λ made. (vec_len made.1.books ≡ 0) ×
        (sizes.handlers + 1 ≤ vec_capacity made.1.books)) }
    ensures acceptor { IfOk result (λ _. (acceptor.new.parts + sizes.handlers ≡ 1024) ×
        (acceptor.new.pushed ≡ [])) }
    ensures taken { IfOk result (λ _. acceptor.new.taken ≡ []) }
    ensures share { IfOk result (λ _. (rest.new.parts ≡ 1) × (rest.new.amount ≡ 0)) }
{
    let begun = begin(world, sizes.workers);
    let (board, boards) = open_board::<J, &R>(alloc, rt, history, sizes.workers, sizes.handlers)?;
    if begun.is_err() {
        return Err(AllocError);
    }
    let ready = prepare(
        alloc,
        line,
        acceptor,
        rest,
        boards,
        sizes.workers,
        sizes.handlers,
    )?;
    Ok((board, ready))
}

// What the calling thread has at hand as the threads begin.
struct Staff<J: Begun, L: Link> {
    acceptor: Acceptor<J, L>,
    rest: Share<J>,
    crew: Crew<J, L>,
    own: Kept<J>,
    books: Vec<Kept<J>>,
}

// Serves by threads, and gives all back behind them.
fn serve_all<J, R, D, U, N, C, G, W>(
    rt: &R,
    alloc: Global,
    common: Common<J, D, U, C, W>,
    gate: &G,
    line: &Line<N::Link>,
    staff: Staff<J, N::Link>,
    net: N,
    conns: u32,
) -> Served<D, U, N>
where
    J: Begun + Send + Sync,
    D: Disk + Send,
    U: Outlet + Send,
    N: Listener,
    C: Clock + Send + Drop,
    G: Gate + Sync,
    R: Threads + Wait + std::rt::Clock + Sync,
    W: Wait + Drop + Send,
    requires seat { name_of line.now ≡ J.table }
    requires parts { (staff.acceptor.parts + vec_len staff.crew.waiting ≡ 1024) × (vec_len staff.crew.done ≡ 0) }
    requires few { vec_len staff.crew.waiting ≤ 64 }
    requires books { (vec_len staff.books ≡ 0) × (vec_len staff.crew.waiting + 1 ≤ vec_capacity staff.books) }
    requires fresh { (staff.acceptor.pushed ≡ []) × (staff.acceptor.taken ≡ []) × (staff.own.receipts.items ≡ []) }
    requires share { (vec_len staff.crew.waiting + 2 ≡ J.parts) × (staff.rest.parts ≡ 1) ×
        (staff.rest.amount ≡ 0) }
    ensures goes_on { GoesOn D.Disk J.start result.world }
    ensures served { (began : U) → J.faults ≡ U.faults began →
        IsServed U.Outlet N.Listener conns began net result }
    ensures talked { HaveTalked N.Listener N.Link.Link (IsAgreed result.end) net result.net
        result.receipts.items }
{
    let Staff {
        mut acceptor,
        rest,
        mut crew,
        own,
        books,
    } = staff;
    let mut net = net;
    let accepted = accept_beside(
        rt,
        alloc,
        &common,
        gate,
        line,
        &mut acceptor,
        &mut crew,
        &mut net,
        conns,
    );
    let books = end_line(rt, alloc, &common, line, &mut acceptor, crew, own, books);
    finish(alloc, common, rest, books, net, accepted.failed)
}
