//! What is done behind the joins.
ghost use Rattle.std.specs.Prelude.{◌≡◌, ◌+◌, ◌<◌, ◌≤◌, ℕ, true, false, List, [], ◌++◌, length, None, Some, All};
ghost use Rattle.std.specs.Prelude.{IfOk, IfErr, vec_len, vec_capacity};
ghost use Rattle.std.specs.List.{flat_map};
ghost use Rattle.std.specs.List.Sorted.{IsPermutation};
ghost use Rattle.cw_types.specs.declared.logs.DiskName.{DiskName};
ghost use Rattle.cw_line.specs.Numbers.{IsEachOnce};
ghost use Rattle.cw_line.specs.Sides.{name_of};
ghost use Rattle.cw_types.specs.Faults.{Rose};
ghost use Rattle.cw_desk.specs.declared.comparing.Disagree.{Disagree};
ghost use Rattle.cw_desk.specs.Comparing.{AreTheJournal};
ghost use Rattle.cw_model.specs.declared.journal.JournalEntry.{JournalEntry};
ghost use Rattle.cw_turns.specs.Going.{GoesOn};
ghost use Rattle.cw_world.specs.Receipts.{ReceiptState};
ghost use Rattle.cw_serve.specs.Serving.{IsAgreed, Differs, end_of};
ghost use Rattle.cw_serve.specs.Talking.{AreTalks, entries_in};

use crate::common::Common;
use crate::crew::Crew;
use crate::ends::{ServeEnd, Served};
use crate::handling::{Handler, serve_link};
use crate::kept::Kept;
use crate::naming::Begun;
use crate::shared::{Left, Stop};
use cw_desk::{Disagree, compare};
use cw_disk::Disk;
use cw_io::{Link, Outlet};
use cw_line::{Acceptor, Line};
use cw_types::DiskName;
use cw_world::{Receipt, World};
use std::alloc::Global;
use std::sync::Wait;
use std::sync::ledger::{Book, Share};

/// What is known once the receipts were compared: the world, the receipts in the order of the journal or what shows
/// that they aren't it, and the first stop.
#[derive(Drop)]
pub struct Told<D: Disk> {
    pub world: World<D>,
    pub receipts: Result<Vec<Receipt>, Disagree>,
    pub stop: Option<Stop>,
}

/// Takes in the handlers' sides of the line, and puts what they kept into a list that has room for it.
pub fn absorb_all<J: Begun, L: Link>(
    line: &Line<L>,
    acceptor: &mut Acceptor<J, L>,
    mut done: Vec<Handler<J, L>>,
    books: &mut Vec<Kept<J>>,
)
    requires seat { name_of line.now ≡ J.table }
    requires parts { 0 < acceptor.old.parts }
    requires room { vec_len books.old + vec_len done < vec_capacity books.old }
    ensures parts { acceptor.new.parts ≡ acceptor.old.parts + vec_len done }
    ensures pushed { acceptor.new.pushed ≡ acceptor.old.pushed }
    ensures books { vec_len books.new ≡ vec_len books.old + vec_len done }
    ensures room { vec_len books.new < vec_capacity books.new }
    ensures talks { AreTalks L.Link acceptor.old.taken (entries_in (flat_map (λ k. k.receipts.items) books.old.items)) →
        AreTalks L.Link acceptor.new.taken (entries_in (flat_map (λ k. k.receipts.items) books.new.items)) }
{
    while let Some(handler) = done.pop() {
        let Handler { taker, kept } = handler;
        acceptor.absorb(line, taker);
        books.push_reserved(kept);
    }
}

/// Serves the links that no handler took, each in one connection. Then each link that was pushed was taken once.
pub fn serve_left<J: Begun, D: Disk, U: Outlet, C, L: Link + Drop, R: Wait, W: Wait + Drop>(
    rt: &R,
    alloc: Global,
    common: &Common<J, D, U, C, W>,
    line: &Line<L>,
    acceptor: &mut Acceptor<J, L>,
    own: Kept<J>,
) -> Kept<J>
    requires seat { name_of line.now ≡ J.table }
    requires whole { acceptor.old.parts ≡ 1024 }
    ensures pushed { acceptor.new.pushed ≡ acceptor.old.pushed }
    ensures each_once { IsEachOnce acceptor.new.pushed acceptor.new.taken }
    ensures talks { (others : List JournalEntry) →
        AreTalks L.Link acceptor.old.taken (others ++ entries_in own.receipts.items) →
        AreTalks L.Link acceptor.new.taken (others ++ entries_in result.receipts.items) }
{
    let mut own = own;
    for _ in rt.forever() {
        match acceptor.take_left(rt, line) {
            Some(ticket) => own = serve_link(rt, alloc, common, ticket, own),
            None => return own,
        }
    }
    unreachable!()
}

/// Gathers the receipts that were kept, which are as many as the journal has entries, and compares them with it.
pub fn gather<J: Begun, D: Disk>(
    left: Left<J, D>,
    mut rest: Share<J>,
    mut books: Vec<Kept<J>>,
) -> Told<D>
    requires counted { length left.world.state.journal ≡ left.book.total }
    requires room { (vec_len left.room ≡ 0) × (left.book.total ≤ vec_capacity left.room) }
    requires parts { (rest.parts + vec_len books ≡ J.parts) × (rest.amount ≡ 0) }
    requires name { left.world.name ≡ J.start.name }
    ensures world { result.world ≡ left.world }
    ensures same { IfOk result.receipts (λ receipts.
        IsPermutation (flat_map (λ k. k.receipts.items) books.items) receipts.items) }
    ensures ledger { IfOk result.receipts (λ receipts. AreTheJournal result.world.state.journal receipts.items) }
    ensures differs { IfErr result.receipts (λ d. Differs result.world d) }
    ensures stop { result.stop ≡ left.stop }
{
    let Left {
        world,
        mut book,
        mut room,
        stop,
    } = left;
    while let Some(kept) = books.pop() {
        take_in(&mut book, &mut rest, &mut room, kept);
    }
    book.audit(&mut rest);
    let receipts = compared(&world, room);
    Told {
        world,
        receipts,
        stop,
    }
}

// Puts the receipts that were kept behind those in the room, which has room for as many as the book's total.
fn take_in<J: Begun>(
    book: &mut Book<J>,
    rest: &mut Share<J>,
    room: &mut Vec<Receipt>,
    kept: Kept<J>,
)
    requires count { rest.old.amount ≡ vec_len room.old }
    requires room { book.old.total ≤ vec_capacity room.old }
    requires named { All (λ r. r.name ≡ J.start.name) room.old.items }
    ensures book { book.new.total ≡ book.old.total }
    ensures rest { (rest.new.amount ≡ vec_len room.new) × (rest.new.parts ≡ rest.old.parts + 1) }
    ensures room { vec_capacity room.old ≤ vec_capacity room.new }
    ensures behind { room.new.items ≡ room.old.items ++ kept.receipts.items }
    ensures named { All (λ r. r.name ≡ J.start.name) room.new.items }
{
    let Kept {
        mut receipts,
        share,
        board: _,
        least: _,
    } = kept;
    rest.merge(share);
    book.audit(rest);
    let Ok(()) = room.append(&mut receipts) else {
        unreachable!()
    };
}

// The receipts beside the journal.
#[tactic(auto, using(crate::proofs::Disagreeing::differs))]
fn compared<D: Disk>(world: &World<D>, receipts: Vec<Receipt>) -> Result<Vec<Receipt>, Disagree>
    requires count { vec_len receipts ≡ length world.now.state.journal }
    requires named { All (λ r. r.name ≡ world.now.name) receipts.items }
    ensures same { IfOk result (λ ordered. IsPermutation receipts.items ordered.items) }
    ensures ledger { IfOk result (λ ordered. AreTheJournal world.now.state.journal ordered.items) }
    ensures differs { IfErr result (λ d. Differs world.now d) }
{
    compare(world.cluster().journaled(), receipts)
}

/// Ends the line: each link that was pushed is then taken once, and served in one connection. It gives what all
/// handlers and this thread kept.
pub fn end_line<J: Begun, D: Disk, U: Outlet, C, L: Link + Drop, R: Wait, W: Wait + Drop>(
    rt: &R,
    alloc: Global,
    common: &Common<J, D, U, C, W>,
    line: &Line<L>,
    acceptor: &mut Acceptor<J, L>,
    crew: Crew<J, L>,
    own: Kept<J>,
    books: Vec<Kept<J>>,
) -> Vec<Kept<J>>
    requires seat { name_of line.now ≡ J.table }
    requires parts { (0 < acceptor.old.parts) × (acceptor.old.parts + vec_len crew.done ≡ 1024) }
    requires room { (vec_len books ≡ 0) × (vec_len crew.done < vec_capacity books) }
    requires fresh { (acceptor.old.taken ≡ []) × (own.receipts.items ≡ []) }
    ensures all { vec_len result ≡ vec_len crew.done + 1 }
    ensures each_once { IsEachOnce acceptor.old.pushed acceptor.new.taken }
    ensures talks { AreTalks L.Link acceptor.new.taken (entries_in (flat_map (λ k. k.receipts.items) result.items)) }
{
    let Crew { waiting: _, done } = crew;
    let mut books = books;
    absorb_all(line, acceptor, done, &mut books);
    let own = serve_left(rt, alloc, common, line, acceptor, own);
    books.push_reserved(own);
    books
}

/// Gives all back, and says why the server ended.
pub fn finish<J: Begun, D: Disk, U: Outlet, C: Drop, N, W: Wait + Drop>(
    alloc: Global,
    common: Common<J, D, U, C, W>,
    rest: Share<J>,
    books: Vec<Kept<J>>,
    net: N,
    failed: bool,
) -> Served<D, U, N>
    requires parts { (rest.parts + vec_len books ≡ J.parts) × (rest.amount ≡ 0) }
    ensures goes_on { GoesOn D.Disk J.start result.world }
    ensures same { IsAgreed result.end →
        IsPermutation (flat_map (λ k. k.receipts.items) books.items) result.receipts.items }
    ensures ledger { IsAgreed result.end → AreTheJournal result.world.state.journal result.receipts.items }
    ensures differs { (d : Disagree) → result.end ≡ ServeEnd.Disagree d → Differs result.world d }
    ensures done { result.end ≡ ServeEnd.Done → (result.world.state.closed ≡ None) × (failed ≡ false) }
    ensures store { (disk : DiskName) (count : ℕ) → result.end ≡ ServeEnd.StoreFault disk count →
        result.world.state.closed ≡ Some (disk, count) }
    ensures closed { (disk : DiskName) (count : ℕ) → result.world.state.closed ≡ Some (disk, count) →
        IsAgreed result.end → result.end ≡ ServeEnd.StoreFault disk count }
    ensures outlet_fault { result.end ≡ ServeEnd.OutletFault → Rose J.faults (U.faults result.outlet) }
    ensures net_fault { result.end ≡ ServeEnd.NetFault → failed ≡ true }
    ensures later { J.faults ≤ U.faults result.outlet }
    ensures net { result.net ≡ net }
{
    let Common {
        shared,
        outlet,
        clock,
        feeds,
        workers: _,
        runners: _,
    } = common;
    drop(clock);
    drop(feeds);
    let (outlet, rose) = outlet.into_inner().into_parts();
    let told = gather(shared.into_inner().into_left(), rest, books);
    conclude(alloc, told, outlet, net, rose, failed)
}

// What the server leaves.
fn conclude<D: Disk, U, N>(
    alloc: Global,
    told: Told<D>,
    outlet: U,
    net: N,
    rose: bool,
    failed: bool,
) -> Served<D, U, N>
    requires ledger { IfOk told.receipts (λ receipts. AreTheJournal told.world.state.journal receipts.items) }
    requires differs { IfErr told.receipts (λ d. Differs told.world d) }
    ensures handed { (result.world ≡ told.world) × (result.outlet ≡ outlet) × (result.net ≡ net) }
    ensures same { (kept : List ReceiptState) → IfOk told.receipts (λ receipts. IsPermutation kept receipts.items) →
        IsAgreed result.end → IsPermutation kept result.receipts.items }
    ensures ledger { IsAgreed result.end → AreTheJournal result.world.state.journal result.receipts.items }
    ensures differs { (d : Disagree) → result.end ≡ ServeEnd.Disagree d → Differs result.world d }
    ensures done { result.end ≡ ServeEnd.Done → (result.world.state.closed ≡ None) × (failed ≡ false) }
    ensures store { (disk : DiskName) (count : ℕ) → result.end ≡ ServeEnd.StoreFault disk count →
        result.world.state.closed ≡ Some (disk, count) }
    ensures closed { (disk : DiskName) (count : ℕ) → result.world.state.closed ≡ Some (disk, count) →
        IsAgreed result.end → result.end ≡ ServeEnd.StoreFault disk count }
    ensures outlet_fault { result.end ≡ ServeEnd.OutletFault → rose ≡ true }
    ensures net_fault { result.end ≡ ServeEnd.NetFault → failed ≡ true }
    ensures agreed { IsAgreed result.end → result.end ≡ end_of told.world.state.closed told.stop rose failed }
{
    let Told {
        world,
        receipts,
        stop,
    } = told;
    match receipts {
        Ok(receipts) => {
            let end = end_of(world.cluster().closed(), stop, rose, failed);
            Served {
                world,
                outlet,
                net,
                receipts,
                end,
            }
        }
        Err(disagree) => Served {
            world,
            outlet,
            net,
            receipts: Vec::new(alloc),
            end: ServeEnd::Disagree(disagree),
        },
    }
}

/// Why a server ended whose receipts are its journal: a failed disk, else the first stop, else a failed listener. That
/// the outlet failed is answered only where its count of faults rose.
pub fn end_of(
    closed: Option<(DiskName, u64)>,
    stop: Option<Stop>,
    rose: bool,
    failed: bool,
) -> ServeEnd
    ensures is { result ≡ end_of closed stop rose failed }
    ensures agreed { IsAgreed result }
    ensures done { result ≡ ServeEnd.Done → (closed ≡ None) × (failed ≡ false) }
    ensures store { (disk : DiskName) (count : ℕ) → result ≡ ServeEnd.StoreFault disk count →
        closed ≡ Some (disk, count) }
    ensures closed { (disk : DiskName) (count : ℕ) → closed ≡ Some (disk, count) →
        result ≡ ServeEnd.StoreFault disk count }
    ensures outlet { result ≡ ServeEnd.OutletFault → rose ≡ true }
    ensures net { result ≡ ServeEnd.NetFault → failed ≡ true }
{
    if let Some((disk, count)) = closed {
        return ServeEnd::StoreFault { disk, count };
    }
    match stop {
        Some(Stop::OutletFault) if rose => ServeEnd::OutletFault,
        Some(_) => ServeEnd::Memory,
        None if failed => ServeEnd::NetFault,
        None => ServeEnd::Done,
    }
}
