//! The turn of a connection handler under the lock: a call is answered and journaled, and its receipt kept.
ghost use Rattle.std.specs.Prelude.{◌≡◌, ◌<◌, ◌≤◌, ◌+◌, ◌++◌, [], ◌∷◌, true, length, IsTrue, IfSome, IfOk, OnOk};
ghost use Rattle.std.specs.Prelude.{◌⊎◌, OnErr, IfErr, Result, Ok, Err, vec_len, vec_capacity};
ghost use Rattle.std.specs.declared.alloc.AllocError.{AllocError};
ghost use Rattle.cw_board.specs.Records.{IsFirstPart};
ghost use Rattle.cw_model.specs.Journal.{IsTrueEntry};
ghost use Rattle.cw_world.specs.Receipts.{ReceiptState};
ghost use Rattle.cw_desk.specs.Turns.{IsTurn, Keeps};
ghost use Rattle.cw_serve.specs.Answering.{IsKeptBy};
ghost use Rattle.cw_serve.specs.Boarding.{IsReadFrom, IsStanding, entry_seen, known_of};
ghost use Rattle.cw_serve.specs.Sharing.{Publishes};

use crate::kept::Kept;
use crate::naming::Begun;
use crate::publishing::read_of;
use crate::seeing::{Seen, entry_seen, glance, look_again};
use crate::shared::Shared;
use cw_board::{Board, BoardWriter};
use cw_disk::Disk;
use cw_model::JournalEntry;
use cw_route::Call;
use cw_world::Receipt;
use std::alloc::{AllocError, Global};
use std::sync::{Mutex, Wait};

impl<J: Begun, D: Disk, W: Wait + Drop> Shared<J, D, W> {
    /// A call through a worker is answered, journaled, and its receipt kept. Room is made first, so that nothing is
    /// journaled without a receipt. What the worker has read of the config log is published then, and the handler's
    /// reader is told of it. The only error is want of memory: nothing is journaled then, but the call may have been
    /// done.
    pub fn answer(
        &mut self,
        alloc: Global,
        kept: &mut Kept<J>,
        w: u32,
        call: Call,
    ) -> Result<(), AllocError>
        requires { w < J.workers }
        ensures done { IfOk result (λ _. (r : ReceiptState) ×
            IsKeptBy w call r kept.old.receipts.items kept.new.receipts.items ×
            IsTurn D.Disk w call self.old.world self.new.world (Ok r) ×
            (self.new.world.state.journal ≡ self.old.world.state.journal ++ r.entry ∷ [])) }
        ensures err { OnErr result ((kept.new.receipts.items ≡ kept.old.receipts.items) ×
            (self.new.world.state.journal ≡ self.old.world.state.journal)) }
        ensures wants { IfErr result (λ wanting. (self.new.world ≡ self.old.world) ⊎
            IsTurn D.Disk w call self.old.world self.new.world (Err wanting)) }
        ensures published { Publishes J.workers w (record self.old { world = self.new.world }) self.new }
    {
        let done = self.take(alloc, kept, w, call);
        self.publish(alloc, w);
        tell(&self.board, &mut kept.board);
        done
    }

    // The same, before what the worker has read is published.
    fn take(
        &mut self,
        alloc: Global,
        kept: &mut Kept<J>,
        w: u32,
        call: Call,
    ) -> Result<(), AllocError>
        requires { w < J.workers }
        ensures done { IfOk result (λ _. (r : ReceiptState) ×
            IsKeptBy w call r kept.old.receipts.items kept.new.receipts.items ×
            IsTurn D.Disk w call self.old.world self.new.world (Ok r) ×
            (self.new.world.state.journal ≡ self.old.world.state.journal ++ r.entry ∷ [])) }
        ensures err { OnErr result ((kept.new.receipts.items ≡ kept.old.receipts.items) ×
            (self.new.world.state.journal ≡ self.old.world.state.journal)) }
        ensures wants { IfErr result (λ wanting. (self.new.world ≡ self.old.world) ⊎
            IsTurn D.Disk w call self.old.world self.new.world (Err wanting)) }
        ensures rest { self.new ≡ record self.old { world = self.new.world } }
    {
        let Shared {
            world,
            book,
            room,
            moments: _,
            ended: _,
            stop: _,
            board: _,
            given: _,
            lacks: _,
        } = self;
        let Kept {
            receipts,
            share,
            board: _,
            least,
        } = kept;
        make_room(receipts, room, world.cluster().journaled().len() + 1)?;
        let receipt = cw_turns::answer(alloc, world, w, call)?;
        world.is_safe();
        *least = read_of(world, w).max(*least);
        receipts.push_reserved(receipt);
        book.add(share, 1);
        Ok(())
    }

    /// The same of a call that was answered from a view of the board: its entry is journaled where what the handler's
    /// reader saw of the worker stands in the config log as far as that was published; else the call is answered here.
    pub fn answer_seen(
        &mut self,
        alloc: Global,
        kept: &mut Kept<J>,
        w: u32,
        call: Call,
        seen: Seen,
    ) -> Result<(), AllocError>
        requires worker { w < J.workers }
        requires seen { IsReadFrom (known_of w kept.old.board) call seen }
        requires least { kept.old.least ≤ seen.prefix }
        ensures done { IfOk result (λ _. (r : ReceiptState) ×
            IsKeptBy w call r kept.old.receipts.items kept.new.receipts.items ×
            (self.new.world.state.journal ≡ self.old.world.state.journal ++ r.entry ∷ [])) }
        ensures err { OnErr result ((kept.new.receipts.items ≡ kept.old.receipts.items) ×
            (self.new.world.state.journal ≡ self.old.world.state.journal)) }
        ensures turn { (answer : Result ReceiptState AllocError) × (
            IsTurn D.Disk w call self.old.world self.new.world answer ⊎
            Keeps (entry_seen w call seen) self.old.world self.new.world answer) }
        ensures goes_on { (self.new.ended ≡ self.old.ended) × (self.new.stop ≡ self.old.stop) }
    {
        if self.stands(&mut kept.board, w, seen.prefix) {
            self.keep_seen(kept, entry_seen(w, call, seen))
        } else {
            self.answer(alloc, kept, w, call)
        }
    }

    // Whether so many records of a worker, which a reader saw, were published by this board's writer, where nothing
    // that was given to it is unpublished. The reader is told of what is published first, and looks once more.
    fn stands(&self, reader: &mut Option<Board<J>>, w: u32, prefix: u64) -> bool
        requires worker { w < J.workers }
        requires prefix { prefix ≡ length (known_of w reader.old) }
        ensures { IsTrue result → IsStanding (known_of w reader.old) w self.now.world.state }
    {
        if self.lacks {
            return false;
        }
        let Some(board) = reader.take() else {
            return false;
        };
        let (board, shown) = look_again(board, self.board.note(), w);
        *reader = Some(board);
        shown.is_some() && prefix <= self.given[w as usize]
    }

    // An entry that is true and goes on behind the handler's other ones is journaled, and its receipt kept.
    fn keep_seen(&mut self, kept: &mut Kept<J>, entry: JournalEntry) -> Result<(), AllocError>
        requires board { entry.board ≡ true }
        requires holds { IsTrueEntry self.old.world.setting self.old.world.state self.old.world.state.journal entry }
        requires least { kept.old.least ≤ entry.prefix }
        ensures done { IfOk result (λ _. (r : ReceiptState) ×
            IsKeptBy entry.worker entry.call r kept.old.receipts.items kept.new.receipts.items ×
            (self.new.world.state.journal ≡ self.old.world.state.journal ++ r.entry ∷ [])) }
        ensures err { OnErr result ((kept.new.receipts.items ≡ kept.old.receipts.items) ×
            (self.new.world.state.journal ≡ self.old.world.state.journal)) }
        ensures keeps { (answer : Result ReceiptState AllocError) ×
            Keeps entry self.old.world self.new.world answer }
        ensures rest { self.new ≡ record self.old { world = self.new.world } }
    {
        let Shared {
            world,
            book,
            room,
            moments: _,
            ended: _,
            stop: _,
            board: _,
            given: _,
            lacks: _,
        } = self;
        let Kept {
            receipts,
            share,
            board: _,
            least,
        } = kept;
        make_room(receipts, room, world.cluster().journaled().len() + 1)?;
        let prefix = entry.prefix;
        let noted = cw_turns::keep_seen(world, entry)?;
        *least = prefix;
        receipts.push_reserved(noted);
        book.add(share, 1);
        Ok(())
    }
}

// Room for one receipt more of a handler, and for so many among those of all.
fn make_room(
    receipts: &mut Vec<Receipt>,
    room: &mut Vec<Receipt>,
    count: usize,
) -> Result<(), AllocError>
    ensures receipts { receipts.new.items ≡ receipts.old.items }
    ensures one { OnOk result (vec_len receipts.new < vec_capacity receipts.new) }
    ensures same { vec_len room.new ≡ vec_len room.old }
    ensures kept { vec_capacity room.old ≤ vec_capacity room.new }
    ensures room { OnOk result (vec_len room.old + count ≤ vec_capacity room.new) }
{
    receipts.reserve(1)?;
    room.reserve(count)
}

// Tells a reader, where there is one, of what is published.
fn tell<J: Begun, W: Wait + Drop>(board: &BoardWriter<J, W>, reader: &mut Option<Board<J>>)
    ensures { IfSome reader.new (λ known. IsFirstPart board.now.published known) }
{
    if let Some(reader) = reader {
        reader.tell(board.note());
    }
}

/// A call through a worker is answered by any thread: from the board, or else under the lock alone. Of the world no
/// clause can speak here, but of what the caller keeps.
pub fn answer<J: Begun, D: Disk, W: Wait + Drop>(
    rt: &impl Wait,
    alloc: Global,
    lock: &Mutex<Shared<J, D, W>>,
    kept: &mut Kept<J>,
    w: u32,
    call: Call,
) -> Result<(), AllocError>
    requires { w < J.workers }
    ensures done { IfOk result (λ _. (r : ReceiptState) ×
        IsKeptBy w call r kept.old.receipts.items kept.new.receipts.items) }
    ensures err { OnErr result (kept.new.receipts.items ≡ kept.old.receipts.items) }
{
    match glance(alloc, &mut kept.board, kept.least, w, &call) {
        Some(seen) => lock.lock(rt).answer_seen(alloc, kept, w, call, seen),
        None => lock.lock(rt).answer(alloc, kept, w, call),
    }
}
