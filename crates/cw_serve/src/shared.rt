//! What lies under the lock.
ghost use Rattle.std.specs.Prelude.{◌≡◌, ◌<◌, ◌≤◌, ℕ, [], true, false, length, replicate, None, vec_len, vec_capacity};
ghost use Rattle.cw_model.specs.Lookups.{row_of};
ghost use Rattle.cw_turns.specs.Going.{GoesOn};
ghost use Rattle.cw_serve.specs.Sharing.{goes_on, first_stop, stopped_for, Publishes};

use crate::naming::Begun;
use crate::publishing::publish_read;
use cw_board::BoardWriter;
use cw_disk::Disk;
use cw_world::{Receipt, World};
use std::alloc::Global;
use std::marker::Model;
use std::sync::Wait;
use std::sync::ledger::Book;

/// What made a herder, a task runner or the cleaner stop all of them.
#[derive(Clone, Copy, Debug, PartialEq, Eq, Drop)]
pub enum Stop {
    Memory,
    OutletFault,
}

/// The world, the book that counts its journal, room for a receipt of each entry, when each worker ticked last, the
/// mark that all links were accepted, and the first stop; beside them the board's writer, how many records of the
/// config log were given to the board for each worker, and the mark that some of these aren't published yet. Clauses
/// see all of it but the book, the room and the board itself; the world goes on from where it began.
#[derive(Drop)]
pub struct Shared<J: Begun, D: Disk, W: Wait + Drop> {
    pub(crate) world: World<D>,
    pub(crate) book: Book<J>,
    pub(crate) room: Vec<Receipt>,
    pub(crate) moments: Vec<u64>,
    pub(crate) ended: bool,
    pub(crate) stop: Option<Stop>,
    pub(crate) board: BoardWriter<J, W>,
    pub(crate) given: Vec<u64>,
    pub(crate) lacks: bool,
}

impl<J: Begun, D: Disk, W: Wait + Drop> Model for Shared<J, D, W> {
    ghost use Rattle.std.specs.Prelude.{vec_len, vec_capacity};
    ghost use Rattle.cw_world.specs.World.{WorldState};
    ghost use Rattle.cw_serve.specs.Boarding.{IsBoarded};
    ghost use Rattle.cw_serve.specs.Sharing.{SharedState, IsShared, HasRoom};

    ghost Value = { SharedState D };

    ghost view = { λ s. record {
      world = s.world;
      ended = s.ended;
      stop = s.stop;
      moments = s.moments.items;
      given = s.given.items;
      lacks = s.lacks;
    } };

    ghost invariant = { λ s. IsShared D.Disk J.start J.workers s.book.total s.world ×
        HasRoom s.world.state (vec_len s.room) (vec_capacity s.room) ×
        IsBoarded J.workers s.board s.given.items s.lacks s.world.state };
}

/// What is left of it.
#[derive(Drop)]
pub struct Left<J: Begun, D: Disk> {
    pub world: World<D>,
    pub book: Book<J>,
    pub room: Vec<Receipt>,
    pub stop: Option<Stop>,
}

impl<J: Begun, D: Disk, W: Wait + Drop> Shared<J, D, W> {
    /// Before the threads.
    pub fn new(
        alloc: Global,
        world: World<D>,
        book: Book<J>,
        moments: Vec<u64>,
        board: BoardWriter<J, W>,
        given: Vec<u64>,
    ) -> Shared<J, D, W>
        requires goes_on { GoesOn D.Disk J.start world }
        requires live { (w : ℕ) → w < J.workers → (row_of w world.state).live ≡ true }
        requires journal { (world.state.journal ≡ []) × (book.total ≡ 0) }
        requires board { (board.published ≡ []) × (board.given ≡ []) }
        requires given { given.items ≡ replicate J.workers 0 }
        ensures world { result.world ≡ world }
        ensures goes_on { (result.ended ≡ false) × (result.stop ≡ None) }
        ensures moments { result.moments ≡ moments.items }
        ensures board { (result.given ≡ given.items) × (result.lacks ≡ false) }
    {
        Shared {
            world,
            book,
            room: Vec::new(alloc),
            moments,
            ended: false,
            stop: None,
            board,
            given,
            lacks: false,
        }
    }

    /// Whether herders, task runners and the cleaner go on: not all links were accepted, none of them stopped all, and
    /// no disk failed.
    pub fn goes_on(&self) -> bool
        ensures { result ≡ goes_on self.now }
    {
        !self.ended && self.stop.is_none() && self.world.cluster().closed().is_none()
    }

    /// Whether all links were accepted.
    pub fn has_ended(&self) -> bool
        ensures { result ≡ self.now.ended }
    {
        self.ended
    }

    /// All links were accepted.
    pub fn end(&mut self)
        ensures { self.new ≡ record self.old { ended = true } }
    {
        self.ended = true;
    }

    /// Stops herders, task runners and the cleaner. The first stop is kept.
    pub fn stop_for(&mut self, stop: Stop)
        ensures { self.new ≡ stopped_for stop self.old }
    {
        keep_first(&mut self.stop, stop);
    }

    /// Publishes what a worker has read of the config log, and what wasn't published before, as far as there is memory.
    /// It waits for the views that are out.
    pub fn publish(&mut self, alloc: Global, w: u32)
        ensures { Publishes J.workers w self.old self.new }
    {
        let Shared {
            world,
            book: _,
            room: _,
            moments: _,
            ended: _,
            stop: _,
            board,
            given,
            lacks,
        } = self;
        if (w as usize) < given.len() {
            *lacks = publish_read(alloc, world, board, given, *lacks, w);
        }
    }

    /// What is known of it behind the joins.
    pub fn into_left(self) -> Left<J, D>
        ensures world { result.world ≡ self.world }
        ensures stop { result.stop ≡ self.stop }
        ensures goes_on { GoesOn D.Disk J.start result.world }
        ensures counted { length result.world.state.journal ≡ result.book.total }
        ensures room { (vec_len result.room ≡ 0) × (result.book.total ≤ vec_capacity result.room) }
    {
        let Shared {
            world,
            book,
            room,
            moments: _,
            ended: _,
            stop,
            board,
            given: _,
            lacks: _,
        } = self;
        drop(board);
        Left {
            world,
            book,
            room,
            stop,
        }
    }
}

/// Keeps the first stop.
pub(crate) fn keep_first(first: &mut Option<Stop>, stop: Stop)
    ensures { first.new ≡ first_stop first.old stop }
{
    if first.is_none() {
        *first = Some(stop);
    }
}
