//! The writer of the two copies, with the handle by which it waits for readers, and the rule of what is published.
ghost use Rattle.std.specs.Prelude.{◌≡◌, ◌<◌, ◌≤◌, [], ◌∷◌, ◌++◌, Some, IfOk, MatchResult};
ghost use Rattle.cw_board.specs.Shelving.{IsOfBoard};
ghost use Rattle.cw_board.specs.Writing.{last_of};

use crate::history::BoardNaming;
use crate::shelves::{Post, Shelves};
use crossbeam_utils::rule::{Outcome, Protocol};
use left_right::reader::{Reader, Reading};
use left_right::writer::Writer;
use std::alloc::{AllocError, Global};
use std::marker::{Model, PhantomData};
use std::mem;
use std::sync::Wait;

/// The rule that all that is published is of one board, and what a look is told of it.
pub struct OfBoard<J: BoardNaming> {
    of: PhantomData<J>,
}

impl<J: BoardNaming> Protocol<Shelves, ()> for OfBoard<J> {
    ghost use Rattle.cw_board.specs.Shelving.{IsOfBoard};

    ghost holds = { λ shelves views. IsOfBoard J.book J.workers shelves };

    ghost first = { tt };
}

impl<J: BoardNaming> Outcome<Shelves, ()> for OfBoard<J> {
    ghost use Rattle.cw_board.specs.Shelving.{IsOfBoard};

    ghost then = { λ v x y w. IsOfBoard J.book J.workers y };
}

/// A reader that isn't looking.
pub type ShelvesReader<J> = Reader<Shelves, (), OfBoard<J>>;

/// A reader that looks.
pub type ShelvesReading<J> = Reading<Shelves, (), OfBoard<J>>;

type ShelvesWriter<J> = Writer<Shelves, Post, (), OfBoard<J>>;

/// The writer. Contracts see what readers see, and what waits to be shown to them.
pub struct Press<J: BoardNaming, R: Wait + Drop> {
    // At home but while it publishes.
    home: Option<ShelvesWriter<J>>,
    rt: R,
}

impl<J: BoardNaming, R: Wait + Drop> Model for Press<J, R> {
    ghost use Rattle.cw_board.specs.Pressing.{Pressed, shown_in, waiting_in};

    ghost Value = { Pressed };

    ghost view = { λ p. record { shown = shown_in p.home; waiting = waiting_in p.home } };
}

impl<J: BoardNaming, R: Wait + Drop> Drop for Press<J, R> {
    fn drop(self) {
        let Self { home, rt } = self;
        if let Some(writer) = home {
            writer.take(&rt);
        }
    }
}

impl<J: BoardNaming, R: Wait + Drop> Press<J, R> {
    /// Shows the first of two copies that are alike, to so many readers.
    pub fn new(
        alloc: Global,
        rt: R,
        first: Shelves,
        second: Shelves,
        readers: u32,
    ) -> Result<Press<J, R>, AllocError>
        requires readers { (0 < readers) × (readers ≤ 64) }
        requires alike { first ≡ second }
        requires board { IsOfBoard J.book J.workers first }
        ensures { IfOk result (λ press. press ≡ record { shown = first; waiting = [] }) }
    {
        let writer = Writer::new(alloc, first, second, readers as usize)?;
        Ok(Press {
            home: Some(writer),
            rt,
        })
    }

    /// A reader.
    pub fn reader(&self) -> Result<ShelvesReader<J>, AllocError> {
        match &self.home {
            Some(writer) => writer.factory().reader(),
            None => Err(AllocError),
        }
    }

    /// Has a post wait to be shown. It comes back where there is no memory.
    pub fn append(&mut self, post: Post) -> Result<(), Post>
        ensures shown { self.new.shown ≡ self.old.shown }
        ensures waiting { MatchResult result (λ _. self.new.waiting ≡ self.old.waiting ++ post ∷ [])
            (λ back. (back ≡ post) × (self.new.waiting ≡ self.old.waiting)) }
    {
        match &mut self.home {
            Some(writer) => writer.append(post),
            None => Err(post),
        }
    }

    /// Shows all that waits. At `Err` readers see what they saw.
    pub fn publish(&mut self) -> Result<(), AllocError>
        requires { IsOfBoard J.book J.workers (last_of self.old.shown self.old.waiting) }
        ensures { MatchResult result
            (λ _. self.new ≡ record { shown = last_of self.old.shown self.old.waiting; waiting = [] })
            (λ _. self.new ≡ self.old) }
    {
        let Some(writer) = self.home.take() else {
            return Err(AllocError);
        };
        let (writer, done) = writer.publish_as::<OfBoard<J>, R>(&self.rt);
        come_home(&self.rt, &mut self.home, writer);
        done
    }
}

// A writer is ended and never dropped, so what stood at home is ended.
fn come_home<J: BoardNaming, R: Wait>(
    rt: &R,
    home: &mut Option<ShelvesWriter<J>>,
    writer: ShelvesWriter<J>,
)
    ensures { home.new ≡ Some writer }
{
    if let Some(old) = mem::replace(home, Some(writer)) {
        old.take(rt);
    }
}
