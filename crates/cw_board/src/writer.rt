//! The one that puts.
ghost use Rattle.std.specs.Prelude.{◌≡◌, ◌⊎◌, ◌+◌, ◌^◌, ◌-◌, ◌<◌, ◌≤◌, None, [], ◌∷◌, ◌++◌, length, take, min, IsSome};
ghost use Rattle.std.specs.Prelude.{IfOk, IfErr, OnOk, OnErr, MatchResult, MatchOption};
ghost use Rattle.cw_board.specs.Records.{posted, configs_of, taken};
ghost use Rattle.cw_board.specs.Books.{head_of};
ghost use Rattle.cw_board.specs.Shelving.{IsOfBoard};
ghost use Rattle.cw_board.specs.Posting.{behind};
ghost use Rattle.cw_board.specs.Writing.{due};

use crate::history::{BoardNaming, Front, Head};
use crate::posted::Posted;
use crate::press::Press;
use crate::shelves::Post;
use cw_bytes::Applied;
use std::alloc::AllocError;
use std::marker::{Model, PhantomData};
use std::sync::Wait;
use thiserror::Error;

/// Want of memory. So many of the records that were handed in are taken over nevertheless: the next put that succeeds
/// publishes them, too, before its own.
#[derive(Clone, Copy, Debug, PartialEq, Eq, Drop, Error)]
#[error("out of memory, with {given} records taken over")]
pub struct Unpublished {
    pub given: u64,
}

/// A copy of what the writer knew to be published. Contracts see the records.
#[derive(Drop)]
pub struct Note<J: BoardNaming> {
    front: Front,
    of: PhantomData<J>,
}

impl<J: BoardNaming> Model for Note<J> {
    ghost use Rattle.std.specs.Prelude.{◌≡◌, List};
    ghost use Rattle.cw_board.specs.declared.posted.Posted.{Posted};

    ghost Value = { List Posted };

    ghost view = { λ note. note.front.log };

    ghost invariant = { λ note. note.front.book ≡ J.book };
}

impl<J: BoardNaming> Note<J> {
    // What it says.
    pub(crate) fn front(&self) -> &Front
        ensures { result.now ≡ record { book = J.book; log = self.now } }
    {
        &self.front
    }
}

/// The one that puts. Contracts see what is published, what was given, and the front.
#[derive(Drop)]
pub struct BoardWriter<J: BoardNaming, R: Wait + Drop> {
    press: Press<J, R>,
    head: Head,
    published: Front,
    given: Front,
    // For which there was no memory.
    held: Option<Post>,
    front: u64,
}

impl<J: BoardNaming, R: Wait + Drop> Model for BoardWriter<J, R> {
    ghost use Rattle.std.specs.Prelude.{◌≡◌};
    ghost use Rattle.cw_board.specs.Books.{head_of};
    ghost use Rattle.cw_board.specs.Sides.{Writing};
    ghost use Rattle.cw_board.specs.Writing.{IsWriting};

    ghost Value = { Writing };

    ghost view = { λ w. record { published = w.published.log; given = w.given.log; front = w.front } };

    ghost invariant = { λ w. (w.head ≡ head_of J.book)
        × IsWriting J.book J.workers w.press w.held w.published w.given };
}

// Has a post wait to be shown, or holds it back where there is no memory.
fn append_or_hold<J: BoardNaming, R: Wait + Drop>(
    press: &mut Press<J, R>,
    held: &mut Option<Post>,
    post: Post,
) -> Result<(), AllocError>
    requires { held.old ≡ None }
    ensures shown { press.new.shown ≡ press.old.shown }
    ensures due { due press.new held.new ≡ behind (due press.old None) post }
    ensures none { OnOk result (held.new ≡ None) }
{
    match press.append(post) {
        Ok(()) => Ok(()),
        Err(back) => {
            *held = Some(back);
            Err(AllocError)
        }
    }
}

// Has what was held back wait to be shown.
fn append_held<J: BoardNaming, R: Wait + Drop>(
    press: &mut Press<J, R>,
    held: &mut Option<Post>,
) -> Result<(), AllocError>
    ensures shown { press.new.shown ≡ press.old.shown }
    ensures due { due press.new held.new ≡ due press.old held.old }
    ensures none { OnOk result (held.new ≡ None) }
{
    match held.take() {
        Some(post) => append_or_hold(press, held, post),
        None => Ok(()),
    }
}

impl<J: BoardNaming, R: Wait + Drop> BoardWriter<J, R> {
    // Of a board on which nothing is published.
    pub(crate) fn new(press: Press<J, R>, head: Head, given: Front) -> BoardWriter<J, R>
        requires head { head ≡ head_of J.book }
        requires press { (press.shown.log ≡ []) × (press.waiting ≡ []) × IsOfBoard J.book J.workers press.shown }
        requires given { given ≡ record { book = J.book; log = [] } }
        ensures { result ≡ record { published = []; given = []; front = 0 } }
    {
        BoardWriter {
            press,
            head,
            published: given.again(),
            given,
            held: None,
            front: 0,
        }
    }

    /// Publishes records of a worker behind its other ones, and answers the front: how many puts published theirs so
    /// far. Without memory the board stays as it was, and the error tells how many of the records are taken over all
    /// the same: the next put that succeeds publishes them, too. It waits for the views that are out.
    pub fn put(&mut self, worker: u32, records: &Vec<Applied>) -> Result<u64, Unpublished>
        requires worker { worker < J.workers }
        requires takes { IsSome (taken (configs_of worker self.old.given) records.now.items) }
        ensures published { OnOk result (self.new.published ≡ self.old.given ++ posted worker records.now.items) }
        ensures all { OnOk result (self.new.given ≡ self.new.published) }
        ensures front { IfOk result (λ front. (front ≡ min (self.old.front + 1) (2 ^ 64 - 1))
            × (self.new.front ≡ front)) }
        ensures stays { OnErr result ((self.new.published ≡ self.old.published) × (self.new.front ≡ self.old.front)) }
        ensures partly { IfErr result (λ fault. (fault.given ≤ length records.now.items)
            × (self.new.given ≡ self.old.given ++ posted worker (take fault.given records.now.items))) }
    {
        self.post_all(worker, records.as_slice())?;
        if self.publish().is_err() {
            return Err(Unpublished {
                given: records.len() as u64,
            });
        }
        self.front = self.front.saturating_add(1);
        Ok(self.front)
    }

    /// What is published now.
    pub fn note(&self) -> Note<J>
        ensures { result ≡ self.now.published }
    {
        Note {
            front: self.published.again(),
            of: PhantomData,
        }
    }

    // Shows readers all that was given.
    fn publish(&mut self) -> Result<(), AllocError>
        ensures given { (self.new.given ≡ self.old.given) × (self.new.front ≡ self.old.front) }
        ensures published { MatchResult result (λ _. self.new.published ≡ self.old.given)
            (λ _. self.new.published ≡ self.old.published) }
    {
        append_held(&mut self.press, &mut self.held)?;
        self.press.publish()?;
        self.published = self.given.again();
        Ok(())
    }

    // Gives a record to be published.
    fn post(&mut self, worker: u32, applied: &Applied) -> Result<(), Unpublished>
        ensures stays { (self.new.published ≡ self.old.published) × (self.new.front ≡ self.old.front) }
        ensures given { MatchResult result (λ _. self.new.given ≡ self.old.given ++ posted worker (applied.now ∷ []))
            (λ fault. (fault.given ≤ 1)
            × (self.new.given ≡ self.old.given ++ posted worker (take fault.given (applied.now ∷ [])))) }
    {
        let Ok(()) = append_held(&mut self.press, &mut self.held) else {
            return Err(Unpublished { given: 0 });
        };
        let Ok(applied) = applied.copy() else {
            return Err(Unpublished { given: 0 });
        };
        let record = Posted { worker, applied };
        let Some(given) = self.given.with(&self.head, &record) else {
            return Err(Unpublished { given: 0 });
        };
        let post = Post {
            posted: record,
            front: given.again(),
        };
        self.given = given;
        match append_or_hold(&mut self.press, &mut self.held, post) {
            Ok(()) => Ok(()),
            Err(_) => Err(Unpublished { given: 1 }),
        }
    }

    // Gives records to be published.
    fn post_all(&mut self, worker: u32, records: &[Applied]) -> Result<(), Unpublished>
        ensures stays { (self.new.published ≡ self.old.published) × (self.new.front ≡ self.old.front) }
        ensures given { MatchResult result (λ _. self.new.given ≡ self.old.given ++ posted worker records.now)
            (λ fault. (fault.given ≤ length records.now)
            × (self.new.given ≡ self.old.given ++ posted worker (take fault.given records.now))) }
    {
        for index in 0..records.len() {
            if let Err(fault) = self.post(worker, &records[index]) {
                return Err(Unpublished {
                    given: index as u64 + fault.given,
                });
            }
        }
        Ok(())
    }
}
