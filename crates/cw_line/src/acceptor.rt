//! The accepting side of a line.
ghost use Rattle.std.specs.Prelude.{◌≡◌, ◌<◌, [], ◌∷◌, ◌++◌, length, true, IfSome, IfNone};
ghost use Rattle.crossbeam_queue.specs.Passes.{view, IsPassOf};
ghost use Rattle.cw_line.specs.Numbers.{IsEachOnce, IsNumbered};
ghost use Rattle.cw_line.specs.Hands.{hand};
ghost use Rattle.cw_line.specs.Sides.{IsFirstOf, name_of, beginning, with_pushed, with_taken, without_part, with_part};

use crate::rule::{Hand, Line, Part, Puts, Takes, Ticket};
use crate::seat::Seat;
use crate::taker::Taker;
use crossbeam_queue::Pass;
use std::marker::{Model, PhantomData};
use std::sync::Wait;
use std::thread;

/// The pass of the thread that accepts: it alone pushes. Contracts see how many parts it has, the links that it pushed,
/// and those that it took, by itself or by a handler that came back, with their numbers. With all 1024 parts it knows
/// which links wait.
#[derive(Drop)]
pub struct Acceptor<J: Seat, L> {
    pass: Pass<Ticket<L>, Hand<L>>,
    of: PhantomData<J>,
}

impl<J: Seat, L> Model for Acceptor<J, L> {
    ghost use Rattle.std.specs.Prelude.{◌≡◌};
    ghost use Rattle.cw_line.specs.Hands.{told};
    ghost use Rattle.cw_line.specs.Sides.{Accepting, IsOf, accepting_of, acceptors_hand};

    ghost Value = { Accepting L };

    ghost view = { λ a. accepting_of (told a.pass) };

    ghost invariant = { λ a. IsOf J.table a.pass × (told a.pass ≡ acceptors_hand (accepting_of (told a.pass))) };
}

impl<J: Seat, L> Acceptor<J, L> {
    /// The accepting side of a line that was just opened.
    pub fn new(pass: Pass<Ticket<L>, Hand<L>>) -> Acceptor<J, L>
        requires { IsFirstOf J.table pass }
        ensures { result ≡ beginning }
    {
        Acceptor {
            pass,
            of: PhantomData,
        }
    }

    /// Splits off a handler's side.
    pub fn split(&mut self, line: &Line<L>) -> Taker<J, L>
        requires seat { name_of line.now ≡ J.table }
        requires parts { 1 < self.old.parts }
        ensures without { self.new ≡ without_part self.old }
        ensures fresh { result ≡ [] }
    {
        Taker::new(line.another::<Part>(&mut self.pass))
    }

    /// Takes over what a handler took.
    pub fn absorb(&mut self, line: &Line<L>, taker: Taker<J, L>)
        requires seat { name_of line.now ≡ J.table }
        requires parts { 0 < self.old.parts }
        ensures { self.new ≡ with_part taker self.old }
    {
        line.absorb::<Part>(&mut self.pass, taker.into_pass());
    }

    /// Takes the link that has waited longest, once each handler's side is absorbed. Where there is none, each link
    /// that was pushed was taken once.
    pub fn take_left<R: Wait>(&mut self, rt: &R, line: &Line<L>) -> Option<Ticket<L>>
        requires seat { name_of line.now ≡ J.table }
        requires whole { self.old.parts ≡ 1024 }
        ensures taken { IfSome result (λ ticket. self.new ≡ with_taken ticket self.old) }
        ensures pushed { IfSome result (λ ticket. IsNumbered self.old.pushed ticket) }
        ensures none { IfNone result (self.new ≡ self.old) }
        ensures each_once { IfNone result (IsEachOnce self.new.pushed self.new.taken) }
    {
        match line.pop_as::<Takes, R>(rt, &mut self.pass) {
            Some(ticket) => {
                line.learn_as::<Takes>(&mut self.pass);
                Some(ticket)
            }
            None => None,
        }
    }

    // Pushes the next link.
    pub(crate) fn push<R: Wait>(&mut self, rt: &R, line: &Line<L>, ticket: Ticket<L>)
        requires seat { name_of line.now ≡ J.table }
        requires next { ticket.number ≡ length self.old.pushed }
        ensures { self.new ≡ with_pushed (ticket.link ∷ []) self.old }
    {
        push_with(rt, line, &mut self.pass, ticket);
    }
}

// Pushes a link. There is room, unless the line is full at each moment.
fn push_with<L, R: Wait>(
    rt: &R,
    line: &Line<L>,
    pass: &mut Pass<Ticket<L>, Hand<L>>,
    ticket: Ticket<L>,
)
    requires line { IsPassOf line.now pass.old }
    requires pushes { (view pass.old).pushes ≡ true }
    ensures line { IsPassOf line.now pass.new }
    ensures put { let v = view pass.old in
        view pass.new ≡ hand v.parts true (v.put ++ ticket ∷ []) v.taken }
{
    let mut ticket = ticket;
    for _ in rt.forever() {
        match line.try_push_as::<Puts>(pass, ticket) {
            Ok(()) => return,
            Err(back) => ticket = back,
        }
        thread::yield_now();
    }
    unreachable!()
}
