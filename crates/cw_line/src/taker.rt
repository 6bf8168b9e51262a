//! A handler's side of a line.
ghost use Rattle.std.specs.Prelude.{◌≡◌, [], ◌∷◌, ◌++◌, IfSome, IfNone};
ghost use Rattle.crossbeam_queue.specs.Passes.{view};
ghost use Rattle.cw_line.specs.Sides.{IsOf, name_of, takers_hand};

use crate::rule::{Hand, Line, Takes, Ticket};
use crate::seat::Seat;
use crossbeam_queue::Pass;
use std::marker::{Model, PhantomData};
use std::sync::Wait;

/// A handler's pass, with one part. Contracts see the links that it took, with their
/// numbers, as they were when they were pushed.
#[derive(Drop)]
pub struct Taker<J: Seat, L> {
    pass: Pass<Ticket<L>, Hand<L>>,
    of: PhantomData<J>,
}

impl<J: Seat, L> Model for Taker<J, L> {
    ghost use Rattle.std.specs.Prelude.{◌≡◌, List};
    ghost use Rattle.cw_line.specs.declared.rule.Ticket.{Ticket};
    ghost use Rattle.cw_line.specs.Hands.{told};
    ghost use Rattle.cw_line.specs.Sides.{IsOf, takers_hand};

    ghost Value = { List (Ticket L) };

    ghost view = { λ t. (told t.pass).taken };

    ghost invariant = { λ t. IsOf J.table t.pass × (told t.pass ≡ takers_hand (told t.pass).taken) };
}

impl<J: Seat, L> Taker<J, L> {
    // A taker that took nothing yet.
    pub(crate) fn new(pass: Pass<Ticket<L>, Hand<L>>) -> Taker<J, L>
        requires { IsOf J.table pass × (view pass ≡ takers_hand []) }
        ensures { result ≡ [] }
    {
        Taker {
            pass,
            of: PhantomData,
        }
    }

    // Its pass.
    pub(crate) fn into_pass(self) -> Pass<Ticket<L>, Hand<L>>
        ensures { IsOf J.table result × (view result ≡ takers_hand self) }
    {
        let Taker { pass, of: _ } = self;
        pass
    }

    /// Takes the link that has waited longest. There is none where the line was empty at one moment of the call.
    pub fn take<R: Wait>(&mut self, rt: &R, line: &Line<L>) -> Option<Ticket<L>>
        requires seat { name_of line.now ≡ J.table }
        ensures taken { IfSome result (λ ticket. self.new ≡ self.old ++ ticket ∷ []) }
        ensures none { IfNone result (self.new ≡ self.old) }
    {
        line.pop_as::<Takes, R>(rt, &mut self.pass)
    }
}
