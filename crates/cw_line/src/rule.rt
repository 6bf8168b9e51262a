//! The rule of a line: the links taken, followed by those that wait, are the links pushed, in order, each under its
//! number and as it was when it was pushed.
use crossbeam_queue::RuledArrayQueue;
use crossbeam_queue::protocol::{Join, Lesson, Outcome, Protocol, Split};
use std::collections::LinkedList;

/// An accepted link with its number: how many were accepted before it.
#[derive(Drop)]
pub struct Ticket<L> {
    pub number: u64,
    pub link: L,
}

/// What a pass of a line knows: its parts of the right to know the whole, whether it may push, and the links that it
/// pushed and took. It is what clauses speak of, and no value of it is made.
pub struct Hand<L> {
    pub parts: u64,
    pub pushes: bool,
    pub put: LinkedList<Ticket<L>>,
    pub taken: LinkedList<Ticket<L>>,
}

/// The links of which those taken, followed by those that wait, are those pushed. Any number of threads share it.
pub type Line<L> = RuledArrayQueue<Ticket<L>, Hand<L>, InOrder>;

/// The rule that the links taken, followed by those that wait, are those pushed, in order.
pub struct InOrder;

impl<L> Protocol<Ticket<L>, Hand<L>> for InOrder {
    ghost use Rattle.std.specs.Prelude.{true, []};
    ghost use Rattle.cw_line.specs.Hands.{hand, Handed};

    ghost holds = { λ tickets views. Handed tickets views };

    ghost first = { hand 1024 true [] [] };
}

/// One part leaves for a handler, or comes back with what the handler took.
pub(crate) struct Part;

impl<L> Split<Hand<L>> for Part {
    ghost use Rattle.std.specs.Prelude.{◌-◌, false, []};
    ghost use Rattle.cw_line.specs.Hands.{hand};

    ghost left = { λ v. hand (v.parts - 1) v.pushes v.put v.taken };

    ghost right = { λ v. hand 1 false [] [] };
}

impl<L> Join<Hand<L>> for Part {
    ghost use Rattle.std.specs.Prelude.{◌+◌, ◌++◌, false, []};
    ghost use Rattle.cw_line.specs.Hands.{hand};

    ghost both = { λ v w. hand (v.parts + w.parts) v.pushes v.put (v.taken ++ w.taken) };

    ghost spent = { hand 0 false [] [] };
}

/// A link is pushed.
pub(crate) struct Puts;

impl<L> Outcome<Ticket<L>, Hand<L>> for Puts {
    ghost use Rattle.std.specs.Prelude.{◌≡◌, ◌++◌, ◌∷◌, []};
    ghost use Rattle.cw_line.specs.Hands.{hand};

    ghost then = { λ v ticket w. w ≡ hand v.parts v.pushes (v.put ++ ticket ∷ []) v.taken };
}

/// A link is taken.
pub(crate) struct Takes;

impl<L> Outcome<Ticket<L>, Hand<L>> for Takes {
    ghost use Rattle.std.specs.Prelude.{◌≡◌, ◌++◌, ◌∷◌, []};
    ghost use Rattle.cw_line.specs.Hands.{hand};

    ghost then = { λ v ticket w. w ≡ hand v.parts v.pushes v.put (v.taken ++ ticket ∷ []) };
}

/// What only the pass with every part may know: which links wait.
impl<L> Lesson<Ticket<L>, Hand<L>> for Takes {
    ghost use Rattle.cw_line.specs.Hands.{IsWhole, Accounts};

    ghost fact = { λ v tickets. IsWhole v → Accounts v.put v.taken tickets };
}
