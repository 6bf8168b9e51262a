//! What was so before the threads.
use cw_board::BoardNaming;
use cw_line::Seat;
use std::marker::Brand;
use std::sync::ledger::Ledger;

/// What was so before the threads began, and which ledger, line and board are theirs; the board names the number of
/// workers. What lies under the locks has it in its type, so that it is known behind the joins. Each call of a program
/// picks it.
pub trait Begun: Ledger + Seat + BoardNaming {
    ghost use Rattle.std.specs.Prelude.{ℕ};
    ghost use Rattle.cw_turns.specs.Going.{Start};

    /// Where the world stood.
    ghost start: { Start };

    /// How many calls of the outlet had failed.
    ghost faults: { ℕ };
}

impl Begun for Brand {
    ghost use Rattle.cw_serve.specs.Nowhere.{no_start};

    ghost start = { no_start };

    ghost faults = { 0 };
}
