//! Which line it is.
use std::marker::Brand;

/// The name of a line, which the types of both sides have. Each call of a program picks it: the name of the line that
/// was opened there.
pub trait Seat {
    ghost use Rattle.atomic_table.specs.Seated.{TableId};

    /// The line's name.
    ghost table: { TableId };
}

impl Seat for Brand {
    ghost use Rattle.cw_line.specs.Sides.{no_table};

    ghost table = { no_table };
}
