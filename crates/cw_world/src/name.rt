//! Names of worlds. A name takes no bytes at run time. Copies of it have one book, and each fresh one has its own.
use logbook::{Rule, Seen, Start};

// The rule of a name's book, which asks nothing.
#[derive(Drop)]
pub(crate) struct Unruled;

impl Rule<u64, u64> for Unruled {
    ghost use Rattle.std.specs.Prelude.{[]};
    ghost use base.Fml.{ftrue};

    ghost holds = { λ cells log. Unit {0} };

    ghost first = { [] };

    ghost hinted = { λ n log. Unit {0} };

    ghost shows = { λ log. [] };

    ghost keeps = { λ names log. ftrue };

    ghost moves = { λ ask before after answer. Unit {0} };
}

// A world's name. Clauses compare names by their books.
pub(crate) type WorldName = Seen<u64, u64, Unruled>;

// A name that no world had before.
pub(crate) fn fresh() -> WorldName {
    let (name, _first, _second) = Seen::open(Start::alone(), 0, 0);
    name
}
