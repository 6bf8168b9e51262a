//! What is committed of a part.
ghost use Rattle.std.specs.Prelude.{◌≡◌, ◌↔◌, IsTrue, Some};
ghost use Rattle.cw_txn.specs.History.{GoesOn};

use cw_types::Span;

/// What is committed of a part.
#[derive(Clone, Copy, Debug, PartialEq, Eq, Drop)]
pub struct History {
    /// Where its offsets begin.
    pub base: u64,
    /// Where its last commit ended, if there is one.
    pub end: Option<u64>,
}

impl History {
    /// That of a part of which nothing is committed or set.
    pub const UNSET: History = History { base: 0, end: None };

    /// Whether a span begins where this part ends, at 0 where it has no end, and isn't empty.
    pub fn goes_on(self, span: &Span) -> bool
        ensures { IsTrue result ↔ GoesOn self span.now }
    {
        span.from == self.end.unwrap_or(0) && span.from < span.to
    }

    /// The same with another end.
    pub fn ended(self, to: u64) -> History
        ensures { result ≡ record { base = self.base; end = Some to } }
    {
        History {
            base: self.base,
            end: Some(to),
        }
    }
}
