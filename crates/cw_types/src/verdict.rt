//! How a transaction ended.

ghost use Rattle.std.specs.Prelude.{◌≡◌};
ghost use Rattle.cw_types.specs.declared.ids.Tag.{Tag};
ghost use Rattle.cw_types.specs.declared.verdict.Verdict.{Verdict};

use crate::ids::Tag;

/// How a transaction ended, if it has.
#[derive(Clone, Copy, Debug, PartialEq, Eq, Drop)]
pub enum Verdict {
    /// It was committed.
    Committed,
    /// It wasn't, and its producer has a later epoch, so it never will be.
    Aborted,
    /// It may still be committed.
    Open,
}

/// Who knows how transactions ended: the transaction coordinator.
pub trait Decided {
    /// The verdict of each tag.
    ghost verdict_of: { Self → Tag → Verdict };

    /// The verdict of a tag.
    fn verdict(&self, tag: &Tag) -> Verdict
        ensures { result ≡ verdict_of self.now tag.now };
}
