//! What answers calls.

use cw_model::JournalEntry;
use cw_route::Call;
use std::alloc::AllocError;

/// Who answers the calls of a connection, each by an entry of the journal.
pub trait Desk {
    ghost use Rattle.std.specs.Prelude.{◌≡◌, List, [], ◌∷◌, ◌++◌, IfOk, MatchResult};
    ghost use Rattle.std.specs.Borrow.{sem};
    ghost use Rattle.std.specs.Io.BufRead.{Rests};
    ghost use Rattle.cw_model.specs.declared.journal.JournalEntry.{JournalEntry};

    /// The entries that it has answered.
    ghost entries: { Self → List JournalEntry };

    /// Answers a call by an entry, which is lent. Where memory is wanting, no entry was made, but the call may have
    /// been done.
    fn answer(&mut self, call: Call) -> Result<&JournalEntry, AllocError>
        ensures call { IfOk result (λ e. e.now.call ≡ call) }
        ensures* after { sem 𝓛 (Rests Self.row self.entry (λ new. MatchResult result
            (λ e. entries new ≡ entries self.old ++ e.now ∷ []) (λ _. entries new ≡ entries self.old))) };
}
