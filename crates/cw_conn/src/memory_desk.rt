//! A desk in memory.
ghost use Rattle.std.specs.Prelude.{◌≡◌, List, [], ◌∷◌, ◌++◌, IfOk, MatchResult};
ghost use Rattle.std.specs.Borrow.{sem};
ghost use Rattle.std.specs.Io.BufRead.{Rests};
ghost use Rattle.cw_route.specs.declared.reply.Reply.{Reply};
ghost use Rattle.cw_conn.specs.contracts.memory_desk.MemDesk.{the_row};

use crate::desk::Desk;
use cw_model::JournalEntry;
use cw_route::{Call, Reply};
use std::alloc::{AllocError, Global};
use std::collections::VecDeque;

/// A desk in memory. It gives the replies of a list in order, whatever is asked, and answers want of memory once they
/// are used up.
#[derive(Drop)]
pub struct MemDesk {
    /// The replies that are left.
    pub replies: VecDeque<Reply>,
    /// What was answered.
    pub entries: Vec<JournalEntry>,
}

impl MemDesk {
    /// A desk that has answered nothing yet.
    pub fn new(alloc: Global, replies: VecDeque<Reply>) -> MemDesk
        ensures replies { result.replies.items ≡ replies.items }
        ensures entries { result.entries.items ≡ [] }
    {
        MemDesk {
            replies,
            entries: Vec::new(alloc),
        }
    }
}

impl Desk for MemDesk {
    ghost entries = { λ d. d.entries.items };

    fn answer(&mut self, call: Call) -> Result<&JournalEntry, AllocError>
        ensures call { IfOk result (λ e. e.now.call ≡ call) }
        ensures reply { IfOk result (λ e. (rest : List Reply) × (self.old.replies.items ≡ e.now.reply ∷ rest)) }
        ensures* after { sem 𝓛 (Rests the_row self.entry (λ new. MatchResult result
            (λ e. new.entries.items ≡ self.old.entries.items ++ e.now ∷ [])
            (λ _. new.entries.items ≡ self.old.entries.items))) }
    {
        self.entries.reserve(1)?;
        let Some(reply) = self.replies.pop_front() else {
            return Err(AllocError);
        };
        let at = self.entries.len();
        self.entries.push_reserved(JournalEntry {
            worker: 0,
            board: false,
            prefix: 0,
            statuses: 0,
            entries: 0,
            call,
            reply,
        });
        Ok(&self.entries[at])
    }
}
