//! The journal of the calls that were answered.
ghost use Rattle.std.specs.Prelude.{◌≡◌};
ghost use Rattle.cw_model.specs.Journal.{journal};
ghost use Rattle.cw_rows.specs.Kept.{IsOrWants};

use crate::cluster::Cluster;
use crate::crew::{make_room, push_made};
use cw_model::{JournalEntry, WorldFault};

impl Cluster {
    /// The journal gets an entry: the answer is its number. It does so in a closed cluster, too.
    pub fn keep(&mut self, entry: JournalEntry) -> Result<u64, WorldFault>
        ensures { IsOrWants (journal entry) self.old self.new result }
    {
        let number = self.journal.len() as u64;
        let Ok(()) = make_room(&mut self.journal) else {
            return Err(WorldFault::Memory);
        };
        push_made(&mut self.journal, entry);
        Ok(number)
    }

    /// Gives the journal up.
    pub fn into_journal(self) -> Vec<JournalEntry>
        ensures { result.items ≡ self.state.journal }
    {
        self.journal
    }
}
