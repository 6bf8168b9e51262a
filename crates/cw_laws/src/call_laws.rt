//! Which calls of the REST API may be kept in the journal.
ghost use Rattle.cw_model.specs.declared.journal.JournalEntry.{JournalEntry};
ghost use Rattle.cw_model.specs.State.{Setting, Cluster};
ghost use Rattle.cw_model.specs.Facts.{AreFacts};
ghost use Rattle.cw_model.specs.Journal.{MayJournal};
ghost use Rattle.cw_laws.specs.KeptCalls.{HasWritten, HasSet, IsOfView};

/// A call that wrote configs, once its worker has read them, one that set offsets, and one that was answered from a
/// published view of what its worker had read may be kept: each tells what is so, and goes on behind that worker's
/// earlier ones.
pub fn calls_may_be_kept()
    ensures configs { (setting : Setting) (s t : Cluster) (e : JournalEntry) → AreFacts setting s →
        HasWritten setting s t e → MayJournal setting e t }
    ensures offsets { (setting : Setting) (s t : Cluster) (e : JournalEntry) → AreFacts setting s →
        HasSet setting s t e → MayJournal setting e t }
    ensures view { (setting : Setting) (s : Cluster) (e : JournalEntry) → AreFacts setting s → IsOfView setting s e →
        MayJournal setting e s }
{}
