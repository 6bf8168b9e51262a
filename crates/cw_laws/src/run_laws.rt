//! Runs: each step keeps all facts, so every state of every run is safe, and nothing is ever taken back.
ghost use Rattle.std.specs.Prelude.{◌≡◌, ℕ, List, ◌∷◌, ◌++◌, take};
ghost use Rattle.cw_types.specs.declared.logs.DiskName.{DiskName};
ghost use Rattle.cw_model.specs.declared.journal.JournalEntry.{JournalEntry};
ghost use Rattle.cw_model.specs.State.{Setting, Cluster};
ghost use Rattle.cw_model.specs.Safe.{IsSafe};
ghost use Rattle.cw_model.specs.Facts.{AreFacts};
ghost use Rattle.cw_model.specs.Grows.{Grows};
ghost use Rattle.cw_model.specs.Journal.{journal, MayJournal, IsTrueEntry, GoesOnBehind, IsTrueJournal};
ghost use Rattle.cw_model.specs.Reopening.{closed_by};
ghost use Rattle.cw_model.specs.Runs.{Step, May, behind, behind_all, IsRun};
ghost use Rattle.cw_model.specs.Steps.{step as task_step};
ghost use Rattle.cw_model.specs.Tick.{tick};
ghost use Rattle.cw_laws.specs.Laws.{Keeps};

/// A state that has all facts is safe: members run disjoint items, behind a fence no older task commits, and what is
/// committed of a source is what it yields, each record once. Its journal is true.
pub fn facts_are_safe()
    ensures safe { (setting : Setting) (s : Cluster) → AreFacts setting s → IsSafe setting s }
    ensures journal { (setting : Setting) (s : Cluster) → AreFacts setting s → IsTrueJournal setting s }
{}

/// A call that may be kept in the journal is kept there, and the journal stays true.
pub fn journal_keeps_facts()
    ensures journal { (setting : Setting) (s : Cluster) (e : JournalEntry) → MayJournal setting e s →
        Keeps setting s (journal e s) }
{}

/// A disk fails and all writing ends: a state that had all facts has them behind it.
pub fn closing_keeps_facts()
    ensures closes { (setting : Setting) (s : Cluster) (disk : DiskName) (count : ℕ) → AreFacts setting s →
        AreFacts setting (closed_by disk count s) }
{}

/// Behind each step that may be made a state that had all facts has them again, whatever the step is; and so it has
/// behind each tick of a worker and each step of a task, which make no event where it may not be made.
pub fn each_step_keeps_facts()
    ensures step { (setting : Setting) (s : Cluster) (step : Step) → May setting s step → AreFacts setting s →
        AreFacts setting (behind setting s step) }
    ensures tick { (setting : Setting) (s : Cluster) (w : ℕ) → Keeps setting s (tick w s) }
    ensures task_step { (setting : Setting) (s : Cluster) (i : ℕ) → Keeps setting s (task_step setting i s) }
{}

/// Along each run, from a state that has all facts on, each state has them, and so is safe and has a true journal,
/// however many steps were made.
pub fn every_state_of_a_run_is_safe()
    ensures facts { (setting : Setting) (s : Cluster) (steps : List Step) (n : ℕ) → AreFacts setting s →
        IsRun setting s steps → AreFacts setting (behind_all setting s (take n steps)) }
    ensures safe { (setting : Setting) (s : Cluster) (steps : List Step) (n : ℕ) → AreFacts setting s →
        IsRun setting s steps → IsSafe setting (behind_all setting s (take n steps)) }
    ensures journal { (setting : Setting) (s : Cluster) (steps : List Step) (n : ℕ) → AreFacts setting s →
        IsRun setting s steps → IsTrueJournal setting (behind_all setting s (take n steps)) }
{}

/// Nothing that was written, answered or read is taken back: behind each step, tick and run the logs' lists, the
/// journal and what each worker has read go on where they ended, and a closed cluster stays closed.
pub fn cluster_only_grows()
    ensures step { (setting : Setting) (s : Cluster) (step : Step) → AreFacts setting s →
        Grows s (behind setting s step) }
    ensures tick { (setting : Setting) (s : Cluster) (w : ℕ) → AreFacts setting s → Grows s (tick w s).1 }
    ensures task_step { (setting : Setting) (s : Cluster) (i : ℕ) → AreFacts setting s →
        Grows s (task_step setting i s).1 }
    ensures run { (setting : Setting) (s : Cluster) (steps : List Step) → AreFacts setting s →
        IsRun setting s steps → Grows s (behind_all setting s steps) }
{}

/// What was answered is right, stays true along each run, and goes on behind what the same worker answered before: its
/// readers' replies never go back, and hold what was written through it.
pub fn answers_stay_true()
    ensures now { (setting : Setting) (s : Cluster) (before behind : List JournalEntry) (e : JournalEntry) →
        AreFacts setting s → s.journal ≡ before ++ e ∷ behind → IsTrueEntry setting s before e }
    ensures later { (setting : Setting) (s : Cluster) (before behind : List JournalEntry) (e : JournalEntry)
        (steps : List Step) → AreFacts setting s → IsRun setting s steps → s.journal ≡ before ++ e ∷ behind →
        IsTrueEntry setting (behind_all setting s steps) before e }
    ensures on { (setting : Setting) (s : Cluster) (before between behind : List JournalEntry)
        (earlier e : JournalEntry) → AreFacts setting s →
        s.journal ≡ (before ++ earlier ∷ between) ++ e ∷ behind → earlier.worker ≡ e.worker → GoesOnBehind e earlier }
{}
