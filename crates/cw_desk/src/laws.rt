//! What leaves the journal as it is.
ghost use Rattle.std.specs.Prelude.{ℕ};
ghost use Rattle.cw_types.specs.declared.logs.DiskName.{DiskName};
ghost use Rattle.cw_types.specs.declared.logs.LogName.{LogName};
ghost use Rattle.cw_model.specs.State.{Setting, Cluster};
ghost use Rattle.cw_model.specs.Facts.{AreFacts};
ghost use Rattle.cw_model.specs.EventsCompaction.{compact};
ghost use Rattle.cw_model.specs.EventsWorkers.{clock, expire};
ghost use Rattle.cw_model.specs.Reopening.{closed_by};
ghost use Rattle.cw_model.specs.Steps.{step as task_step};
ghost use Rattle.cw_model.specs.Tick.{tick};
ghost use Rattle.cw_desk.specs.Keeping.{KeepsJournal};

/// Only a call is kept in the journal, and no turn of a herder, a task or a cleaner kills a worker: a tick, a task's
/// step, an expiry, a compaction, the clock and a failed disk leave the journal and the workers that live.
pub fn turns_keep_the_journal()
    ensures tick { (setting : Setting) (s : Cluster) (w : ℕ) → AreFacts setting s → KeepsJournal s (tick w s).1 }
    ensures task_step { (setting : Setting) (s : Cluster) (i : ℕ) → AreFacts setting s →
        KeepsJournal s (task_step setting i s).1 }
    ensures expire { (setting : Setting) (s : Cluster) (w : ℕ) → KeepsJournal s (expire setting w s).1 }
    ensures compact { (s : Cluster) (log : LogName) → KeepsJournal s (compact log s).1 }
    ensures clock { (s : Cluster) (to : ℕ) → KeepsJournal s (clock to s).1 }
    ensures closes { (s : Cluster) (disk : DiskName) (count : ℕ) → KeepsJournal s (closed_by disk count s) }
    ensures goes_on { (s t u : Cluster) → KeepsJournal s t → KeepsJournal t u → KeepsJournal s u }
{}
