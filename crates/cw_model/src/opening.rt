//! Laws of what the log files hold: it determines the state that is opened, and a compaction makes no log longer.
ghost use Rattle.std.specs.Prelude.{◌≡◌, ◌≤◌};
ghost use Rattle.cw_types.specs.declared.logs.LogName.TheVariants.{Config, Offsets, Status};
ghost use Rattle.cw_model.specs.State.{Cluster};
ghost use Rattle.cw_model.specs.Bodies.{config_length, offsets_length, status_length};
ghost use Rattle.cw_model.specs.EventsCompaction.{compact};
ghost use Rattle.cw_model.specs.StandsFor.{Stored, StandFor};

/// What the log files hold stands for one state at most.
pub fn stored_logs_stand_for_one_state()
    ensures { (stored : Stored) (s t : Cluster) → StandFor stored s → StandFor stored t → s ≡ t }
{}

/// A compaction makes no log longer, however its keys and values are spelled.
pub fn compaction_lengthens_no_log()
    ensures config { (s : Cluster) → config_length (compact Config s).1 ≤ config_length s }
    ensures offsets { (s : Cluster) → offsets_length (compact Offsets s).1 ≤ offsets_length s }
    ensures status { (s : Cluster) → status_length (compact Status s).1 ≤ status_length s }
{}
