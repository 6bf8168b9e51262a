//! Laws of openings: what files stand for has all facts, and what is written of a state opens to it again.
ghost use Rattle.std.specs.Prelude.{◌≡◌, ◌⊎◌, ℕ, List};
ghost use Rattle.cw_types.specs.declared.logs.LogName.{LogName};
ghost use Rattle.cw_log.specs.declared.fault.Harm.{Harm};
ghost use Rattle.cw_model.specs.State.{Setting, Cluster};
ghost use Rattle.cw_model.specs.StandsFor.{Stored, StandFor, TellsWhetherFeedsAgree, IsFirstHarm};
ghost use Rattle.cw_model.specs.Reopening.{stored_of, reopened};
ghost use Rattle.cw_model.specs.Facts.{AreFacts};
ghost use Rattle.cw_model.specs.FactsLogs.{AreShort};
ghost use Rattle.cw_model.specs.Journal.{IsTrueJournal};
ghost use Rattle.cw_model.specs.Runs.{Step, behind_all, IsRun};
ghost use Rattle.cw_model.specs.Safe.{IsSafe};
ghost use Rattle.cw_laws.specs.Openings.{IsOpening, Opens};

/// Files that are opened stand for a state in which all facts hold, so that every run from it is safe.
pub fn opening_keeps_facts()
    ensures { (setting : Setting) (stored : Stored) (s : Cluster) → IsOpening setting stored s → AreFacts setting s }
{}

/// The logs of a state in which all facts hold, as they are written, stand for the state without workers that holds
/// them, and all facts hold there, whatever feeds are handed in.
pub fn written_logs_open_again()
    ensures stand { (setting : Setting) (s : Cluster) → AreFacts setting s → StandFor (stored_of s) (reopened s) }
    ensures facts { (setting other : Setting) (s : Cluster) → AreFacts setting s → AreShort other.feeds →
        TellsWhetherFeedsAgree other (reopened s) → AreFacts other (reopened s) }
{}

/// Logs that stand for a state meet no harm; and a disk that failed, whose files hold the logs before an event or those
/// behind it, leaves none.
pub fn left_logs_meet_no_harm()
    ensures none { (stored : Stored) (s : Cluster) (log : LogName) (at : ℕ) (harm : Harm) → StandFor stored s →
        ¬ IsFirstHarm stored log at harm }
    ensures left { (setting other : Setting) (s t : Cluster) (stored : Stored) → AreFacts setting s →
        AreFacts setting t → AreShort other.feeds → (stored ≡ stored_of s) ⊎ (stored ≡ stored_of t) →
        Opens other stored }
{}

/// Whatever steps are made behind an opening, in whatever order, at whatever workers: the state is safe, its journal is
/// true, and its logs open again.
pub fn runs_from_openings_are_safe()
    ensures safe { (setting : Setting) (stored : Stored) (s : Cluster) (steps : List Step) →
        IsOpening setting stored s → IsRun setting s steps → IsSafe setting (behind_all setting s steps) }
    ensures journal { (setting : Setting) (stored : Stored) (s : Cluster) (steps : List Step) →
        IsOpening setting stored s → IsRun setting s steps → IsTrueJournal setting (behind_all setting s steps) }
    ensures again { (setting other : Setting) (stored : Stored) (s : Cluster) (steps : List Step) →
        IsOpening setting stored s → IsRun setting s steps → AreShort other.feeds →
        Opens other (stored_of (behind_all setting s steps)) }
{}
