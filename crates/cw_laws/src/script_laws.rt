//! Producers of a script, judged by their epochs alone (KIP-98).
ghost use Rattle.std.specs.Prelude.{ℕ, List};
ghost use Rattle.cw_types.specs.declared.ids.Epoch.{Epoch};
ghost use Rattle.cw_model.specs.State.{Setting, Cluster};
ghost use Rattle.cw_model.specs.EventsRaw.{raw_init, raw_commit, MayRawInit, MayRawCommit};
ghost use Rattle.cw_laws.specs.Laws.{Keeps};

/// A script's producer gets its next epoch, or commits parts of its own up to new ends: a state that had all facts has
/// them behind it.
pub fn script_producers_keep_facts()
    ensures raw_init { (setting : Setting) (s : Cluster) (n : ℕ) → MayRawInit n → Keeps setting s (raw_init n s) }
    ensures raw_commit { (setting : Setting) (s : Cluster) (n : ℕ) (epoch : Epoch) (list : List (ℕ × ℕ)) →
        MayRawCommit n list → Keeps setting s (raw_commit n epoch list s) }
{}
