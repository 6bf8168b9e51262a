//! Rounds of the group: who joins, who leaves, and the plan (KIP-415).
ghost use Rattle.std.specs.Prelude.{ℕ};
ghost use Rattle.cw_model.specs.State.{Setting, Cluster};
ghost use Rattle.cw_model.specs.EventsGroups.{join, close_round, store_plan, sync};
ghost use Rattle.cw_model.specs.EventsWorkers.{expire};
ghost use Rattle.cw_laws.specs.Laws.{Keeps};

/// A worker joins, a round is closed once all have joined, the leader plans, a worker is told its share of the plan,
/// or the group lets a member go: a state that had all facts has them behind it.
pub fn rounds_keep_facts()
    ensures join { (setting : Setting) (s : Cluster) (w : ℕ) → Keeps setting s (join w s) }
    ensures close_round { (setting : Setting) (s : Cluster) (w : ℕ) → Keeps setting s (close_round w s) }
    ensures store_plan { (setting : Setting) (s : Cluster) (w : ℕ) → Keeps setting s (store_plan w s) }
    ensures sync { (setting : Setting) (s : Cluster) (w : ℕ) → Keeps setting s (sync w s) }
    ensures expire { (setting : Setting) (s : Cluster) (w : ℕ) → Keeps setting s (expire setting w s) }
{}
