//! Workers come and go.
ghost use Rattle.std.specs.Prelude.{ℕ};
ghost use Rattle.cw_model.specs.State.{Setting, Cluster};
ghost use Rattle.cw_model.specs.EventsWorkers.{spawn, kill, deaf, hear, clock};
ghost use Rattle.cw_laws.specs.Laws.{Keeps};

/// A worker is made, is killed, turns deaf or hears again, or the clock moves: a state that had all facts has them
/// behind it.
pub fn workers_keep_facts()
    ensures spawn { (setting : Setting) (s : Cluster) → Keeps setting s (spawn s) }
    ensures kill { (setting : Setting) (s : Cluster) (w : ℕ) → Keeps setting s (kill w s) }
    ensures deaf { (setting : Setting) (s : Cluster) (w : ℕ) → Keeps setting s (deaf w s) }
    ensures hear { (setting : Setting) (s : Cluster) (w : ℕ) → Keeps setting s (hear w s) }
    ensures clock { (setting : Setting) (s : Cluster) (to : ℕ) → Keeps setting s (clock to s) }
{}
