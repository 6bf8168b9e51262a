//! Tasks fail, and states are reported to the status log.
ghost use Rattle.std.specs.Prelude.{ℕ};
ghost use Rattle.cw_types.specs.declared.ids.Item.{Item};
ghost use Rattle.cw_model.specs.declared.instance.Trace.{Trace};
ghost use Rattle.cw_model.specs.State.{Setting, Cluster};
ghost use Rattle.cw_model.specs.EventsReports.{fail, put_status, MayReport};
ghost use Rattle.cw_laws.specs.Laws.{Keeps};

/// An instance fails, or a worker reports the state of an item that it runs: a state that had all facts has them
/// behind it.
pub fn reports_keep_facts()
    ensures fail { (setting : Setting) (s : Cluster) (i : ℕ) (trace : Trace) → Keeps setting s (fail i trace s) }
    ensures put_status { (setting : Setting) (s : Cluster) (w : ℕ) (item : Item) → MayReport w item s →
        Keeps setting s (put_status w item s) }
{}
