//! Connectors and tasks start and end at workers.
ghost use Rattle.std.specs.Prelude.{ℕ};
ghost use Rattle.cw_types.specs.declared.ids.Item.{Item};
ghost use Rattle.cw_model.specs.State.{Setting, Cluster};
ghost use Rattle.cw_model.specs.EventsItems.{read_config, start_item, stop_item, restart, MayStart};
ghost use Rattle.cw_laws.specs.Laws.{Keeps};

/// A worker reads the config log to its end, stops an item, or a user restarts one: a state that had all facts has
/// them behind it.
pub fn items_keep_facts()
    ensures read_config { (setting : Setting) (s : Cluster) (w : ℕ) → Keeps setting s (read_config w s) }
    ensures stop_item { (setting : Setting) (s : Cluster) (i : ℕ) → Keeps setting s (stop_item i s) }
    ensures restart { (setting : Setting) (s : Cluster) (w : ℕ) (item : Item) → Keeps setting s (restart w item s) }
{}

/// A worker starts an item that is assigned to it, as it has read of its config: a state that had all facts has them
/// behind it.
pub fn starts_keep_facts()
    ensures start_item { (setting : Setting) (s : Cluster) (w : ℕ) (item : Item) → MayStart w item s →
        Keeps setting s (start_item w item s) }
{}
