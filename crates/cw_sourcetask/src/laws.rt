//! What holds of every task that polls.
ghost use Rattle.std.specs.Prelude.{◌≡◌, ◌<◌, ℕ};
ghost use Rattle.cw_model.specs.Facts.{AreFacts};
ghost use Rattle.cw_model.specs.Lookups.{instance_of};
ghost use Rattle.cw_model.specs.State.{Setting, Cluster};
ghost use Rattle.cw_model.specs.Tasks.{batch_limit_of};
ghost use Rattle.cw_model.specs.declared.instance.InstancePhase.TheVariants.{Polling};

/// A task that polls takes at least one record at a time: its properties allow no batch of none.
pub fn batches_take_some()
    ensures { (setting : Setting) (s : Cluster) (i : ℕ) → AreFacts setting s → (instance_of i s).phase ≡ Polling →
        0 < batch_limit_of (instance_of i s) }
{}
