//! What the leader writes under its epoch.
ghost use Rattle.std.specs.Prelude.{ℕ, List};
ghost use Rattle.cw_model.specs.State.{Setting, Cluster};
ghost use Rattle.cw_txn.specs.declared.entry.SetOffset.{SetOffset};
ghost use Rattle.cw_rest.specs.Seen.{KeyedValues};
ghost use Rattle.cw_model.specs.EventsLeading.{claim_lead, append_config, fence_one, append_fence, set_offsets};
ghost use Rattle.cw_model.specs.EventsLeading.{MayAppendConfig, MayFence, MayAppendFence, MaySetOffsets};
ghost use Rattle.cw_laws.specs.Laws.{Keeps};

/// A worker claims the lead and so fences whoever led before, or the leader fences one producer of an older task set
/// (KIP-618): a state that had all facts has them behind it.
pub fn lead_keeps_facts()
    ensures claim_lead { (setting : Setting) (s : Cluster) (w : ℕ) → Keeps setting s (claim_lead w s) }
    ensures fence_one { (setting : Setting) (s : Cluster) (w : ℕ) (name : List ℕ) → MayFence w name s →
        Keeps setting s (fence_one w name s) }
{}

/// The leader writes configs, or that the tasks before a connector's newest set are fenced, so that none of them
/// commits from there on (KIP-618): a state that had all facts has them behind it.
pub fn configs_keep_facts()
    ensures append_config { (setting : Setting) (s : Cluster) (w : ℕ) (records : KeyedValues) →
        MayAppendConfig w records s → Keeps setting s (append_config w records s) }
    ensures append_fence { (setting : Setting) (s : Cluster) (w : ℕ) (name : List ℕ) → MayAppendFence w name s →
        Keeps setting s (append_fence w name s) }
{}

/// The leader sets offsets of a stopped connector, and fences all its producers in the same frame (KIP-875): a state
/// that had all facts has them behind it.
pub fn set_offsets_keep_facts()
    ensures { (setting : Setting) (s : Cluster) (w : ℕ) (name : List ℕ) (list : List SetOffset) →
        MaySetOffsets w name list s → Keeps setting s (set_offsets w name list s) }
{}
