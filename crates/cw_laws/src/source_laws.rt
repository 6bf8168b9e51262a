//! A source's task initialises its producer, and writes records and offsets in transactions (KIP-618).
ghost use Rattle.std.specs.Prelude.{ℕ};
ghost use Rattle.cw_model.specs.State.{Setting, Cluster};
ghost use Rattle.cw_model.specs.declared.instance.Cut.{Cut};
ghost use Rattle.cw_model.specs.EventsSources.{init, verify, fetch, produce, put_offsets, commit};
ghost use Rattle.cw_model.specs.EventsSources.{MayInit, MayVerify, MayFetch, MayProduce, MayPutOffsets, MayCommit};
ghost use Rattle.cw_laws.specs.Laws.{Keeps};

/// A new task gets the next epoch of its producer, which fences every older one, or a verified one fetches where its
/// parts ended: a state that had all facts has them behind it.
pub fn sources_begin_and_keep_facts()
    ensures init { (setting : Setting) (s : Cluster) (i : ℕ) → MayInit i s → Keeps setting s (init i s) }
    ensures fetch { (setting : Setting) (s : Cluster) (i : ℕ) → MayFetch i s → Keeps setting s (fetch i s) }
{}

/// A task goes on where its set is the newest and all older ones are fenced, or else is refused (KIP-618): a state
/// that had all facts has them behind it.
pub fn verifying_keeps_facts()
    ensures verify { (setting : Setting) (s : Cluster) (i : ℕ) → MayVerify i s → Keeps setting s (verify i s) }
{}

/// A task writes the records of a cut, then the offset behind them, and then commits both in one transaction, or else
/// is fenced (KIP-618): a state that had all facts has them behind it.
pub fn transactions_keep_facts()
    ensures produce { (setting : Setting) (s : Cluster) (i : ℕ) (cut : Cut) → MayProduce i cut s →
        Keeps setting s (produce setting i cut s) }
    ensures put_offsets { (setting : Setting) (s : Cluster) (i : ℕ) → MayPutOffsets i s →
        Keeps setting s (put_offsets i s) }
    ensures commit { (setting : Setting) (s : Cluster) (i : ℕ) → MayCommit i s → Keeps setting s (commit i s) }
{}
