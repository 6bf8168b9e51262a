// A law of the format.
ghost use Rattle.std.specs.Prelude.{◌≡◌, List, ℕ};
ghost use Rattle.cw_log.specs.declared.fault.Harm.{Harm};
ghost use Rattle.cw_log.specs.Log.{StandsFor, IsDamaged};

/// A file stands for one list at most, and for none where it has a harm; its first harm is one. So
/// "damaged" and "stands for" are each other's contrary at most, and what opening answers is exact.
pub fn files_read_one_way()
    ensures list { (kind : ℕ) (bodies others : List (List ℕ)) (file : List ℕ) → StandsFor kind bodies file →
        StandsFor kind others file → bodies ≡ others }
    ensures none { (kind : ℕ) (bodies : List (List ℕ)) (file : List ℕ) (at : ℕ) (harm : Harm) →
        StandsFor kind bodies file → IsDamaged kind file at harm → ⊥ }
    ensures harm { (kind : ℕ) (file : List ℕ) (at place : ℕ) (harm other : Harm) → IsDamaged kind file at harm →
        IsDamaged kind file place other → (at ≡ place) × (harm ≡ other) }
{}
