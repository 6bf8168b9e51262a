// A law of the format.
ghost use Rattle.std.specs.Prelude.{◌≡◌, List, ℕ};
ghost use Rattle.cw_log.specs.declared.fault.Harm.{Harm};
ghost use Rattle.cw_pair.specs.Pair.{IsPairDamaged, PairStandsFor};

/// Two files stand for one list at most, and for none where they have a harm; their first harm is one. So what
/// opening answers is exact.
pub fn pairs_read_one_way()
    ensures list { (kind : ℕ) (bodies others : List (List ℕ)) (a b : List ℕ) → PairStandsFor kind bodies a b →
        PairStandsFor kind others a b → bodies ≡ others }
    ensures none { (kind : ℕ) (bodies : List (List ℕ)) (a b : List ℕ) (side at : ℕ) (harm : Harm) →
        PairStandsFor kind bodies a b → IsPairDamaged kind a b side at harm → ⊥ }
    ensures harm { (kind : ℕ) (a b : List ℕ) (side at : ℕ) (harm : Harm) (other_side place : ℕ) (other : Harm) →
        IsPairDamaged kind a b side at harm → IsPairDamaged kind a b other_side place other →
        (side ≡ other_side) × (at ≡ place) × (harm ≡ other) }
{}
