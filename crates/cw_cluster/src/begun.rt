//! What stays so from the beginning of a drive on.
use std::marker::Brand;

/// What stays so while a script is played, whatever its lines say.
pub trait Begun {
    ghost use Rattle.std.specs.Prelude.{Bool};
    ghost use Rattle.cw_model.specs.State.{Setting};

    /// What the cluster is set to.
    ghost setting: { Setting };

    /// Whether the outlet tells its files.
    ghost told: { Bool };
}

// A call picks what is so where it begins.
impl Begun for Brand {
    ghost use Rattle.std.specs.Prelude.{[], false};

    ghost setting = { record { group = []; delay = 0; feeds = []; agreed = false } };

    ghost told = { false };
}
