//! Records whose offsets rise.
ghost use Rattle.std.specs.Prelude.{◌≡◌, ◌≤◌, ◌++◌, ◌∷◌, [], nat_le};
ghost use Rattle.cw_bytes.specs.Frames.{next_after};

use cw_bytes::Applied;
use cw_types::Past;
use std::marker::Model;

/// Records, each with an offset above those before it. At run time it keeps the last offset alone.
#[derive(Drop)]
pub(crate) struct Rising {
    last: Option<u64>,
    passed: Past<Applied>,
}

impl Model for Rising {
    ghost use Rattle.std.specs.Prelude.{◌≡◌, List};
    ghost use Rattle.cw_bytes.specs.declared.applied.Applied.{Applied};
    ghost use Rattle.cw_bytes.specs.Frames.{next_after};
    ghost use Rattle.cw_config.specs.Tables.{end_at};

    ghost Value = { List Applied };

    ghost view = { λ a. a.passed.items };

    ghost invariant = { λ a. next_after a.passed.items ≡ end_at a.last };
}

impl Rising {
    /// None.
    pub(crate) fn new() -> Rising
        ensures { result ≡ [] }
    {
        Rising {
            last: None,
            passed: Past::new(),
        }
    }

    /// Whether an offset is above theirs.
    pub(crate) fn is_below(&self, offset: u64) -> bool
        ensures { result ≡ nat_le (next_after self.now) offset }
    {
        match self.last {
            Some(last) => last < offset,
            None => true,
        }
    }

    /// One more.
    pub(crate) fn add(&mut self, applied: &Applied)
        requires { next_after self.old ≤ applied.now.offset }
        ensures { self.new ≡ self.old ++ applied.now ∷ [] }
    {
        self.last = Some(applied.offset);
        self.passed = self.passed.and(applied);
    }
}
