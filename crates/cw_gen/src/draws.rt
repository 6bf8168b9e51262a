//! Draws from a number.
ghost use Rattle.std.specs.Prelude.{◌≡◌, ◌<◌};
ghost use Rattle.cw_gen.specs.Draws.{next_number, drawn};

use std::marker::Model;

/// A number that draws are made from. Clauses see the number.
#[derive(Drop)]
pub(crate) struct Draws {
    number: u64,
}

impl Model for Draws {
    ghost use Rattle.std.specs.Prelude.{ℕ};

    ghost Value = { ℕ };

    ghost view = { λ d. d.number };
}

impl Draws {
    /// Draws from this number on.
    pub(crate) fn new(start: u64) -> Draws
        ensures { result ≡ start }
    {
        Draws { number: start }
    }

    /// Draws a number below `k`.
    pub(crate) fn draw(&mut self, k: u64) -> u64
        requires { 0 < k }
        ensures drawn { result ≡ drawn k self.old }
        ensures below { result < k }
        ensures number { self.new ≡ next_number self.old }
    {
        self.number = next_number(self.number);
        (self.number >> 33) % k
    }
}

// The number behind a number.
fn next_number(x: u64) -> u64
    ensures { result ≡ next_number x }
{
    x.wrapping_mul(6_364_136_223_846_793_005)
        .wrapping_add(1_442_695_040_888_963_407)
}
