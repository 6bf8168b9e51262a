// Who is shown the bodies of a log while it is opened.
ghost use Rattle.std.specs.Prelude.{◌≡◌, ◌+◌, ◌++◌, ◌∷◌, [], List, ℕ, OnOk};
ghost use Rattle.cw_log.specs.Log.{length_of};

use std::alloc::AllocError;

/// Who is shown each body of a log while the log is opened, in their order and without a copy, so that a file
/// is read once.
pub trait BodyVisitor {
    /// It was shown just these bodies.
    ghost has_seen: { Self → List (List ℕ) → Type 0 };

    /// The file has so many bytes, those behind its closed gate among them. It comes before the first body; nothing but
    /// speed and memory should depend on it.
    fn expect(&mut self, size: u64)
        ensures { (bodies : List (List ℕ)) → has_seen self.old bodies → has_seen self.new bodies };

    /// One body more, whose frame has its gate at this place. An `Err`, for want of memory, ends the opening.
    fn see(&mut self, body: &[u8], gate: u64) -> Result<(), AllocError>
        ensures { OnOk result ((bodies : List (List ℕ)) → gate + 1 ≡ length_of bodies →
            has_seen self.old bodies → has_seen self.new (bodies ++ body.now ∷ [])) };
}

/// Nobody, to whom no body tells anything.
#[derive(Drop)]
pub struct Nobody;

impl BodyVisitor for Nobody {
    ghost has_seen = { λ _ _. Unit {0} };

    fn expect(&mut self, _: u64) {}

    #[inline]
    fn see(&mut self, _: &[u8], _: u64) -> Result<(), AllocError> {
        Ok(())
    }
}
