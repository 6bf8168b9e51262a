//! A history that only proofs read. It takes no memory, and its calls do nothing at run time.
ghost use Rattle.std.specs.Prelude.{◌≡◌, List, [], ◌∷◌, ◌++◌};
ghost use Rattle.std.specs.Borrow.{ftrue};

use std::marker::{Model, PhantomData};

/// The values that something had before, the oldest first. A clause reads them as `items`.
#[derive(Drop)]
pub struct Past<A> {
    of: PhantomData<A>,
    pub ghost items: { List A },
}

impl<A> Model for Past<A> {
    ghost also_owns = { λ _. ftrue };
}

// It owns nothing, so threads may take it over, and share it whatever it tells of.
unsafe impl<A: Send> Send for Past<A> {}

unsafe impl<A> Sync for Past<A> {}

impl<A> Past<A> {
    /// No value.
    pub fn new() -> Past<A>
        ensures { result.items ≡ [] }
    {
        Past { of: PhantomData }
    }

    /// One value more.
    pub fn and(&self, value: &A) -> Past<A>
        ensures { result.items ≡ self.now.items ++ value.now ∷ [] }
    {
        Past { of: PhantomData }
    }
}
