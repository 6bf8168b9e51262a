//! The outlet under its lock.
ghost use Rattle.std.specs.Prelude.{◌≡◌, ◌≤◌, Some, true, false};
ghost use Rattle.cw_types.specs.Faults.{Rose};
ghost use Rattle.cw_io.specs.Shelf.{Files};
ghost use Rattle.cw_edges.specs.Poured.{poured};

use crate::naming::Begun;
use cw_io::Outlet;
use cw_sinktask::{Delivery, pour};
use std::marker::PhantomData;

/// An outlet, and whether its count of faults rose since the threads began.
pub struct Poured<J: Begun, U: Outlet> {
    pub outlet: U,
    pub rose: bool,
    of: PhantomData<J>,
    pub ghost later: { J.faults ≤ U.faults outlet },
    pub ghost higher: { rose ≡ true → Rose J.faults (U.faults outlet) },
}

impl<J: Begun, U: Outlet> Poured<J, U> {
    /// Before the threads.
    pub fn new(outlet: U) -> Poured<J, U>
        requires { J.faults ≡ U.faults outlet }
        ensures outlet { result.outlet ≡ outlet }
        ensures rose { result.rose ≡ false }
    {
        Poured {
            outlet,
            rose: false,
            of: PhantomData,
        }
    }

    /// Puts the lines of a delivery into its file, and says whether that was done.
    #[tactic(auto, using(crate::proofs::Faults::rose_since))]
    pub fn pour(&mut self, delivery: &Delivery) -> bool
        ensures poured { result ≡ true → (held : Files) → U.files self.old.outlet ≡ Some held →
            U.files self.new.outlet ≡ Some (poured delivery.now.file delivery.now.lines held) }
        ensures noted { result ≡ false → self.new.rose ≡ true }
        ensures kept { self.old.rose ≡ true → self.new.rose ≡ true }
    {
        let poured = pour(delivery, &mut self.outlet).is_ok();
        if !poured {
            self.rose = true;
        }
        poured
    }

    /// The outlet, and whether its count rose.
    pub fn into_parts(self) -> (U, bool)
        ensures later { J.faults ≤ U.faults result.0 }
        ensures rose { result.1 ≡ true → Rose J.faults (U.faults result.0) }
    {
        let Poured {
            outlet,
            rose,
            of: _,
        } = self;
        (outlet, rose)
    }
}
