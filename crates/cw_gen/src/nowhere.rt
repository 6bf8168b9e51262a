//! The outside of a script that needs none.
ghost use Rattle.std.specs.Prelude.{None, Some, []};

use cw_io::{Failed, Outlet, Shelf, ShelfFault};
use cw_types::Name;
use std::alloc::Global;

/// Takes what sinks' tasks hand out, and keeps nothing of it. It never fails.
#[derive(Drop)]
pub(crate) struct Nowhere;

impl Outlet for Nowhere {
    ghost files = { λ _. None };

    ghost faults = { λ _. 0 };

    fn append(&mut self, _file: &Name, _line: &[u8]) -> Result<(), Failed> {
        Ok(())
    }
}

/// A shelf without feeds, which never fails.
#[derive(Drop)]
pub(crate) struct BareShelf {
    pub(crate) alloc: Global,
}

impl Shelf for BareShelf {
    ghost files = { λ _. Some [] };

    ghost faults = { λ _. 0 };

    fn names(&mut self) -> Result<Vec<Name>, ShelfFault> {
        Ok(Vec::new(self.alloc))
    }

    // It has no file of any name, so that nobody asks for one.
    fn load(&mut self, _name: &Name) -> Result<Vec<u8>, ShelfFault> {
        Err(ShelfFault::Memory)
    }
}
