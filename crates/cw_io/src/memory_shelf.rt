//! A shelf in memory. It tells all, and fails at the calls that it is told to.
ghost use Rattle.std.specs.Prelude.{◌≡◌, ◌≤◌, ◌||◌, [], IfOk, OnOk, OnErr};
ghost use Rattle.std.specs.Option.{is_none};
ghost use Rattle.cw_types.specs.Faults.{Rose};
ghost use Rattle.cw_io.specs.Calls.{no_calls, is_listed, after_call};
ghost use Rattle.cw_io.specs.Shelf.{with_file, names_of, bytes_of, AreRising};
ghost use Rattle.cw_io.specs.Memory.{is_failed};

use crate::call_plan::CallPlan;
use crate::shelf::{Shelf, ShelfFault};
use cw_types::{Listed, Name};
use std::alloc::{AllocError, Global};
use std::collections::BTreeMap;
use std::marker::Model;

/// A shelf in memory.
#[derive(Drop)]
pub struct MemShelf {
    alloc: Global,
    files: BTreeMap<Name, Listed<u8>>,
    calls: CallPlan,
}

impl Model for MemShelf {
    ghost use Rattle.cw_io.specs.Memory.{ShelfState};

    ghost Value = { ShelfState };

    ghost view = { λ s. record { files = s.files.entries; calls = s.calls } };
}

impl MemShelf {
    /// A shelf without files, which fails at the calls whose numbers are in `failing`, counted from 0 over
    /// the calls that read it.
    pub fn new(alloc: Global, failing: Vec<u64>) -> MemShelf
        ensures files { result.files ≡ [] }
        ensures calls { result.calls ≡ no_calls failing.items }
    {
        MemShelf {
            alloc,
            files: BTreeMap::new(alloc),
            calls: CallPlan::new(failing),
        }
    }

    /// Puts a file on it, in place of one of its name.
    pub fn put(&mut self, name: Name, bytes: Vec<u8>) -> Result<(), AllocError>
        ensures put { OnOk result (self.new.files ≡ with_file name bytes.items self.old.files) }
        ensures kept { OnErr result (self.new.files ≡ self.old.files) }
        ensures calls { self.new.calls ≡ self.old.calls }
    {
        self.files.insert(name, Listed::new(bytes))?;
        Ok(())
    }

    /// How many calls failed.
    pub fn faults(&self) -> u64
        ensures { result ≡ self.now.calls.faults }
    {
        self.calls.faults()
    }

    // Copies of the names.
    fn copied_names(&self) -> Result<Vec<Name>, AllocError>
        ensures names { IfOk result (λ names. names.items ≡ names_of self.now.files) }
        ensures rising { IfOk result (λ names. AreRising names.items) }
    {
        let mut names = Vec::new(self.alloc);
        for name in self.files.keys() {
            names.push(name.copy()?)?;
        }
        Ok(names)
    }
}

impl Shelf for MemShelf {
    ghost use Rattle.std.specs.Prelude.{Some};

    ghost files = { λ s. Some s.files };

    ghost faults = { λ s. s.calls.faults };

    fn names(&mut self) -> Result<Vec<Name>, ShelfFault>
        ensures names { IfOk result (λ names. names.items ≡ names_of self.old.files) }
        ensures rising { IfOk result (λ names. AreRising names.items) }
        ensures kept { self.new.files ≡ self.old.files }
        ensures listed { is_failed result ≡ is_listed self.old.calls }
        ensures calls { self.new.calls ≡ after_call (is_failed result) self.old.calls }
        ensures later { self.old.calls.faults ≤ self.new.calls.faults }
        ensures rose { result ≡ Err ShelfFault.Failed → Rose self.old.calls.faults self.new.calls.faults }
    {
        if self.calls.fails_next() {
            return Err(ShelfFault::Failed);
        }
        Ok(self.copied_names()?)
    }

    fn load(&mut self, name: &Name) -> Result<Vec<u8>, ShelfFault>
        ensures bytes { IfOk result (λ bytes. bytes_of name.now self.old.files ≡ Some bytes.items) }
        ensures kept { self.new.files ≡ self.old.files }
        ensures failed { is_failed result ≡ is_listed self.old.calls || is_none (bytes_of name.now self.old.files) }
        ensures calls { self.new.calls ≡ after_call (is_failed result) self.old.calls }
        ensures later { self.old.calls.faults ≤ self.new.calls.faults }
        ensures rose { result ≡ Err ShelfFault.Failed → Rose self.old.calls.faults self.new.calls.faults }
    {
        if self.calls.fails_next() {
            return Err(ShelfFault::Failed);
        }
        match self.files.get(name) {
            Some(bytes) => Ok(bytes.as_slice().to_vec(self.alloc)?),
            None => {
                self.calls.count_fault();
                Err(ShelfFault::Failed)
            }
        }
    }
}
