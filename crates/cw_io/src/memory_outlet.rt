//! An outlet in memory. It tells all, and fails at the calls that it is told to.
ghost use Rattle.std.specs.Prelude.{◌≡◌, ◌≤◌, ◌⊎◌, ◌++◌, [], true, false, IfOk, OnOk, OnErr, is_err};
ghost use Rattle.std.specs.Option.{option_copied, unwrap_or};
ghost use Rattle.cw_types.specs.Faults.{Rose};
ghost use Rattle.cw_io.specs.Calls.{no_calls, is_listed, after_call};
ghost use Rattle.cw_io.specs.Shelf.{bytes_of};
ghost use Rattle.cw_io.specs.Outlet.{appended, line_bytes, half_of, IsAppendedInPart};

use crate::call_plan::CallPlan;
use crate::outlet::Outlet;
use crate::traits::Failed;
use cw_types::{Listed, Name};
use std::alloc::{AllocError, Global};
use std::collections::BTreeMap;
use std::marker::Model;

/// An outlet in memory.
#[derive(Drop)]
pub struct MemOutlet {
    alloc: Global,
    files: BTreeMap<Name, Listed<u8>>,
    calls: CallPlan,
}

impl Model for MemOutlet {
    ghost use Rattle.cw_io.specs.Memory.{ShelfState};

    ghost Value = { ShelfState };

    ghost view = { λ o. record { files = o.files.entries; calls = o.calls } };
}

impl MemOutlet {
    /// An outlet without files, which fails at the calls whose numbers are in `failing`, counted from 0.
    /// Such a call leaves the first half of its line. Want of memory is a failure too.
    pub fn new(alloc: Global, failing: Vec<u64>) -> MemOutlet
        ensures files { result.files ≡ [] }
        ensures calls { result.calls ≡ no_calls failing.items }
    {
        MemOutlet {
            alloc,
            files: BTreeMap::new(alloc),
            calls: CallPlan::new(failing),
        }
    }

    /// What the file of this name holds, where there is one.
    pub fn file(&self, name: &Name) -> Option<&[u8]>
        ensures { option_copied result ≡ bytes_of name.now self.now.files }
    {
        match self.files.get(name) {
            Some(bytes) => Some(bytes.as_slice()),
            None => None,
        }
    }

    /// How many calls failed.
    pub fn faults(&self) -> u64
        ensures { result ≡ self.now.calls.faults }
    {
        self.calls.faults()
    }

    // A copy of what the file of this name holds, with more behind it.
    fn with_more(&self, name: &Name, more: &[u8]) -> Result<Vec<u8>, AllocError>
        ensures { IfOk result (λ bytes. bytes.items ≡ unwrap_or (bytes_of name.now self.now.files) [] ++ more.now) }
    {
        let mut bytes = Vec::new(self.alloc);
        if let Some(held) = self.files.get(name) {
            bytes.extend_from_slice(held.as_slice())?;
        }
        bytes.extend_from_slice(more)?;
        Ok(bytes)
    }

    // Puts more at the end of the file of this name, which is made where there is none.
    fn add(&mut self, name: &Name, more: &[u8]) -> Result<(), AllocError>
        ensures added { OnOk result (self.new.files ≡ appended name.now more.now self.old.files) }
        ensures kept { OnErr result (self.new.files ≡ self.old.files) }
        ensures calls { self.new.calls ≡ self.old.calls }
    {
        let bytes = self.with_more(name, more)?;
        self.files.insert(name.copy()?, Listed::new(bytes))?;
        Ok(())
    }

    // Puts a line and its end at the end of the file of this name.
    fn add_line(&mut self, name: &Name, line: &[u8]) -> Result<(), AllocError>
        ensures added { OnOk result (self.new.files ≡ appended name.now (line_bytes line.now) self.old.files) }
        ensures kept { OnErr result (self.new.files ≡ self.old.files) }
        ensures calls { self.new.calls ≡ self.old.calls }
    {
        let mut bytes = line.to_vec(self.alloc)?;
        bytes.push(b'\n')?;
        self.add(name, &bytes)
    }

    // Puts the first half of a line at the end of the file of this name. Want of memory leaves nothing of it.
    fn add_half(&mut self, name: &Name, line: &[u8])
        ensures half { (self.new.files ≡ self.old.files)
            ⊎ (self.new.files ≡ appended name.now (half_of line.now) self.old.files) }
        ensures calls { self.new.calls ≡ self.old.calls }
    {
        let _ = self.add(name, &line[..line.len() / 2]);
    }
}

impl Outlet for MemOutlet {
    ghost use Rattle.std.specs.Prelude.{Some};

    ghost files = { λ o. Some o.files };

    ghost faults = { λ o. o.calls.faults };

    fn append(&mut self, file: &Name, line: &[u8]) -> Result<(), Failed>
        ensures appended { OnOk result (self.new.files ≡ appended file.now (line_bytes line.now) self.old.files) }
        ensures in_part { OnErr result
            (IsAppendedInPart file.now (line_bytes line.now) self.old.files self.new.files) }
        ensures listed { is_listed self.old.calls ≡ true → is_err result ≡ true }
        ensures half { is_listed self.old.calls ≡ true → (self.new.files ≡ self.old.files)
            ⊎ (self.new.files ≡ appended file.now (half_of line.now) self.old.files) }
        ensures unlisted { is_listed self.old.calls ≡ false → OnErr result (self.new.files ≡ self.old.files) }
        ensures calls { self.new.calls ≡ after_call (is_err result) self.old.calls }
        ensures later { self.old.calls.faults ≤ self.new.calls.faults }
        ensures rose { OnErr result (Rose self.old.calls.faults self.new.calls.faults) }
    {
        if self.calls.fails_next() {
            self.add_half(file, line);
            return Err(Failed);
        }
        match self.add_line(file, line) {
            Ok(()) => Ok(()),
            Err(_) => {
                self.calls.count_fault();
                Err(Failed)
            }
        }
    }
}
