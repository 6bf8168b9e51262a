//! A frame of the data log.
ghost use Rattle.std.specs.Prelude.{◌≡◌, length, ◌≤◌, IfOk};
ghost use Rattle.cw_data.specs.Body.{IsShort, entry_bytes};
ghost use Rattle.cw_data.specs.declared.entry.DataEntry.{DataEntry};

use cw_data::{DataEntry, write_data};
use std::alloc::{AllocError, Global};
use std::marker::Model;

/// A frame of the data log: its entry, and its bytes. Clauses see its entry.
#[derive(Drop)]
pub struct DataFrame {
    pub(crate) entry: DataEntry,
    body: Vec<u8>,
}

impl Model for DataFrame {
    ghost use Rattle.std.specs.Prelude.{◌≡◌};
    ghost use Rattle.cw_data.specs.Body.{entry_bytes};
    ghost use Rattle.cw_data.specs.declared.entry.DataEntry.{DataEntry};

    ghost Value = { DataEntry };

    ghost view = { λ f. f.entry };

    ghost invariant = { λ f. f.body.items ≡ entry_bytes f.entry };
}

impl DataFrame {
    /// The frame of an entry.
    pub(crate) fn new(alloc: Global, entry: DataEntry) -> Result<DataFrame, AllocError>
        requires { IsShort entry }
        ensures { IfOk result (λ frame. frame ≡ entry) }
    {
        let body = write_data(alloc, &entry)?;
        Ok(DataFrame { entry, body })
    }

    /// Its bytes.
    pub fn body(&self) -> &[u8]
        ensures bytes { result.now ≡ entry_bytes self.now }
        ensures some { 1 ≤ length result.now }
    {
        self.body.as_slice()
    }

    /// Its entry, once its bytes stand in the log.
    pub fn into_entry(self) -> DataEntry
        ensures { result ≡ self }
    {
        self.entry
    }
}
