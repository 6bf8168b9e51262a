//! How a frame of a log is read of its body.
ghost use Rattle.std.specs.Prelude.{◌≡◌, ◌≢◌, Some, None, MatchResult};
ghost use Rattle.cw_bytes.specs.Reading.{Read, body_at, records_at};
ghost use Rattle.cw_bytes.specs.Unread.{Unread};
ghost use Rattle.cw_bytes.specs.declared.body.BodyFault.{BodyFault as Fault};
ghost use Rattle.cw_offset.specs.BodyReading.{entry_at as stored_at};
ghost use Rattle.cw_data.specs.BodyReading.{entry_at as data_at};
ghost use Rattle.cw_txn.specs.BodyReading.{entries_at};
ghost use Rattle.cw_open.specs.FoundFrames.{Answers};

use cw_bytes::{Applied, BodyFault, read_record_body};
use cw_data::{DataEntry, read_data};
use cw_offset::{OffsetEntry, read_offsets};
use cw_txn::{BodyFault as EntriesFault, Entry, read_entries};
use cw_types::Listed;
use std::alloc::Global;

/// A frame of a log: how it is read of a body.
pub(crate) trait LogFrame: Drop {
    /// How it is read from left to right.
    ghost at: { Unread → Read Self };

    /// Reads a body. NotBody comes exactly where it can't be read.
    fn read(alloc: Global, body: &[u8]) -> Result<Self, BodyFault>
        ensures { Answers at body.now result };
}

impl LogFrame for Listed<Applied> {
    ghost at = { records_at };

    fn read(alloc: Global, body: &[u8]) -> Result<Self, BodyFault> {
        read_listed(alloc, body)
    }
}

impl LogFrame for OffsetEntry {
    ghost at = { stored_at };

    fn read(alloc: Global, body: &[u8]) -> Result<Self, BodyFault> {
        read_stored(alloc, body)
    }
}

impl LogFrame for Listed<Entry> {
    ghost at = { entries_at };

    fn read(alloc: Global, body: &[u8]) -> Result<Self, BodyFault> {
        read_listed_entries(alloc, body)
    }
}

impl LogFrame for DataEntry {
    ghost at = { data_at };

    fn read(alloc: Global, body: &[u8]) -> Result<Self, BodyFault> {
        read_entry(alloc, body)
    }
}

// A frame of the config log or the status log.
fn read_listed(alloc: Global, body: &[u8]) -> Result<Listed<Applied>, BodyFault>
    ensures { Answers records_at body.now result }
{
    match read_record_body(alloc, body) {
        Ok(records) => Ok(Listed::new(records)),
        Err(BodyFault::NotBody) => Err(BodyFault::NotBody),
        Err(BodyFault::Memory) => Err(BodyFault::Memory),
    }
}

// A frame of the offset log.
fn read_stored(alloc: Global, body: &[u8]) -> Result<OffsetEntry, BodyFault>
    ensures { Answers stored_at body.now result }
{
    match read_offsets(alloc, body) {
        Ok(entry) => Ok(entry),
        Err(BodyFault::NotBody) => Err(BodyFault::NotBody),
        Err(BodyFault::Memory) => Err(BodyFault::Memory),
    }
}

// A frame of the transaction log.
fn read_listed_entries(alloc: Global, body: &[u8]) -> Result<Listed<Entry>, BodyFault>
    ensures { Answers entries_at body.now result }
{
    match read_entries(alloc, body) {
        Ok(entries) => Ok(Listed::new(entries)),
        Err(EntriesFault::NotEntries) => Err(BodyFault::NotBody),
        Err(EntriesFault::Memory) => Err(BodyFault::Memory),
    }
}

// A frame of the data log.
fn read_entry(alloc: Global, body: &[u8]) -> Result<DataEntry, BodyFault>
    ensures { Answers data_at body.now result }
{
    match read_data(alloc, body) {
        Ok(entry) => Ok(entry),
        Err(BodyFault::NotBody) => Err(BodyFault::NotBody),
        Err(BodyFault::Memory) => Err(BodyFault::Memory),
    }
}
