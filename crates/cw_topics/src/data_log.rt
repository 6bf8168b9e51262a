//! One entry more in the data log: its memory is taken, and once it stands there it is put in.
ghost use Rattle.std.specs.Prelude.{◌≡◌, ◌++◌, ◌∷◌, [], ◌+◌, ◌<◌, ◌^◌, length, true, map, IfOk, OnOk, OnErr, Contains};
ghost use Rattle.cw_data.specs.Body.{IsShort, entry_bytes};
ghost use Rattle.cw_data.specs.DataLog.{Adds};
ghost use Rattle.cw_data.specs.Log.{records};
ghost use Rattle.cw_data.specs.declared.entry.DataEntry.TheVariants as entry;
ghost use Rattle.cw_log.specs.Log.{length_of};
ghost use Rattle.cw_model.specs.Bodies.{frame_of, has_room};

use crate::data_frame::DataFrame;
use crate::topics::Topics;
use cw_data::{Batch, DataEntry, DataState};
use cw_types::Tag;
use std::alloc::{AllocError, Global};

impl Topics {
    /// Takes the memory of an entry of the data log, and writes its frame.
    pub fn ready_data(&mut self, alloc: Global, entry: DataEntry) -> Result<DataFrame, AllocError>
        requires { IsShort entry }
        ensures same { self.new ≡ record self.old {
          batches = record self.old.batches { reserved = self.new.batches.reserved };
        } }
        ensures frame { IfOk result (λ frame. frame ≡ entry) }
        ensures ready { OnOk result (Contains self.new.batches.reserved entry) }
    {
        self.data.unreserve();
        reserve_entry(&mut self.data, &entry)?;
        DataFrame::new(alloc, entry)
    }

    /// Puts in a batch that stands in the data log.
    pub fn put_batch(&mut self, batch: Batch)
        requires ready { Contains self.old.batches.reserved (entry.Batch batch) }
        requires room { has_room (length_of (map entry_bytes self.old.batches.entries))
            (frame_of (entry_bytes (entry.Batch batch))) ≡ true }
        ensures { self.new ≡ record self.old {
          batches = record {
            entries = self.old.batches.entries ++ entry.Batch batch ∷ [];
            reserved = self.new.batches.reserved;
          };
        } }
    {
        match self.data.batch(batch) {
            Ok(()) => {}
            Err(_) => unreachable!(),
        }
    }

    /// Puts in a marker that stands in the data log.
    pub fn put_data_mark(&mut self, tag: &Tag, committed: bool)
        requires { Contains self.old.batches.reserved (entry.Mark tag.now committed) }
        ensures { self.new ≡ record self.old {
          batches = record {
            entries = self.old.batches.entries ++ entry.Mark tag.now committed ∷ [];
            reserved = self.new.batches.reserved;
          };
        } }
    {
        match self.data.mark(tag, committed) {
            Ok(()) => {}
            Err(_) => unreachable!(),
        }
    }
}

// Makes room for an entry.
fn reserve_entry(data: &mut DataState, entry: &DataEntry) -> Result<(), AllocError>
    ensures ok { OnOk result (data.new ≡ record data.old { reserved = data.old.reserved ++ entry.now ∷ [] }) }
    ensures err { OnErr result (data.new ≡ data.old) }
{
    match entry {
        DataEntry::Batch(batch) => data.reserve_batch(batch),
        DataEntry::Mark { tag, committed } => data.reserve_mark(tag, *committed),
    }
}
