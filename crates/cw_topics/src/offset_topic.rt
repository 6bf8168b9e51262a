//! One entry more in the offset log: its memory is taken, and once it stands there it is put in.
ghost use Rattle.std.specs.Prelude.{◌≡◌, ◌<◌, ◌^◌, ◌++◌, ◌∷◌, [], length, Some, false, IfOk, OnOk};
ghost use Rattle.std.specs.List.{flat_map};
ghost use Rattle.cw_types.specs.declared.ids.Tag.{Tag as TagValue};
ghost use Rattle.cw_bytes.specs.Frames.{next_after};
ghost use Rattle.cw_offset.specs.Body.{HasRecords};
ghost use Rattle.cw_offset.specs.Log.{offset_tag, offset_records, is_marked};
ghost use Rattle.cw_offset.specs.Replay.{told_in};
ghost use Rattle.cw_topics.specs.Offsets.{IsNext};

use crate::offset_frame::OffsetFrame;
use crate::topics::Topics;
use cw_offset::OffsetEntry;
use std::alloc::{AllocError, Global};

impl Topics {
    /// The next offset of the offset log; none where all are used.
    pub fn next_offset(&self) -> Option<u64>
        ensures { IsNext (next_after (flat_map offset_records self.now.offsets.frames)) result }
    {
        self.offsets.next()
    }

    /// Takes the memory of an entry of the offset log, and writes its frame.
    pub fn ready_offset(
        &mut self,
        alloc: Global,
        entry: OffsetEntry,
    ) -> Result<OffsetFrame, AllocError>
        requires { HasRecords entry }
        ensures same { self.new ≡ record self.old {
          offsets = record self.old.offsets {
            told = record self.old.offsets.told { reserved = self.new.offsets.told.reserved };
          };
        } }
        ensures frame { IfOk result (λ frame. frame ≡ entry) }
        ensures ready { OnOk result (self.new.offsets.told.reserved ≡ told_in entry) }
    {
        let frame = OffsetFrame::new(alloc, entry)?;
        self.offsets.reserve(frame.calls())?;
        Ok(frame)
    }

    /// Puts in an entry that stands in the offset log, and gives it back. It takes no memory.
    pub fn put_offset(&mut self, frame: OffsetFrame) -> OffsetEntry
        requires ready { self.old.offsets.told.reserved ≡ told_in frame }
        requires unmarked { (tag : TagValue) → offset_tag frame ≡ Some tag →
            is_marked tag self.old.offsets.frames ≡ false }
        requires few { length self.old.offsets.frames < 2 ^ 62 }
        ensures put { self.new ≡ record self.old {
          offsets = record self.old.offsets {
            frames = self.old.offsets.frames ++ frame ∷ [];
            told = record {
              calls = self.old.offsets.told.calls ++ told_in frame;
              reserved = [];
            };
          };
        } }
        ensures entry { result ≡ frame }
    {
        self.offsets.put(frame)
    }
}
