//! What a compaction leaves of the logs (Kafka's compacted topics): it is made beside them, and then it is what they
//! hold.
ghost use Rattle.std.specs.Prelude.{◌≡◌, IfOk};
ghost use Rattle.std.specs.List.{AllByRecursion};
ghost use Rattle.cw_bytes.specs.Spelling.{AreRecords};
ghost use Rattle.cw_bytes.specs.Frames.{joined};
ghost use Rattle.cw_compact.specs.Left.{AreLeft};
ghost use Rattle.cw_config.specs.Compaction.{compact_configs};
ghost use Rattle.cw_offset.specs.Body.{HasRecords};
ghost use Rattle.cw_offset.specs.Compaction.{compact_offsets};
ghost use Rattle.cw_status.specs.Compaction.{compact_statuses};
ghost use Rattle.cw_topics.specs.Left.{IsLeftLog};

use crate::left_offsets::LeftOffsetLog;
use crate::offset_log::OffsetLog;
use crate::topics::Topics;
use cw_bytes::Applied;
use cw_compact::{LeftRecords, left_configs, left_statuses};
use cw_types::Listed;
use std::alloc::{AllocError, Global};
use std::collections::LinkedList;

impl Topics {
    /// What a compaction leaves of the config log.
    pub fn left_configs(&self, alloc: Global) -> Result<LeftRecords, AllocError>
        requires { AllByRecursion AreRecords (compact_configs self.now.config.frames) }
        ensures { IfOk result (AreLeft self.now.config.frames (compact_configs self.now.config.frames)) }
    {
        left_configs(alloc, &self.config)
    }

    /// The config log has these frames, on the side of this number.
    pub fn put_left_configs(&mut self, frames: LinkedList<Listed<Applied>>, side: u64)
        ensures { self.new ≡ record self.old { config = record { frames = frames; side = side } } }
    {
        self.config = frames;
        self.config_side = side;
    }

    /// What a compaction leaves of the status log.
    pub fn left_statuses(&self, alloc: Global) -> Result<LeftRecords, AllocError>
        requires { AllByRecursion AreRecords (compact_statuses self.now.status.frames) }
        ensures { IfOk result (AreLeft self.now.status.frames (compact_statuses self.now.status.frames)) }
    {
        left_statuses(alloc, &self.status)
    }

    /// The status log has these frames, on the side of this number.
    pub fn put_left_statuses(&mut self, frames: LinkedList<Listed<Applied>>, side: u64)
        ensures { self.new ≡ record self.old { status = record { frames = frames; side = side } } }
    {
        self.status = frames;
        self.status_side = side;
    }

    /// What a compaction leaves of the offset log.
    pub fn left_offsets(&self, alloc: Global) -> Result<LeftOffsetLog, AllocError>
        requires whole { self.now.entries.entries ≡ joined self.now.txn }
        requires written { AllByRecursion HasRecords
            (compact_offsets (joined self.now.txn) self.now.offsets.frames) }
        ensures { IfOk result (IsLeftLog self.now.offsets.frames
            (compact_offsets (joined self.now.txn) self.now.offsets.frames)) }
    {
        self.offsets.left(alloc, &self.txn, &self.coordinator)
    }

    /// This is the offset log.
    pub fn put_left_offsets(&mut self, log: OffsetLog)
        ensures { self.new ≡ record self.old { offsets = log } }
    {
        self.offsets = log;
    }
}
