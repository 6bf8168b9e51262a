//! The memory half of a compaction (Kafka's compacted topics): what it leaves of a log is made first, which changes
//! nothing, and once it stands on the log's other side it is put in, which can't fail.
ghost use Rattle.std.specs.Prelude.{◌≡◌, ◌+◌, None, IfOk, IfErr};
ghost use Rattle.std.specs.List.{AllByRecursion};
ghost use Rattle.cw_bytes.specs.Spelling.{AreRecords};
ghost use Rattle.cw_bytes.specs.Frames.{joined};
ghost use Rattle.cw_compact.specs.Left.{AreLeft};
ghost use Rattle.cw_config.specs.Compaction.{compact_configs};
ghost use Rattle.cw_offset.specs.Body.{HasRecords};
ghost use Rattle.cw_offset.specs.Compaction.{compact_offsets};
ghost use Rattle.cw_status.specs.Compaction.{compact_statuses};
ghost use Rattle.cw_types.specs.declared.logs.LogName.TheVariants as log;
ghost use Rattle.cw_model.specs.declared.fault.WorldFault.TheVariants as fault;
ghost use Rattle.cw_model.specs.EventsCompaction.{compact};
ghost use Rattle.cw_topics.specs.Left.{IsLeftLog};
ghost use Rattle.cw_rows.specs.Writes.{Puts};

use crate::cluster::Cluster;
use cw_compact::LeftRecords;
use cw_model::WorldFault;
use cw_topics::LeftOffsetLog;

impl Cluster {
    /// What a compaction leaves of the config log.
    pub fn left_configs(&self) -> Result<LeftRecords, WorldFault>
        requires { AllByRecursion AreRecords (compact_configs self.now.state.config.frames) }
        ensures left { IfOk result (AreLeft self.now.state.config.frames
            (compact_configs self.now.state.config.frames)) }
        ensures memory { IfErr result (λ why. why ≡ fault.Memory) }
    {
        match self.topics.left_configs(self.alloc) {
            Ok(left) => Ok(left),
            Err(_) => Err(WorldFault::Memory),
        }
    }

    /// Puts in what a compaction left of the config log, which stands on the side of this number: the answer is how
    /// many records there were, and are.
    pub fn put_left_configs(&mut self, left: LeftRecords, side: u64) -> (u64, u64)
        requires left { AreLeft self.old.state.config.frames (compact_configs self.old.state.config.frames) left }
        requires side { side ≡ self.old.state.config.side + 1 }
        requires alive { self.old.state.closed ≡ None }
        ensures { Puts (compact log.Config) result self.old self.new }
    {
        self.topics.put_left_configs(left.frames, side);
        (left.before, left.after)
    }

    /// What a compaction leaves of the status log.
    pub fn left_statuses(&self) -> Result<LeftRecords, WorldFault>
        requires { AllByRecursion AreRecords (compact_statuses self.now.state.status.frames) }
        ensures left { IfOk result (AreLeft self.now.state.status.frames
            (compact_statuses self.now.state.status.frames)) }
        ensures memory { IfErr result (λ why. why ≡ fault.Memory) }
    {
        match self.topics.left_statuses(self.alloc) {
            Ok(left) => Ok(left),
            Err(_) => Err(WorldFault::Memory),
        }
    }

    /// Puts in what a compaction left of the status log, which stands on the side of this number: the answer is how
    /// many records there were, and are.
    pub fn put_left_statuses(&mut self, left: LeftRecords, side: u64) -> (u64, u64)
        requires left { AreLeft self.old.state.status.frames (compact_statuses self.old.state.status.frames) left }
        requires side { side ≡ self.old.state.status.side + 1 }
        requires alive { self.old.state.closed ≡ None }
        ensures { Puts (compact log.Status) result self.old self.new }
    {
        self.topics.put_left_statuses(left.frames, side);
        (left.before, left.after)
    }

    /// What a compaction leaves of the offset log, beside the transaction list, which is what the transaction log's
    /// frames hold.
    pub fn left_offsets(&self) -> Result<LeftOffsetLog, WorldFault>
        requires whole { joined self.now.state.txn ≡ self.now.state.entries }
        requires written { AllByRecursion HasRecords
            (compact_offsets self.now.state.entries self.now.state.offsets.frames) }
        ensures left { IfOk result (IsLeftLog self.now.state.offsets.frames
            (compact_offsets self.now.state.entries self.now.state.offsets.frames)) }
        ensures memory { IfErr result (λ why. why ≡ fault.Memory) }
    {
        match self.topics.left_offsets(self.alloc) {
            Ok(left) => Ok(left),
            Err(_) => Err(WorldFault::Memory),
        }
    }

    /// Puts in what a compaction left of the offset log, which stands on the side of this number: the answer is how
    /// many records there were, and are. Markers aren't counted.
    pub fn put_left_offsets(&mut self, left: LeftOffsetLog, side: u64) -> (u64, u64)
        requires left { IsLeftLog self.old.state.offsets.frames
            (compact_offsets self.old.state.entries self.old.state.offsets.frames) left }
        requires side { side ≡ self.old.state.offsets.side + 1 }
        requires alive { self.old.state.closed ≡ None }
        ensures { Puts (compact log.Offsets) result self.old self.new }
    {
        let counts = left.counts();
        self.topics.put_left_offsets(left.into_log(side));
        counts
    }
}
