//! The leader marks how transactions ended, in the log that holds their records (KIP-98, control records).
ghost use Rattle.std.specs.Prelude.{◌≡◌, Ok, true, IfOk, IfErr, OnOk, MatchResult, Contains, option_copied};
ghost use Rattle.cw_data.specs.Body.{entry_bytes};
ghost use Rattle.cw_offset.specs.Body.{HasRecords, entry_bytes as offset_body};
ghost use Rattle.cw_offset.specs.Replay.{told_in};
ghost use Rattle.cw_model.specs.Bodies.{frame_of, has_room};
ghost use Rattle.cw_model.specs.EventsMarking.{mark, unmarked_in, MayMark};
ghost use Rattle.cw_types.specs.declared.logs.LogName.TheVariants as log;
ghost use Rattle.cw_model.specs.declared.fault.WorldFault.TheVariants as fault;
ghost use Rattle.cw_rows.specs.Kept.{open_test};
ghost use Rattle.cw_rows.specs.Marking.{data_marker};
ghost use Rattle.cw_rows.specs.Offsets.{offset_marker};
ghost use Rattle.cw_rows.specs.Writes.{bytes_in, Readies, Refuses, Puts};

use crate::cluster::Cluster;
use cw_bytes::Mark;
use cw_data::DataEntry;
use cw_model::WorldFault;
use cw_offset::OffsetEntry;
use cw_topics::{DataFrame, OffsetFrame};
use cw_types::Tag;

impl Cluster {
    /// Takes the memory of the next marker of the data log, and writes its frame.
    pub fn ready_data_mark(&mut self) -> Result<DataFrame, WorldFault>
        requires { MayMark log.Batches self.old.state }
        ensures due { MatchResult result
            (λ frame. Readies log.Batches (mark log.Batches) (entry_bytes frame) self.old self.new)
            (λ fault. Refuses (mark log.Batches) fault self.old self.new) }
        ensures passed { OnOk result (open_test self.old.state.closed (Ok tt) ≡ Ok tt) }
        ensures frame { IfOk result (λ frame. frame ≡ data_marker self.old.state) }
        ensures ready { IfOk result (λ frame. Contains self.new.ready_data frame) }
    {
        self.test_open()?;
        let marker = self.data_marker()?;
        let frame = self.ready_data(marker)?;
        Ok(frame)
    }

    /// Puts in the marker that was written to the data log: the answer is its transaction, and whether that is
    /// committed.
    pub fn put_data_mark(&mut self, frame: DataFrame) -> (Tag, bool)
        requires passed { open_test self.old.state.closed (Ok tt) ≡ Ok tt }
        requires frame { frame ≡ data_marker self.old.state }
        requires ready { Contains self.old.ready_data frame }
        requires room { has_room (bytes_in log.Batches self.old.state) (frame_of (entry_bytes frame)) ≡ true }
        ensures { Puts (mark log.Batches) result self.old self.new }
    {
        match frame.into_entry() {
            DataEntry::Mark { tag, committed } => {
                self.topics.put_data_mark(&tag, committed);
                (tag, committed)
            }
            DataEntry::Batch(_) => unreachable!(),
        }
    }

    /// Takes the memory of the next marker of the offset log, and writes its frame.
    pub fn ready_offset_mark(&mut self) -> Result<OffsetFrame, WorldFault>
        requires { MayMark log.Offsets self.old.state }
        ensures due { MatchResult result
            (λ frame. Readies log.Offsets (mark log.Offsets) (offset_body frame) self.old self.new)
            (λ fault. Refuses (mark log.Offsets) fault self.old self.new) }
        ensures passed { OnOk result (open_test self.old.state.closed (Ok tt) ≡ Ok tt) }
        ensures frame { IfOk result (λ frame. frame ≡ offset_marker self.old.state) }
        ensures ready { IfOk result (λ frame. self.new.told.reserved ≡ told_in frame) }
    {
        self.test_open()?;
        let marker = self.offset_marker()?;
        let frame = self.ready_offset(marker)?;
        Ok(frame)
    }

    /// Puts in the marker that was written to the offset log: the answer is its transaction, and whether that is
    /// committed.
    pub fn put_offset_mark(&mut self, frame: OffsetFrame) -> (Tag, bool)
        requires passed { open_test self.old.state.closed (Ok tt) ≡ Ok tt }
        requires frame { frame ≡ offset_marker self.old.state }
        requires ready { self.old.told.reserved ≡ told_in frame }
        requires room { has_room (bytes_in log.Offsets self.old.state) (frame_of (offset_body frame)) ≡ true }
        ensures { Puts (mark log.Offsets) result self.old self.new }
    {
        match self.topics.put_offset(frame) {
            OffsetEntry::Mark(mark) => (mark.tag, mark.committed),
            OffsetEntry::Records { .. } => unreachable!(),
        }
    }

    /// The first transaction of the offset log, by its place there, that has ended and isn't marked.
    pub fn unmarked_offset(&self) -> Option<&Tag>
        ensures { option_copied result ≡ unmarked_in log.Offsets self.now.state }
    {
        self.topics
            .offsets()
            .first_unmarked(self.topics.coordinator())
    }

    // The next marker of the offset log.
    fn offset_marker(&self) -> Result<OffsetEntry, WorldFault>
        requires { MayMark log.Offsets self.now.state }
        ensures marker { IfOk result (λ marker. marker ≡ offset_marker self.now.state) }
        ensures records { IfOk result (λ marker. HasRecords marker) }
        ensures memory { IfErr result (λ why. why ≡ fault.Memory) }
    {
        let Some(tag) = self.unmarked_offset() else {
            unreachable!();
        };
        let committed = self.topics.coordinator().is_committed(tag);
        match tag.copy() {
            Ok(tag) => Ok(OffsetEntry::Mark(Mark { tag, committed })),
            Err(_) => Err(WorldFault::Memory),
        }
    }

    // The next marker of the data log.
    fn data_marker(&self) -> Result<DataEntry, WorldFault>
        requires { MayMark log.Batches self.now.state }
        ensures marker { IfOk result (λ marker. marker ≡ data_marker self.now.state) }
        ensures memory { IfErr result (λ why. why ≡ fault.Memory) }
    {
        let coordinator = self.topics.coordinator();
        let Some(tag) = self.topics.data().first_unmarked(coordinator) else {
            unreachable!();
        };
        let committed = coordinator.is_committed(tag);
        match tag.copy() {
            Ok(tag) => Ok(DataEntry::Mark { tag, committed }),
            Err(_) => Err(WorldFault::Memory),
        }
    }
}
