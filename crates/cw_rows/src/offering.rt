//! A task writes the offset behind its records to the offset log, in the same transaction (KIP-618).
ghost use Rattle.std.specs.Prelude.{◌≡◌, ◌≢◌, ◌<◌, ◌^◌, ◌∷◌, [], ℕ, length, None, Some, Ok, Err, true, false, IfOk};
ghost use Rattle.std.specs.Prelude.{IfErr, OnOk, MatchResult};
ghost use Rattle.cw_types.specs.declared.logs.LogName.TheVariants as log;
ghost use Rattle.cw_bytes.specs.Spelling.{IsRecord};
ghost use Rattle.cw_keys.specs.Parts.{is_raw};
ghost use Rattle.cw_offset.specs.Body.{HasRecords, entry_bytes};
ghost use Rattle.cw_offset.specs.Log.{is_marked};
ghost use Rattle.cw_offset.specs.Replay.{told_in};
ghost use Rattle.cw_offset.specs.declared.body.OffsetEntry.TheVariants as entry;
ghost use Rattle.cw_model.specs.Answers.{refused};
ghost use Rattle.cw_model.specs.Bodies.{frame_of, has_room};
ghost use Rattle.cw_model.specs.EventsSources.{put_offsets};
ghost use Rattle.cw_model.specs.Lookups.{instance_of};
ghost use Rattle.cw_model.specs.Tasks.{tag_of, span_of};
ghost use Rattle.cw_model.specs.Updates.{next_offset};
ghost use Rattle.cw_model.specs.declared.fault.WorldFault.{WorldFault as FaultValue};
ghost use Rattle.cw_model.specs.declared.fault.WorldFault.TheVariants as fault;
ghost use Rattle.cw_topics.specs.Offsets.{IsNext};
ghost use Rattle.cw_rows.specs.Offsets.{offered, record_at};
ghost use Rattle.cw_rows.specs.Producing.{writing_test};
ghost use Rattle.cw_rows.specs.Writes.{bytes_in, Readies, Refuses, Puts};

use crate::cluster::Cluster;
use crate::sources::span_of;
use cw_bytes::Applied;
use cw_keys::{write_offset, write_part};
use cw_model::{Instance, InstancePhase, WorldFault};
use cw_offset::{OffsetEntry, write_offsets};
use cw_topics::OffsetFrame;
use cw_types::{Listed, LogName, Span, Tag};
use std::alloc::{AllocError, Global};

impl Cluster {
    /// Takes the memory of the offset behind what a task took last, and writes its frame. The offset log has so many
    /// bytes; where no record of it has an offset left, it is full.
    pub fn ready_put_offsets(&mut self, i: u64, bytes: u64) -> Result<OffsetFrame, WorldFault>
        requires there { i < length self.old.state.instances }
        requires part { is_raw (span_of (instance_of i self.old.state)).part ≡ false }
        requires bytes { self.old.state.closed ≡ None → bytes ≡ bytes_in log.Offsets self.old.state }
        ensures due { MatchResult result
            (λ frame. Readies log.Offsets (put_offsets i) (entry_bytes frame) self.old self.new)
            (λ fault. Refuses (put_offsets i) fault self.old self.new) }
        ensures passed { OnOk result (writing_test i self.old.state ≡ Ok tt) }
        ensures fits { OnOk result (next_offset self.old.state < 2 ^ 64) }
        ensures frame { IfOk result (λ frame. frame ≡ offered i self.old.state) }
        ensures ready { IfOk result (λ frame. self.new.told.reserved ≡ told_in frame) }
    {
        let entry = self.offered(i, bytes)?;
        let frame = self.ready_offset(entry)?;
        Ok(frame)
    }

    /// Puts in the offset that a task has written.
    pub fn put_put_offsets(&mut self, i: u64, frame: OffsetFrame)
        requires there { i < length self.old.state.instances }
        requires passed { writing_test i self.old.state ≡ Ok tt }
        requires fits { next_offset self.old.state < 2 ^ 64 }
        requires frame { frame ≡ offered i self.old.state }
        requires ready { self.old.told.reserved ≡ told_in frame }
        requires unmarked { is_marked (tag_of (instance_of i self.old.state)) self.old.state.offsets.frames ≡ false }
        requires room { has_room (bytes_in log.Offsets self.old.state) (frame_of (entry_bytes frame)) ≡ true }
        ensures { Puts (put_offsets i) tt self.old self.new }
    {
        self.topics.put_offset(frame);
        self.crew.set_phase(i, InstancePhase::Offered);
    }

    /// Takes the memory of an entry of the offset log, and writes its frame.
    pub(crate) fn ready_offset(&mut self, entry: OffsetEntry) -> Result<OffsetFrame, WorldFault>
        requires { HasRecords entry }
        ensures state { self.new.state ≡ self.old.state }
        ensures setting { self.new.setting ≡ self.old.setting }
        ensures frame { IfOk result (λ frame. frame ≡ entry) }
        ensures ready { OnOk result (self.new.told.reserved ≡ told_in entry) }
        ensures memory { IfErr result (λ why. why ≡ fault.Memory) }
    {
        match self.topics.ready_offset(self.alloc, entry) {
            Ok(frame) => Ok(frame),
            Err(_) => Err(WorldFault::Memory),
        }
    }

    // The entry of a task's offset, where it may be written.
    fn offered(&self, i: u64, bytes: u64) -> Result<OffsetEntry, WorldFault>
        requires there { i < length self.now.state.instances }
        requires part { is_raw (span_of (instance_of i self.now.state)).part ≡ false }
        requires bytes { self.now.state.closed ≡ None → bytes ≡ bytes_in log.Offsets self.now.state }
        ensures entry { IfOk result (λ entry. entry ≡ offered i self.now.state) }
        ensures records { IfOk result (λ entry. HasRecords entry) }
        ensures passed { OnOk result (writing_test i self.now.state ≡ Ok tt) }
        ensures fits { OnOk result (next_offset self.now.state < 2 ^ 64) }
        ensures refused { (why : FaultValue) → result ≡ Err why → why ≢ fault.Memory →
            put_offsets i self.now.state ≡ refused why self.now.state }
    {
        let tag = self.tag_to_write(i)?;
        let own = self.crew.instance(i);
        let stamp = self.topics.coordinator().length();
        let Some(offset) = self.topics.next_offset() else {
            return Err(full_offsets(self.alloc, own, tag, stamp, bytes));
        };
        match offered_at(self.alloc, own, tag, offset, stamp) {
            Ok(entry) => Ok(entry),
            Err(_) => Err(WorldFault::Memory),
        }
    }
}

// The entry of the offset behind what a task took last.
fn offered_at(
    alloc: Global,
    own: &Instance,
    tag: Tag,
    offset: u64,
    stamp: u64,
) -> Result<OffsetEntry, AllocError>
    requires { is_raw (span_of own.now).part ≡ false }
    ensures entry { IfOk result (λ offered. offered ≡
        entry.Records tag (record_at offset stamp (span_of own.now) ∷ [])) }
    ensures records { IfOk result (λ offered. HasRecords offered) }
{
    let span = span_of(own)?;
    let record = record_at(alloc, &span, offset, stamp)?;
    let mut records = Vec::new(alloc);
    records.push(record)?;
    Ok(OffsetEntry::Records {
        tag,
        records: Listed::new(records),
    })
}

// The record of the offset behind a span. Its texts never have 2^32 bytes.
fn record_at(alloc: Global, span: &Span, offset: u64, stamp: u64) -> Result<Applied, AllocError>
    requires { is_raw span.now.part ≡ false }
    ensures is { IfOk result (λ r. r ≡ record_at offset stamp span.now) }
    ensures fits { IfOk result (λ r. IsRecord r) }
{
    let Ok(key) = write_part(alloc, &span.part) else {
        return Err(AllocError);
    };
    let Ok(value) = write_offset(alloc, &span.part, span.to) else {
        return Err(AllocError);
    };
    if key.len() > u32::MAX as usize || value.len() > u32::MAX as usize {
        return Err(AllocError);
    }
    Ok(Applied {
        offset,
        stamp,
        key: Listed::new(key),
        value: Some(Listed::new(value)),
    })
}

// Why a task's offset isn't written where no offset is left: the log of so many bytes is full.
fn full_offsets(alloc: Global, own: &Instance, tag: Tag, stamp: u64, bytes: u64) -> WorldFault
    requires { is_raw (span_of own.now).part ≡ false }
    ensures { (n : ℕ) → result ≢ fault.Memory → result ≡ fault.Full log.Offsets bytes
        (frame_of (entry_bytes (entry.Records tag (record_at n stamp (span_of own.now) ∷ [])))) }
{
    let Ok(entry) = offered_at(alloc, own, tag, u64::MAX, stamp) else {
        return WorldFault::Memory;
    };
    let Ok(body) = write_offsets(alloc, &entry) else {
        return WorldFault::Memory;
    };
    WorldFault::Full {
        log: LogName::Offsets,
        length: bytes,
        frame: body.len() as u64 + 5,
    }
}
