//! Whether the transaction log is safe.
ghost use Rattle.std.specs.Prelude.{◌≡◌, ◌↔◌, ℕ, [], ◌∷◌, ◌++◌, List, IfOk, OnOk, IsTrue, false};
ghost use Rattle.cw_types.specs.declared.ids.PartKey.{PartKey};
ghost use Rattle.cw_bytes.specs.Frames.{EachFrom, joined};
ghost use Rattle.cw_config.specs.declared.records.ConfigRecord.{ConfigRecord};
ghost use Rattle.cw_config.specs.Compaction.{configs_in};
ghost use Rattle.cw_txn.specs.declared.entry.Entry.{Entry};
ghost use Rattle.cw_txn.specs.Legal.{ChainsBehind, is_committed};
ghost use Rattle.cw_txn.specs.Transactions.{AreNext};
ghost use Rattle.cw_txn.specs.Allowed.{IsAllowedBehind, IsAllowedCommit};
ghost use Rattle.cw_data.specs.declared.entry.DataEntry.{DataEntry};
ghost use Rattle.cw_model.specs.StandsFor.{judged, IsSafeEntry};
ghost use Rattle.cw_open.specs.Judging.{Says, Steps, StepsAll};
ghost use Rattle.cw_open.specs.SafeEntries.{AreKnown, AreAllowedFrames, StandsBehind, IsSafeTask};

use crate::fences::FenceTable;
use crate::spans::BatchSpans;
use cw_bytes::Applied;
use cw_data::DataEntry;
use cw_txn::{Coordinator, Entry, SetOffset};
use cw_types::{Epoch, Listed, Name, Span, Tag, Tid};
use std::alloc::{AllocError, Global};

/// The first frame of a transaction log, of which all are allowed, with an entry that isn't safe: its spans don't go
/// on from where their parts ended, a span of a task has no batch, or it is a commit of an older task behind a fence
/// (KIP-618).
pub fn first_entries_unsafe(
    alloc: Global,
    configs: &[Listed<Applied>],
    batches: &[DataEntry],
    frames: &[Listed<Entry>],
) -> Result<Option<u64>, AllocError>
    requires { AreAllowedFrames [] frames.now }
    ensures { IfOk result (Says (judged (λ before frame.
        EachFrom (IsSafeEntry (configs_in configs.now) batches.now) (joined before) frame) frames.now)) }
{
    let fences = FenceTable::of(alloc, configs)?;
    let spans = BatchSpans::of(alloc, batches)?;
    let known = Known { fences, spans };
    let mut passed = Coordinator::new(alloc);
    for at in 0..frames.len() {
        if !take_frame(&known, &mut passed, frames[at].as_slice())? {
            return Ok(Some(at as u64));
        }
    }
    Ok(None)
}

/// What is known of the config log and of the data log.
#[derive(Drop)]
pub(crate) struct Known {
    fences: FenceTable,
    spans: BatchSpans,
}

fn take_frame(known: &Known, passed: &mut Coordinator, frame: &[Entry]) -> Result<bool, AllocError>
    requires { EachFrom IsAllowedBehind passed.old.entries frame.now }
    ensures taken { IfOk result (λ yes. IsTrue yes → passed.new.entries ≡ passed.old.entries ++ frame.now) }
    ensures fits { IfOk result (λ yes. (records : List ConfigRecord) (log : List DataEntry) →
        AreKnown known.now records log →
        IsTrue yes ↔ EachFrom (IsSafeEntry records log) passed.old.entries frame.now) }
{
    for at in 0..frame.len() {
        if !take_entry(known, passed, &frame[at])? {
            return Ok(false);
        }
    }
    Ok(true)
}

fn take_entry(known: &Known, passed: &mut Coordinator, entry: &Entry) -> Result<bool, AllocError>
    requires { IsAllowedBehind passed.old.entries entry.now }
    ensures taken { IfOk result (λ yes. IsTrue yes → passed.new.entries ≡ passed.old.entries ++ entry.now ∷ []) }
    ensures fits { IfOk result (λ yes. (records : List ConfigRecord) (log : List DataEntry) →
        AreKnown known.now records log → IsTrue yes ↔ IsSafeEntry records log passed.old.entries entry.now) }
{
    if !chains(passed, entry) {
        return Ok(false);
    }
    if !stands(known, passed.length(), entry)? {
        return Ok(false);
    }
    put(passed, entry)?;
    Ok(true)
}

// Whether an entry's spans go on from where their parts ended.
fn chains(passed: &Coordinator, entry: &Entry) -> bool
    requires { IsAllowedBehind passed.now.entries entry.now }
    ensures { IsTrue result ↔ ((part : PartKey) → ChainsBehind part passed.now.entries entry.now) }
{
    match entry {
        Entry::Bump(_) => true,
        Entry::Commit { spans, .. } => passed.are_next(spans.as_slice()),
        Entry::Set { .. } => true,
    }
}

// Whether an entry has its batches, and is no commit of an older task behind a fence.
fn stands(known: &Known, place: u64, entry: &Entry) -> Result<bool, AllocError>
    ensures { IfOk result (λ stands. (records : List ConfigRecord) (log : List DataEntry) →
        AreKnown known.now records log → IsTrue stands ↔ StandsBehind records log place entry.now) }
{
    match entry {
        Entry::Bump(_) => Ok(true),
        Entry::Commit {
            tag,
            generation,
            spans,
        } => {
            let stands = commit_stands(known, place, tag, *generation, spans.as_slice())?;
            Ok(stands)
        }
        Entry::Set { .. } => Ok(true),
    }
}

fn commit_stands(
    known: &Known,
    place: u64,
    tag: &Tag,
    generation: u64,
    spans: &[Span],
) -> Result<bool, AllocError>
    ensures { IfOk result (λ stands. (records : List ConfigRecord) (log : List DataEntry) →
        AreKnown known.now records log →
        IsTrue stands ↔ StandsBehind records log place (Entry.Commit tag.now generation spans.now)) }
{
    match &tag.tid {
        Tid::Lead => Ok(true),
        Tid::Task(id) => {
            let stands = task_stands(known, &id.connector, place, tag, generation, spans)?;
            Ok(stands)
        }
        Tid::Raw(_) => Ok(true),
    }
}

fn task_stands(
    known: &Known,
    connector: &Name,
    place: u64,
    tag: &Tag,
    generation: u64,
    spans: &[Span],
) -> Result<bool, AllocError>
    ensures { IfOk result (λ stands. (records : List ConfigRecord) (log : List DataEntry) →
        AreKnown known.now records log →
        IsTrue stands ↔ IsSafeTask records log connector.now place tag.now generation spans.now) }
{
    let have = known.spans.have(tag, spans)?;
    if !have {
        return Ok(false);
    }
    Ok(known.fences.let_pass(connector, generation, place))
}

// Writes an entry that may stand there. It is never fenced, so that it wants memory alone.
fn put(passed: &mut Coordinator, entry: &Entry) -> Result<(), AllocError>
    requires allowed { IsAllowedBehind passed.old.entries entry.now }
    requires chains { (part : PartKey) → ChainsBehind part passed.old.entries entry.now }
    ensures { OnOk result (passed.new.entries ≡ passed.old.entries ++ entry.now ∷ []) }
{
    match entry {
        Entry::Bump(tid) => {
            bump(passed, tid)?;
            Ok(())
        }
        Entry::Commit {
            tag,
            generation,
            spans,
        } => {
            commit(passed, tag, *generation, spans.as_slice())?;
            Ok(())
        }
        Entry::Set { tid, epoch, list } => {
            set(passed, tid, *epoch, list.as_slice())?;
            Ok(())
        }
    }
}

fn bump(passed: &mut Coordinator, tid: &Tid) -> Result<(), AllocError>
    ensures { OnOk result (passed.new.entries ≡ passed.old.entries ++ Entry.Bump tid.now ∷ []) }
{
    match passed.bump(tid) {
        Ok(_) => Ok(()),
        Err(_) => Err(AllocError),
    }
}

fn commit(
    passed: &mut Coordinator,
    tag: &Tag,
    generation: u64,
    spans: &[Span],
) -> Result<(), AllocError>
    requires new { is_committed tag.now passed.old.entries ≡ false }
    requires next { AreNext passed.old.entries spans.now }
    ensures { OnOk result
        (passed.new.entries ≡ passed.old.entries ++ Entry.Commit tag.now generation spans.now ∷ []) }
{
    match passed.commit(tag, generation, spans) {
        Ok(()) => Ok(()),
        Err(_) => Err(AllocError),
    }
}

fn set(
    passed: &mut Coordinator,
    tid: &Tid,
    epoch: Epoch,
    list: &[SetOffset],
) -> Result<(), AllocError>
    ensures { OnOk result (passed.new.entries ≡ passed.old.entries ++ Entry.Set tid.now epoch list.now ∷ []) }
{
    match passed.set(tid, epoch, list) {
        Ok(()) => Ok(()),
        Err(_) => Err(AllocError),
    }
}
