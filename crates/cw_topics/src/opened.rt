//! What follows from the frames of the logs as these are opened.
ghost use Rattle.std.specs.Prelude.{◌≡◌, ◌<◌, ◌+◌, ◌^◌, ◌++◌, ◌∷◌, [], IfOk, OnOk, length, map};
ghost use Rattle.std.specs.List.{filter_map, cons_option};
ghost use Rattle.cw_bytes.specs.Frames.{joined};
ghost use Rattle.cw_config.specs.Compaction.{config_in, configs_in};
ghost use Rattle.cw_data.specs.Body.{entry_bytes};
ghost use Rattle.cw_data.specs.Log.{records};
ghost use Rattle.cw_data.specs.declared.entry.DataEntry.TheVariants as logged;
ghost use Rattle.cw_log.specs.Log.{length_of};
ghost use Rattle.cw_txn.specs.Allowed.{IsAllowedBehind, IsAllowedCommit};
ghost use Rattle.cw_txn.specs.declared.entry.Entry.TheVariants as entry;
ghost use Rattle.cw_txn.specs.History.{history, SpansChain};
ghost use Rattle.cw_txn.specs.Legal.{EachFrom, ChainsBehind, epoch_of};
ghost use Rattle.cw_types.specs.declared.ids.PartKey.{PartKey};
ghost use Rattle.cw_topics.specs.Entries.{with_entry};

use cw_bytes::Applied;
use cw_config::{ConfigRecord, record_in};
use cw_data::{Batch, DataEntry, DataState};
use cw_txn::{Coordinator, Entry, SetOffset, TxnFault};
use cw_types::{Epoch, Listed, Span, Tag, Tid};
use std::alloc::{AllocError, Global};

/// The coordinator of the entries that the frames of the transaction log hold.
pub(crate) fn coordinator_of(
    alloc: Global,
    frames: &[Listed<Entry>],
) -> Result<Coordinator, AllocError>
    requires allowed { EachFrom IsAllowedBehind [] (joined frames.now) }
    requires chains { (part : PartKey) → EachFrom (ChainsBehind part) [] (joined frames.now) }
    ensures { IfOk result (λ c. c ≡ record { entries = joined frames.now; reserved = [] }) }
{
    let mut coordinator = Coordinator::new(alloc);
    for frame in frames {
        take_frame(&mut coordinator, frame.as_slice())?;
    }
    Ok(coordinator)
}

// Puts in the entries of a frame.
fn take_frame(coordinator: &mut Coordinator, frame: &[Entry]) -> Result<(), AllocError>
    requires free { coordinator.old.reserved ≡ [] }
    requires allowed { EachFrom IsAllowedBehind coordinator.old.entries frame.now }
    requires chains { (part : PartKey) → EachFrom (ChainsBehind part) coordinator.old.entries frame.now }
    ensures { OnOk result (coordinator.new ≡ record {
      entries = coordinator.old.entries ++ frame.now;
      reserved = [];
    }) }
{
    for entry in frame {
        take_entry(coordinator, entry)?;
    }
    Ok(())
}

// Puts in an entry.
fn take_entry(coordinator: &mut Coordinator, entry: &Entry) -> Result<(), AllocError>
    requires free { coordinator.old.reserved ≡ [] }
    requires allowed { IsAllowedBehind coordinator.old.entries entry.now }
    requires chains { (part : PartKey) → ChainsBehind part coordinator.old.entries entry.now }
    ensures { OnOk result (coordinator.new ≡ with_entry entry.now coordinator.old.entries) }
{
    match entry {
        Entry::Bump(tid) => take_bump(coordinator, tid),
        Entry::Commit {
            tag,
            generation,
            spans,
        } => take_commit(coordinator, tag, *generation, spans.as_slice()),
        Entry::Set { tid, epoch, list } => take_set(coordinator, tid, *epoch, list.as_slice()),
    }
}

// Bumps an epoch.
fn take_bump(coordinator: &mut Coordinator, tid: &Tid) -> Result<(), AllocError>
    requires { coordinator.old.reserved ≡ [] }
    ensures { OnOk result (coordinator.new ≡ with_entry (entry.Bump tid.now) coordinator.old.entries) }
{
    match coordinator.bump(tid) {
        Ok(_) => Ok(()),
        Err(TxnFault::Memory) => Err(AllocError),
        Err(TxnFault::Fenced { .. }) => unreachable!(),
    }
}

// Commits a transaction.
fn take_commit(
    coordinator: &mut Coordinator,
    tag: &Tag,
    generation: u64,
    spans: &[Span],
) -> Result<(), AllocError>
    requires free { coordinator.old.reserved ≡ [] }
    requires allowed { IsAllowedCommit coordinator.old.entries tag.now generation spans.now }
    requires chains { (part : PartKey) → SpansChain part (history part coordinator.old.entries) spans.now }
    ensures { OnOk result (coordinator.new ≡
        with_entry (entry.Commit tag.now generation spans.now) coordinator.old.entries) }
{
    match coordinator.commit(tag, generation, spans) {
        Ok(()) => Ok(()),
        Err(TxnFault::Memory) => Err(AllocError),
        Err(TxnFault::Fenced { .. }) => unreachable!(),
    }
}

// Sets offsets.
fn take_set(
    coordinator: &mut Coordinator,
    tid: &Tid,
    epoch: Epoch,
    list: &[SetOffset],
) -> Result<(), AllocError>
    requires free { coordinator.old.reserved ≡ [] }
    requires epoch { epoch.0 ≡ epoch_of tid.now coordinator.old.entries }
    ensures { OnOk result (coordinator.new ≡ with_entry (entry.Set tid.now epoch list.now) coordinator.old.entries) }
{
    match coordinator.set(tid, epoch, list) {
        Ok(()) => Ok(()),
        Err(TxnFault::Memory) => Err(AllocError),
        Err(TxnFault::Fenced { .. }) => unreachable!(),
    }
}

/// What follows from the entries of the data log.
pub(crate) fn data_of(alloc: Global, entries: Vec<DataEntry>) -> Result<DataState, AllocError>
    requires { length_of (map entry_bytes entries.items) < 2 ^ 64 }
    ensures { IfOk result (λ made. made ≡ record { entries = entries.items; reserved = [] }) }
{
    let mut data = DataState::new(alloc);
    for entry in entries {
        take_data(&mut data, entry)?;
    }
    Ok(data)
}

// Adds an entry of the data log.
fn take_data(data: &mut DataState, entry: DataEntry) -> Result<(), AllocError>
    requires free { data.old.reserved ≡ [] }
    requires fits { length_of (map entry_bytes (data.old.entries ++ entry ∷ [])) < 2 ^ 64 }
    ensures { OnOk result (data.new ≡ record { entries = data.old.entries ++ entry ∷ []; reserved = [] }) }
{
    match entry {
        DataEntry::Batch(batch) => take_batch(data, batch),
        DataEntry::Mark { tag, committed } => take_mark(data, &tag, committed),
    }
}

// Adds a batch.
fn take_batch(data: &mut DataState, batch: Batch) -> Result<(), AllocError>
    requires free { data.old.reserved ≡ [] }
    requires fits { length (records batch.topic data.old.entries) + length batch.values < 2 ^ 64 }
    ensures { OnOk result (data.new ≡ record {
      entries = data.old.entries ++ logged.Batch batch ∷ [];
      reserved = [];
    }) }
{
    data.batch(batch)?;
    Ok(())
}

// Adds a marker.
fn take_mark(data: &mut DataState, tag: &Tag, committed: bool) -> Result<(), AllocError>
    requires { data.old.reserved ≡ [] }
    ensures { OnOk result (data.new ≡ record {
      entries = data.old.entries ++ logged.Mark tag.now committed ∷ [];
      reserved = [];
    }) }
{
    data.mark(tag, committed)?;
    Ok(())
}

/// The records that the frames of the config log are.
pub(crate) fn configs_of(
    alloc: Global,
    frames: &[Listed<Applied>],
) -> Result<Vec<ConfigRecord>, AllocError>
    ensures { IfOk result (λ records. records.items ≡ configs_in frames.now) }
{
    let mut records = Vec::new(alloc);
    for frame in frames {
        read_frame(alloc, &mut records, frame.as_slice())?;
    }
    Ok(records)
}

// The records that those of a frame are, behind others.
fn read_frame(
    alloc: Global,
    records: &mut Vec<ConfigRecord>,
    frame: &[Applied],
) -> Result<(), AllocError>
    ensures { OnOk result (records.new.items ≡ records.old.items ++ filter_map config_in frame.now) }
{
    for applied in frame {
        let found = record_in(alloc, applied)?;
        push_some(records, found)?;
    }
    Ok(())
}

// One record more, if there is one.
fn push_some(records: &mut Vec<ConfigRecord>, found: Option<ConfigRecord>) -> Result<(), AllocError>
    ensures { OnOk result (records.new.items ≡ records.old.items ++ cons_option found []) }
{
    match found {
        Some(record) => {
            records.push(record)?;
            Ok(())
        }
        None => Ok(()),
    }
}
