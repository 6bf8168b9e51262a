//! What an opening tells of the offset log: which transactions stand there, the calls of the transaction list in its
//! order, and then what no commit of the list settles.
ghost use Rattle.std.specs.Prelude.{◌≡◌, ◌++◌, ◌∷◌, [], List, map, Some, IsSome, if◌then◌else◌, IfOk, OnOk, not};
ghost use Rattle.std.specs.List.{filter_map, flat_map};
ghost use Rattle.std.specs.BTreeMap.{get};
ghost use Rattle.cw_bytes.specs.Frames.{joined};
ghost use Rattle.cw_txn.specs.Legal.{is_committed};
ghost use Rattle.cw_types.specs.declared.ids.Tag.{Tag as TagValue};
ghost use Rattle.cw_types.specs.Same.{same_tag, tag_order};
ghost use Rattle.cw_offset.specs.declared.call.OffsetCall.TheVariants as call;
ghost use Rattle.cw_offset.specs.declared.body.OffsetEntry.{OffsetEntry as FrameValue};
ghost use Rattle.cw_offset.specs.Log.{offset_tag, marks_in};
ghost use Rattle.cw_offset.specs.Replay.{put_in, puts_in, puts_of, calls_at, replayed};
ghost use Rattle.cw_topics.specs.Replaying.{ArePuts, puts_at, told_more};

use crate::offset_frame::push_puts;
use cw_bytes::{Applied, Mark};
use cw_offset::{OffsetCall, OffsetEntry, OffsetState};
use cw_txn::{Coordinator, Entry, SetOffset};
use cw_types::{Listed, Tag};
use std::alloc::{AllocError, Global};
use std::collections::BTreeMap;

/// The state that is told of the frames of the offset log, behind the entries of the transaction log's frames.
pub(crate) fn replay(
    alloc: Global,
    frames: &[OffsetEntry],
    txn: &[Listed<Entry>],
    coordinator: &Coordinator,
) -> Result<OffsetState, AllocError>
    requires { coordinator.now.entries ≡ joined txn.now }
    ensures { IfOk result (λ state. state ≡ record {
      calls = replayed (joined txn.now) frames.now;
      reserved = [];
    }) }
{
    let rows = rows_of(alloc, frames)?;
    let mut state = OffsetState::new(alloc);
    stand_each(&mut state, frames)?;
    tell_list(&mut state, &rows, frames, txn)?;
    put_open(alloc, &mut state, frames, coordinator)?;
    mark_each(&mut state, frames)?;
    Ok(state)
}

// ---- calls

// Makes a call.
fn tell(state: &mut OffsetState, call: &OffsetCall) -> Result<(), AllocError>
    requires { state.old.reserved ≡ [] }
    ensures { OnOk result (state.new ≡ told_more (call.now ∷ []) state.old) }
{
    match call {
        OffsetCall::Stand(tag) => state.stand(tag),
        OffsetCall::Put { tag, part, to } => state.put(tag, part, *to),
        OffsetCall::Commit(tag) => state.commit(tag),
        OffsetCall::Abort(tag) => state.abort(tag),
        OffsetCall::Set { part, to } => state.set(part, *to),
    }
}

// Makes calls.
fn tell_each(state: &mut OffsetState, calls: &[OffsetCall]) -> Result<(), AllocError>
    requires { state.old.reserved ≡ [] }
    ensures { OnOk result (state.new ≡ told_more calls.now state.old) }
{
    for call in calls {
        tell(state, call)?;
    }
    Ok(())
}

// ---- which transactions stand in the log

fn stand_each(state: &mut OffsetState, frames: &[OffsetEntry]) -> Result<(), AllocError>
    requires { state.old.reserved ≡ [] }
    ensures { OnOk result (state.new ≡ told_more (map call.Stand (filter_map offset_tag frames.now)) state.old) }
{
    for frame in frames {
        stand(state, frame)?;
    }
    Ok(())
}

fn stand(state: &mut OffsetState, frame: &OffsetEntry) -> Result<(), AllocError>
    requires { state.old.reserved ≡ [] }
    ensures { OnOk result (state.new ≡
        told_more (map call.Stand (filter_map offset_tag (frame.now ∷ []))) state.old) }
{
    match frame {
        OffsetEntry::Records { tag, .. } => state.stand(tag),
        OffsetEntry::Mark(_) => Ok(()),
    }
}

// ---- the calls of the transaction list

// The puts of each transaction that stands in the log.
fn rows_of(
    alloc: Global,
    frames: &[OffsetEntry],
) -> Result<BTreeMap<Tag, Vec<OffsetCall>>, AllocError>
    ensures { IfOk result (λ rows. ArePuts rows frames.now) }
{
    let mut rows = BTreeMap::new(alloc);
    for frame in frames {
        add_frame(alloc, &mut rows, frame)?;
    }
    Ok(rows)
}

// The puts of one frame more.
fn add_frame(
    alloc: Global,
    rows: &mut BTreeMap<Tag, Vec<OffsetCall>>,
    frame: &OffsetEntry,
) -> Result<(), AllocError>
    ensures { OnOk result ((log : List FrameValue) → ArePuts rows.old log →
        ArePuts rows.new (log ++ frame.now ∷ [])) }
{
    match frame {
        OffsetEntry::Records { tag, records } => {
            make_row(alloc, rows, tag)?;
            add_puts(alloc, rows, tag, records.as_slice())?;
            Ok(())
        }
        OffsetEntry::Mark(_) => Ok(()),
    }
}

// A row of a transaction, without puts where it is new.
fn make_row(
    alloc: Global,
    rows: &mut BTreeMap<Tag, Vec<OffsetCall>>,
    tag: &Tag,
) -> Result<(), AllocError>
    ensures same { (q : TagValue) → puts_at rows.new q ≡ puts_at rows.old q }
    ensures there { OnOk result (IsSome (get tag_order rows.new tag.now)) }
{
    if rows.contains_key(tag) {
        return Ok(());
    }
    rows.insert(tag.copy()?, Vec::new(alloc))?;
    Ok(())
}

// Puts in the row of a transaction.
fn add_puts(
    alloc: Global,
    rows: &mut BTreeMap<Tag, Vec<OffsetCall>>,
    tag: &Tag,
    records: &[Applied],
) -> Result<(), AllocError>
    requires { IsSome (get tag_order rows.old tag.now) }
    ensures { OnOk result ((q : TagValue) → puts_at rows.new q ≡ (if same_tag q tag.now
        then puts_at rows.old q ++ filter_map (put_in tag.now) records.now else puts_at rows.old q)) }
{
    match rows.get_mut(tag) {
        Some(row) => {
            push_puts(alloc, row, tag, records)?;
            Ok(())
        }
        None => Ok(()),
    }
}

fn tell_list(
    state: &mut OffsetState,
    rows: &BTreeMap<Tag, Vec<OffsetCall>>,
    log: &[OffsetEntry],
    txn: &[Listed<Entry>],
) -> Result<(), AllocError>
    requires free { state.old.reserved ≡ [] }
    requires rows { ArePuts rows.now log.now }
    ensures { OnOk result (state.new ≡ told_more (flat_map (calls_at log.now) (joined txn.now)) state.old) }
{
    for frame in txn {
        tell_frame(state, rows, log, frame.as_slice())?;
    }
    Ok(())
}

fn tell_frame(
    state: &mut OffsetState,
    rows: &BTreeMap<Tag, Vec<OffsetCall>>,
    log: &[OffsetEntry],
    frame: &[Entry],
) -> Result<(), AllocError>
    requires free { state.old.reserved ≡ [] }
    requires rows { ArePuts rows.now log.now }
    ensures { OnOk result (state.new ≡ told_more (flat_map (calls_at log.now) frame.now) state.old) }
{
    for entry in frame {
        tell_entry(state, rows, log, entry)?;
    }
    Ok(())
}

fn tell_entry(
    state: &mut OffsetState,
    rows: &BTreeMap<Tag, Vec<OffsetCall>>,
    log: &[OffsetEntry],
    entry: &Entry,
) -> Result<(), AllocError>
    requires free { state.old.reserved ≡ [] }
    requires rows { ArePuts rows.now log.now }
    ensures { OnOk result (state.new ≡ told_more (calls_at log.now entry.now) state.old) }
{
    match entry {
        Entry::Bump(_) => Ok(()),
        Entry::Commit { tag, .. } => tell_row(state, rows, tag),
        Entry::Set { list, .. } => set_each(state, list.as_slice()),
    }
}

// The puts of a transaction.
fn tell_row(
    state: &mut OffsetState,
    rows: &BTreeMap<Tag, Vec<OffsetCall>>,
    tag: &Tag,
) -> Result<(), AllocError>
    requires { state.old.reserved ≡ [] }
    ensures { OnOk result (state.new ≡ told_more (puts_at rows.now tag.now) state.old) }
{
    match rows.get(tag) {
        Some(row) => tell_each(state, row.as_slice()),
        None => Ok(()),
    }
}

// What a user set.
fn set_each(state: &mut OffsetState, list: &[SetOffset]) -> Result<(), AllocError>
    requires { state.old.reserved ≡ [] }
    ensures { OnOk result (state.new ≡ told_more (map (λ set. call.Set set.part set.to) list.now) state.old) }
{
    for set in list {
        tell_set(state, set)?;
    }
    Ok(())
}

fn tell_set(state: &mut OffsetState, set: &SetOffset) -> Result<(), AllocError>
    requires { state.old.reserved ≡ [] }
    ensures { OnOk result (state.new ≡ told_more (call.Set set.now.part set.now.to ∷ []) state.old) }
{
    state.set(&set.part, set.to)
}

// ---- the puts of transactions without a commit

fn put_open(
    alloc: Global,
    state: &mut OffsetState,
    frames: &[OffsetEntry],
    coordinator: &Coordinator,
) -> Result<(), AllocError>
    requires { state.old.reserved ≡ [] }
    ensures { OnOk result (state.new ≡
        told_more (puts_of (λ tag. not (is_committed tag coordinator.now.entries)) frames.now) state.old) }
{
    for frame in frames {
        put_frame(alloc, state, frame, coordinator)?;
    }
    Ok(())
}

fn put_frame(
    alloc: Global,
    state: &mut OffsetState,
    frame: &OffsetEntry,
    coordinator: &Coordinator,
) -> Result<(), AllocError>
    requires { state.old.reserved ≡ [] }
    ensures { OnOk result (state.new ≡
        told_more (puts_in (λ tag. not (is_committed tag coordinator.now.entries)) frame.now) state.old) }
{
    match frame {
        OffsetEntry::Records { tag, records } => {
            if coordinator.is_committed(tag) {
                return Ok(());
            }
            put_records(alloc, state, tag, records.as_slice())
        }
        OffsetEntry::Mark(_) => Ok(()),
    }
}

fn put_records(
    alloc: Global,
    state: &mut OffsetState,
    tag: &Tag,
    records: &[Applied],
) -> Result<(), AllocError>
    requires { state.old.reserved ≡ [] }
    ensures { OnOk result (state.new ≡ told_more (filter_map (put_in tag.now) records.now) state.old) }
{
    let mut calls = Vec::new(alloc);
    push_puts(alloc, &mut calls, tag, records)?;
    tell_each(state, calls.as_slice())
}

// ---- the markers

fn mark_each(state: &mut OffsetState, frames: &[OffsetEntry]) -> Result<(), AllocError>
    requires { state.old.reserved ≡ [] }
    ensures { OnOk result (state.new ≡ told_more (flat_map marks_in frames.now) state.old) }
{
    for frame in frames {
        mark_frame(state, frame)?;
    }
    Ok(())
}

fn mark_frame(state: &mut OffsetState, frame: &OffsetEntry) -> Result<(), AllocError>
    requires { state.old.reserved ≡ [] }
    ensures { OnOk result (state.new ≡ told_more (marks_in frame.now) state.old) }
{
    match frame {
        OffsetEntry::Records { .. } => Ok(()),
        OffsetEntry::Mark(mark) => tell_mark(state, mark),
    }
}

fn tell_mark(state: &mut OffsetState, mark: &Mark) -> Result<(), AllocError>
    requires { state.old.reserved ≡ [] }
    ensures { OnOk result (state.new ≡
        told_more ((if mark.now.committed then call.Commit mark.now.tag else call.Abort mark.now.tag) ∷ []) state.old) }
{
    if mark.committed {
        return state.commit(&mark.tag);
    }
    state.abort(&mark.tag)
}
