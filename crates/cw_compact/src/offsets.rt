//! What a compaction leaves of the offset log.
ghost use Rattle.std.specs.Prelude.{◌≡◌, ◌||◌, ◌++◌, ◌∷◌, [], false, not, List, map, IfOk, OnOk};
ghost use Rattle.std.specs.List.{filter};
ghost use Rattle.std.specs.Option.{option_map_or};
ghost use Rattle.std.specs.BTreeSet.{contains};
ghost use Rattle.cw_types.specs.declared.ids.Tag.{Tag};
ghost use Rattle.cw_types.specs.Same.{tag_order};
ghost use Rattle.cw_bytes.specs.Frames.{joined};
ghost use Rattle.cw_txn.specs.declared.entry.Entry.{Entry};
ghost use Rattle.cw_offset.specs.declared.body.OffsetEntry.{OffsetEntry};
ghost use Rattle.cw_offset.specs.Log.{has_records};
ghost use Rattle.cw_offset.specs.Compaction.{compact_offsets, offset_goes, records_staying, is_filled, is_outdated};
ghost use Rattle.cw_keys.specs.Parts.{part_of};
ghost use Rattle.cw_compact.specs.Stored.{AreStored};
ghost use Rattle.cw_compact.specs.Outcomes.{AreOutcomes};
ghost use Rattle.cw_compact.specs.Filled.{stays_by};

use crate::outcomes::Outcomes;
use crate::stored::{Stored, part_in};
use cw_bytes::Applied;
use cw_offset::OffsetEntry;
use cw_txn::Entry;
use cw_types::{Listed, Tag, Verdict};
use std::alloc::{AllocError, Global};
use std::collections::BTreeSet;

/// The offset log as a compaction leaves it, beside the frames of the transaction log: the records of aborted
/// transactions go, and those of committed ones whose part is set or replaced behind their commit. A marker stays where
/// a record of its transaction does.
pub fn compact_offsets(
    alloc: Global,
    txn: &[Listed<Entry>],
    log: Vec<OffsetEntry>,
) -> Result<Vec<OffsetEntry>, AllocError>
    ensures { IfOk result (λ kept. kept.items ≡ compact_offsets (joined txn.now) log.items) }
{
    let stored = stored_in(alloc, log.as_slice())?;
    let outcomes = outcomes_of(alloc, &stored, txn)?;
    let kept = keep_records(alloc, &outcomes, log)?;
    let filled = filled_in(alloc, kept.as_slice())?;
    keep_entries(alloc, &filled, kept)
}

// What the log has of each transaction.
fn stored_in(alloc: Global, log: &[OffsetEntry]) -> Result<Stored, AllocError>
    ensures { IfOk result (λ stored. AreStored stored.rows log.now) }
{
    let mut stored = Stored::new(alloc);
    for entry in log {
        stored.note(alloc, entry)?;
    }
    Ok(stored)
}

// What the entries say, beside what the log has.
fn outcomes_of(
    alloc: Global,
    stored: &Stored,
    txn: &[Listed<Entry>],
) -> Result<Outcomes, AllocError>
    ensures { IfOk result (λ outcomes. (log : List OffsetEntry) → AreStored stored.now.rows log →
        AreOutcomes outcomes log (joined txn.now)) }
{
    let mut outcomes = Outcomes::new(alloc);
    for frame in txn {
        note_entries(&mut outcomes, stored, frame.as_slice())?;
    }
    Ok(outcomes)
}

// The entries of a frame more.
fn note_entries(
    outcomes: &mut Outcomes,
    stored: &Stored,
    entries: &[Entry],
) -> Result<(), AllocError>
    ensures { OnOk result ((log : List OffsetEntry) (before : List Entry) → AreStored stored.now.rows log →
        AreOutcomes outcomes.old log before → AreOutcomes outcomes.new log (before ++ entries.now)) }
{
    for entry in entries {
        outcomes.note(stored, entry)?;
    }
    Ok(())
}

// The entries with the records that stay.
fn keep_records(
    alloc: Global,
    outcomes: &Outcomes,
    log: Vec<OffsetEntry>,
) -> Result<Vec<OffsetEntry>, AllocError>
    ensures { IfOk result (λ kept. (log_then : List OffsetEntry) (entries : List Entry) →
        AreOutcomes outcomes.now log_then entries →
        kept.items ≡ map (records_staying entries log_then) log.items) }
{
    let mut kept = Vec::new(alloc);
    for entry in log {
        kept.push(keep_in(alloc, outcomes, entry)?)?;
    }
    Ok(kept)
}

// An entry with the records that stay.
fn keep_in(
    alloc: Global,
    outcomes: &Outcomes,
    entry: OffsetEntry,
) -> Result<OffsetEntry, AllocError>
    ensures { IfOk result (λ kept. (log : List OffsetEntry) (entries : List Entry) →
        AreOutcomes outcomes.now log entries → kept ≡ records_staying entries log entry) }
{
    match entry {
        OffsetEntry::Records { tag, records } => {
            let kept = keep_of(alloc, outcomes, &tag, records.into_vec())?;
            Ok(OffsetEntry::Records {
                tag,
                records: Listed::new(kept),
            })
        }
        OffsetEntry::Mark(mark) => Ok(OffsetEntry::Mark(mark)),
    }
}

// Those records of a transaction that stay.
fn keep_of(
    alloc: Global,
    outcomes: &Outcomes,
    tag: &Tag,
    records: Vec<Applied>,
) -> Result<Vec<Applied>, AllocError>
    ensures { IfOk result (λ kept. (log : List OffsetEntry) (entries : List Entry) →
        AreOutcomes outcomes.now log entries →
        kept.items ≡ filter (λ r. not (offset_goes entries log tag.now r)) records.items) }
{
    let mut kept = Vec::new(alloc);
    for record in records {
        if !goes(alloc, outcomes, tag, &record)? {
            kept.push(record)?;
        }
    }
    Ok(kept)
}

// Whether a record of a transaction goes.
fn goes(
    alloc: Global,
    outcomes: &Outcomes,
    tag: &Tag,
    written: &Applied,
) -> Result<bool, AllocError>
    ensures { IfOk result (λ goes. (log : List OffsetEntry) (entries : List Entry) →
        AreOutcomes outcomes.now log entries → goes ≡ offset_goes entries log tag.now written.now) }
{
    match outcomes.verdict(tag) {
        Verdict::Aborted => Ok(true),
        Verdict::Committed => is_outdated(alloc, outcomes, tag, written),
        Verdict::Open => is_outdated(alloc, outcomes, tag, written),
    }
}

// Whether a record's part was set or replaced behind the commit of its transaction.
fn is_outdated(
    alloc: Global,
    outcomes: &Outcomes,
    tag: &Tag,
    written: &Applied,
) -> Result<bool, AllocError>
    ensures { IfOk result (λ outdated. (log : List OffsetEntry) (entries : List Entry) →
        AreOutcomes outcomes.now log entries →
        outdated ≡ option_map_or (is_outdated entries log tag.now) (part_of written.now.key) false) }
{
    match part_in(alloc, written)? {
        Some(part) => Ok(outcomes.is_outdated(tag, &part)),
        None => Ok(false),
    }
}

// The transactions that have records.
fn filled_in(alloc: Global, log: &[OffsetEntry]) -> Result<BTreeSet<Tag>, AllocError>
    ensures { IfOk result (λ filled. (tag : Tag) → contains tag_order filled tag
        ≡ has_records tag (filter is_filled log.now)) }
{
    let mut filled = BTreeSet::new(alloc);
    for entry in log {
        note_filled(&mut filled, entry)?;
    }
    Ok(filled)
}

// One entry more.
fn note_filled(filled: &mut BTreeSet<Tag>, entry: &OffsetEntry) -> Result<(), AllocError>
    ensures { OnOk result ((tag : Tag) → contains tag_order filled.new tag
        ≡ (contains tag_order filled.old tag || has_records tag (filter is_filled (entry.now ∷ [])))) }
{
    match entry {
        OffsetEntry::Records { tag, records } => {
            if records.as_slice().is_empty() {
                return Ok(());
            }
            filled.insert(tag.copy()?)?;
            Ok(())
        }
        OffsetEntry::Mark(_) => Ok(()),
    }
}

// The entries that stay: those with records, and the markers of these.
fn keep_entries(
    alloc: Global,
    filled: &BTreeSet<Tag>,
    log: Vec<OffsetEntry>,
) -> Result<Vec<OffsetEntry>, AllocError>
    ensures { IfOk result (λ kept. kept.items ≡ filter (stays_by filled.now) log.items) }
{
    let mut kept = Vec::new(alloc);
    for entry in log {
        keep_entry(&mut kept, filled, entry)?;
    }
    Ok(kept)
}

// One entry more, if it stays.
fn keep_entry(
    kept: &mut Vec<OffsetEntry>,
    filled: &BTreeSet<Tag>,
    entry: OffsetEntry,
) -> Result<(), AllocError>
    ensures { OnOk result (kept.new.items ≡ kept.old.items ++ filter (stays_by filled.now) (entry ∷ [])) }
{
    if !stays(filled, &entry) {
        return Ok(());
    }
    kept.push(entry)?;
    Ok(())
}

// Whether an entry stays.
fn stays(filled: &BTreeSet<Tag>, entry: &OffsetEntry) -> bool
    ensures { result ≡ stays_by filled.now entry.now }
{
    match entry {
        OffsetEntry::Records { records, .. } => !records.as_slice().is_empty(),
        OffsetEntry::Mark(mark) => filled.contains(&mark.tag),
    }
}
