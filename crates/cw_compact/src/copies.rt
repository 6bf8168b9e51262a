//! Copies of the frames of a log.
ghost use Rattle.std.specs.Prelude.{◌≡◌, IfOk};

use cw_bytes::{Applied, Mark};
use cw_offset::OffsetEntry;
use cw_txn::Entry;
use cw_types::Listed;
use std::alloc::{AllocError, Global};
use std::collections::LinkedList;

// ---- records of configs and statuses

/// Copies of the frames of a config log or a status log.
pub fn copy_frames(
    alloc: Global,
    frames: &LinkedList<Listed<Applied>>,
) -> Result<Vec<Listed<Applied>>, AllocError>
    ensures { IfOk result (λ copies. copies.items ≡ frames.now) }
{
    let mut copies = Vec::new(alloc);
    for frame in frames {
        copies.push(copy_records(alloc, frame.as_slice())?)?;
    }
    Ok(copies)
}

/// The same, as a list.
pub fn list_frames(
    alloc: Global,
    frames: &[Listed<Applied>],
) -> Result<LinkedList<Listed<Applied>>, AllocError>
    ensures { IfOk result (λ list. list ≡ frames.now) }
{
    let mut list = LinkedList::new(alloc);
    for frame in frames {
        list.push_back(copy_records(alloc, frame.as_slice())?)?;
    }
    Ok(list)
}

/// Copies of records.
pub fn copy_records(alloc: Global, records: &[Applied]) -> Result<Listed<Applied>, AllocError>
    ensures { IfOk result (λ copies. copies ≡ records.now) }
{
    let mut copies = Vec::new(alloc);
    for record in records {
        copies.push(record.copy()?)?;
    }
    Ok(Listed::new(copies))
}

// ---- entries of the offset log

/// Copies of the entries of an offset log.
pub fn copy_offsets(
    alloc: Global,
    frames: &LinkedList<OffsetEntry>,
) -> Result<Vec<OffsetEntry>, AllocError>
    ensures { IfOk result (λ copies. copies.items ≡ frames.now) }
{
    let mut copies = Vec::new(alloc);
    for frame in frames {
        copies.push(copy_offset(alloc, frame)?)?;
    }
    Ok(copies)
}

/// The same, as a list.
pub fn list_offsets(
    alloc: Global,
    frames: &[OffsetEntry],
) -> Result<LinkedList<OffsetEntry>, AllocError>
    ensures { IfOk result (λ list. list ≡ frames.now) }
{
    let mut list = LinkedList::new(alloc);
    for frame in frames {
        list.push_back(copy_offset(alloc, frame)?)?;
    }
    Ok(list)
}

/// A copy of an entry.
pub fn copy_offset(alloc: Global, entry: &OffsetEntry) -> Result<OffsetEntry, AllocError>
    ensures { IfOk result (λ copy. copy ≡ entry.now) }
{
    match entry {
        OffsetEntry::Records { tag, records } => Ok(OffsetEntry::Records {
            tag: tag.copy()?,
            records: copy_records(alloc, records.as_slice())?,
        }),
        OffsetEntry::Mark(mark) => Ok(OffsetEntry::Mark(Mark {
            tag: mark.tag.copy()?,
            committed: mark.committed,
        })),
    }
}

// ---- entries of the transaction log

/// Copies of the frames of a transaction log.
pub fn copy_txn(
    alloc: Global,
    frames: &LinkedList<Listed<Entry>>,
) -> Result<Vec<Listed<Entry>>, AllocError>
    ensures { IfOk result (λ copies. copies.items ≡ frames.now) }
{
    let mut copies = Vec::new(alloc);
    for frame in frames {
        copies.push(copy_entries(alloc, frame.as_slice())?)?;
    }
    Ok(copies)
}

/// The same, as a list.
pub fn list_txn(
    alloc: Global,
    frames: &[Listed<Entry>],
) -> Result<LinkedList<Listed<Entry>>, AllocError>
    ensures { IfOk result (λ list. list ≡ frames.now) }
{
    let mut list = LinkedList::new(alloc);
    for frame in frames {
        list.push_back(copy_entries(alloc, frame.as_slice())?)?;
    }
    Ok(list)
}

/// Copies of entries.
pub fn copy_entries(alloc: Global, entries: &[Entry]) -> Result<Listed<Entry>, AllocError>
    ensures { IfOk result (λ copies. copies ≡ entries.now) }
{
    let mut copies = Vec::new(alloc);
    for entry in entries {
        copies.push(entry.copy(alloc)?)?;
    }
    Ok(Listed::new(copies))
}
