//! What the offset log has of each transaction.
ghost use Rattle.std.specs.Prelude.{◌≡◌, ◌++◌, ◌∷◌, ◌&&◌, ◌||◌, [], List, IfOk, OnOk};
ghost use Rattle.std.specs.List.{list_any};
ghost use Rattle.std.specs.BTreeMap.{BTreeMap};
ghost use Rattle.std.specs.BTreeSet.{contains};
ghost use Rattle.cw_types.specs.declared.ids.Tag.{Tag};
ghost use Rattle.cw_types.specs.declared.ids.PartKey.{PartKey};
ghost use Rattle.cw_types.specs.Same.{part_order};
ghost use Rattle.cw_keys.specs.Parts.{part_of};
ghost use Rattle.cw_offset.specs.declared.body.OffsetEntry.{OffsetEntry};
ghost use Rattle.cw_offset.specs.Compaction.{is_record_of};
ghost use Rattle.cw_compact.specs.Stored.{AreStored, Takes, Puts, marked_at, stores_at};

use cw_bytes::Applied;
use cw_keys::{KeyFault, read_part};
use cw_offset::OffsetEntry;
use cw_types::{PartKey, Tag};
use std::alloc::{AllocError, Global};
use std::collections::{BTreeMap, BTreeSet};

/// What the log has of a transaction.
#[derive(Drop)]
pub struct StoredTag {
    /// Whether it is marked.
    pub marked: bool,
    /// The parts of which it has a record.
    pub parts: BTreeSet<PartKey>,
}

/// What the log has of each transaction.
#[derive(Drop)]
pub struct Stored {
    /// A row for each transaction that has records or a marker.
    pub rows: BTreeMap<Tag, StoredTag>,
}

impl Stored {
    /// Nothing.
    pub fn new(alloc: Global) -> Stored
        ensures { AreStored result.rows [] }
    {
        Stored {
            rows: BTreeMap::new(alloc),
        }
    }

    /// One entry more. An `Err` may leave a part of it.
    pub fn note(&mut self, alloc: Global, entry: &OffsetEntry) -> Result<(), AllocError>
        ensures { OnOk result ((log : List OffsetEntry) → AreStored self.old.rows log →
            AreStored self.new.rows (log ++ entry.now ∷ [])) }
    {
        match entry {
            OffsetEntry::Records { tag, records } => {
                let mut row = self.take(alloc, tag);
                note_parts(alloc, &mut row.parts, records.as_slice())?;
                self.put(tag, row)?;
                Ok(())
            }
            OffsetEntry::Mark(mark) => {
                let row = StoredTag {
                    marked: true,
                    parts: self.take(alloc, &mark.tag).parts,
                };
                self.put(&mark.tag, row)?;
                Ok(())
            }
        }
    }

    /// Whether a transaction has a marker and a record of a part.
    pub fn replaces(&self, tag: &Tag, part: &PartKey) -> bool
        ensures { result ≡ (marked_at self.now.rows tag.now && stores_at self.now.rows tag.now part.now) }
    {
        match self.rows.get(tag) {
            Some(row) => row.marked && row.parts.contains(part),
            None => false,
        }
    }

    // Takes the row of a transaction out.
    fn take(&mut self, alloc: Global, tag: &Tag) -> StoredTag
        ensures { Takes tag.now result self.old.rows self.new.rows }
    {
        match self.rows.remove(tag) {
            Some(row) => row,
            None => StoredTag {
                marked: false,
                parts: BTreeSet::new(alloc),
            },
        }
    }

    // Puts the row of a transaction in.
    fn put(&mut self, tag: &Tag, row: StoredTag) -> Result<(), AllocError>
        ensures { OnOk result (Puts tag.now row self.old.rows self.new.rows) }
    {
        self.rows.insert(tag.copy()?, row)?;
        Ok(())
    }
}

/// The part of a record of the offset log, where its key names one.
pub fn part_in(alloc: Global, written: &Applied) -> Result<Option<PartKey>, AllocError>
    ensures { IfOk result (λ part. part ≡ part_of written.now.key) }
{
    match read_part(alloc, written.key.as_slice()) {
        Ok(part) => Ok(Some(part)),
        Err(KeyFault::BadKey) => Ok(None),
        Err(KeyFault::BadValue) => unreachable!(),
        Err(KeyFault::Memory) => Err(AllocError),
    }
}

// The parts of records more.
fn note_parts(
    alloc: Global,
    parts: &mut BTreeSet<PartKey>,
    records: &[Applied],
) -> Result<(), AllocError>
    ensures { OnOk result ((q : PartKey) → contains part_order parts.new q
        ≡ (contains part_order parts.old q || list_any (is_record_of q) records.now)) }
{
    for record in records {
        note_part(alloc, parts, record)?;
    }
    Ok(())
}

// The part of one record more.
fn note_part(
    alloc: Global,
    parts: &mut BTreeSet<PartKey>,
    written: &Applied,
) -> Result<(), AllocError>
    ensures { OnOk result ((q : PartKey) → contains part_order parts.new q
        ≡ (contains part_order parts.old q || is_record_of q written.now)) }
{
    let named = part_in(alloc, written)?;
    match named {
        Some(part) => {
            parts.insert(part)?;
            Ok(())
        }
        None => Ok(()),
    }
}
