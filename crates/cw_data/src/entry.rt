//! The entries of the data log.
ghost use Rattle.std.specs.Prelude.{◌≡◌, ◌↔◌, IfOk, IsTrue, option_copied, take, slice_get};
ghost use Rattle.cw_data.specs.declared.entry.DataEntry.{DataEntry};
ghost use Rattle.cw_data.specs.Rows.{batch_at, values_in};
ghost use Rattle.cw_data.specs.Tables.{entry_of};

use cw_types::{Listed, Name, PartKey, Tag};
use std::alloc::{AllocError, Global};

/// What one transaction adds to a topic of a part of its source.
#[derive(Debug, Drop)]
pub struct Batch {
    /// The transaction.
    pub tag: Tag,
    /// The topic.
    pub topic: Name,
    /// The part of the source that the records come from.
    pub part: PartKey,
    /// The part's position before them.
    pub from: u64,
    /// The part's position behind them.
    pub to: u64,
    /// The values of the records, in order.
    pub values: Listed<Listed<u8>>,
}

impl Batch {
    /// A copy.
    pub fn copy(&self, alloc: Global) -> Result<Self, AllocError>
        ensures { IfOk result (λ batch. batch ≡ self.now) }
    {
        Ok(Batch {
            tag: self.tag.copy()?,
            topic: self.topic.copy()?,
            part: self.part.copy()?,
            from: self.from,
            to: self.to,
            values: copy_values(alloc, self.values.as_slice())?,
        })
    }

    // Whether it is this batch.
    fn is(&self, other: &Batch) -> bool
        ensures { IsTrue result ↔ (other.now ≡ self.now) }
    {
        same_tags(&self.tag, &other.tag)
            && same_names(&self.topic, &other.topic)
            && same_parts(&self.part, &other.part)
            && self.from == other.from
            && self.to == other.to
            && same_values(self.values.as_slice(), other.values.as_slice())
    }
}

/// An entry of the data log.
#[derive(Debug, Drop)]
pub enum DataEntry {
    /// Records are added to a topic.
    Batch(Batch),
    /// A transaction ended (KIP-98, control records).
    Mark {
        /// The transaction.
        tag: Tag,
        /// Whether it was committed; else it was aborted.
        committed: bool,
    },
}

/// An entry that is borrowed in parts.
#[derive(Debug, Clone, Copy, Drop)]
pub enum EntryRef<'a> {
    /// As `DataEntry::Batch`.
    Batch(&'a Batch),
    /// As `DataEntry::Mark`.
    Mark {
        /// The transaction.
        tag: &'a Tag,
        /// Whether it was committed.
        committed: bool,
    },
}

impl<'a> EntryRef<'a> {
    /// The borrowed form of an entry.
    pub fn of(entry: &'a DataEntry) -> EntryRef<'a>
        ensures { entry_of result ≡ entry.now }
    {
        match entry {
            DataEntry::Batch(batch) => EntryRef::Batch(batch),
            DataEntry::Mark { tag, committed } => EntryRef::Mark {
                tag,
                committed: *committed,
            },
        }
    }

    /// The entry, copied.
    pub fn to_entry(&self, alloc: Global) -> Result<DataEntry, AllocError>
        ensures { IfOk result (λ entry. entry ≡ entry_of self.now) }
    {
        match self {
            EntryRef::Batch(batch) => Ok(DataEntry::Batch(batch.copy(alloc)?)),
            EntryRef::Mark { tag, committed } => Ok(DataEntry::Mark {
                tag: tag.copy()?,
                committed: *committed,
            }),
        }
    }

    /// Whether it is this entry.
    pub fn is(&self, entry: &DataEntry) -> bool
        ensures { IsTrue result ↔ (entry.now ≡ entry_of self.now) }
    {
        match (self, entry) {
            (EntryRef::Batch(batch), DataEntry::Batch(other)) => batch.is(other),
            (
                EntryRef::Mark { tag, committed },
                DataEntry::Mark {
                    tag: other,
                    committed: of,
                },
            ) => same_tags(tag, other) && *committed == *of,
            _ => false,
        }
    }
}

/// The batch at a place.
pub fn batch_at(entries: &[DataEntry], place: usize) -> Option<&Batch>
    ensures { option_copied result ≡ batch_at entries.now place }
{
    match entries.get(place) {
        Some(DataEntry::Batch(batch)) => Some(batch),
        Some(DataEntry::Mark { .. }) => None,
        None => None,
    }
}

/// The value of the batch at a place that has an index there.
pub fn value_at(entries: &[DataEntry], place: usize, index: usize) -> Option<&[u8]>
    ensures { option_copied result ≡ slice_get (values_in (batch_at entries.now place)) index }
{
    match batch_at(entries, place) {
        Some(batch) => text_at(batch.values.as_slice(), index),
        None => None,
    }
}

fn text_at(values: &[Listed<u8>], index: usize) -> Option<&[u8]>
    ensures { option_copied result ≡ slice_get values.now index }
{
    match values.get(index) {
        Some(value) => Some(value.as_slice()),
        None => None,
    }
}

fn same_tags(a: &Tag, b: &Tag) -> bool
    ensures { IsTrue result ↔ (b.now ≡ a.now) }
{
    a == b
}

fn same_names(a: &Name, b: &Name) -> bool
    ensures { IsTrue result ↔ (b.now ≡ a.now) }
{
    a == b
}

fn same_parts(a: &PartKey, b: &PartKey) -> bool
    ensures { IsTrue result ↔ (b.now ≡ a.now) }
{
    a == b
}

fn same_texts(a: &[u8], b: &[u8]) -> bool
    ensures { IsTrue result ↔ (b.now ≡ a.now) }
{
    a == b
}

/// Whether values are the same.
pub fn same_values(a: &[Listed<u8>], b: &[Listed<u8>]) -> bool
    ensures { IsTrue result ↔ (b.now ≡ a.now) }
{
    if a.len() != b.len() {
        return false;
    }
    for at in 0..a.len() {
        if !same_texts(a[at].as_slice(), b[at].as_slice()) {
            return false;
        }
    }
    true
}

fn copy_values(alloc: Global, values: &[Listed<u8>]) -> Result<Listed<Listed<u8>>, AllocError>
    ensures { IfOk result (λ copy. copy ≡ values.now) }
{
    let mut copies = Vec::with_capacity(alloc, values.len())?;
    for value in values {
        copies.push(copy_value(alloc, value)?)?;
    }
    Ok(Listed::new(copies))
}

fn copy_value(alloc: Global, value: &Listed<u8>) -> Result<Listed<u8>, AllocError>
    ensures { IfOk result (λ copy. copy ≡ value.now) }
{
    Ok(Listed::new(value.as_slice().to_vec(alloc)?))
}
