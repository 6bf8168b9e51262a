//! The entries of the transaction list.
ghost use Rattle.std.specs.Prelude.{◌≡◌, ◌↔◌, IfOk, IsTrue, take};
ghost use Rattle.cw_txn.specs.declared.entry.Entry.{Entry};
ghost use Rattle.cw_txn.specs.Tables.{entry_of};

use cw_types::{Epoch, Listed, PartKey, Span, Tag, Tid};
use std::alloc::{AllocError, Global};

/// One part of a set of offsets.
#[derive(Debug, PartialEq, Eq, Drop)]
pub struct SetOffset {
    /// The part.
    pub part: PartKey,
    /// Its base and end from now on; with none the part begins anew at 0.
    pub to: Option<u64>,
}

impl SetOffset {
    /// A copy.
    pub fn copy(&self) -> Result<Self, AllocError>
        ensures { IfOk result (λ set. set ≡ self.now) }
    {
        Ok(SetOffset {
            part: self.part.copy()?,
            to: self.to,
        })
    }
}

/// An entry of the transaction list.
#[derive(Debug, Drop)]
pub enum Entry {
    /// The producer's epoch is one higher from here on, and all its older producers are fenced.
    Bump(Tid),
    /// A transaction is committed.
    Commit {
        /// The transaction.
        tag: Tag,
        /// The generation of the task set that its producer is of; it decides nothing here.
        generation: u64,
        /// What it adds, a span a part.
        spans: Listed<Span>,
    },
    /// Offsets of parts are set, because a user asked for it.
    Set {
        /// The producer that sets them.
        tid: Tid,
        /// Its epoch.
        epoch: Epoch,
        /// The parts, each with its offset.
        list: Listed<SetOffset>,
    },
}

impl Entry {
    /// A copy.
    pub fn copy(&self, alloc: Global) -> Result<Self, AllocError>
        ensures { IfOk result (λ entry. entry ≡ self.now) }
    {
        EntryRef::of(self).to_entry(alloc)
    }
}

/// An entry that is borrowed in parts.
#[derive(Debug, Clone, Copy, Drop)]
pub enum EntryRef<'a> {
    /// As `Entry::Bump`.
    Bump(&'a Tid),
    /// As `Entry::Commit`.
    Commit {
        /// The transaction.
        tag: &'a Tag,
        /// The generation of its producer's task set.
        generation: u64,
        /// What it adds.
        spans: &'a [Span],
    },
    /// As `Entry::Set`.
    Set {
        /// The producer that sets them.
        tid: &'a Tid,
        /// Its epoch.
        epoch: Epoch,
        /// The parts.
        list: &'a [SetOffset],
    },
}

impl<'a> EntryRef<'a> {
    /// The borrowed form of an entry.
    pub fn of(entry: &'a Entry) -> EntryRef<'a>
        ensures { entry_of result ≡ entry.now }
    {
        match entry {
            Entry::Bump(tid) => EntryRef::Bump(tid),
            Entry::Commit {
                tag,
                generation,
                spans,
            } => EntryRef::Commit {
                tag,
                generation: *generation,
                spans: spans.as_slice(),
            },
            Entry::Set { tid, epoch, list } => EntryRef::Set {
                tid,
                epoch: *epoch,
                list: list.as_slice(),
            },
        }
    }

    /// The entry, copied.
    pub fn to_entry(&self, alloc: Global) -> Result<Entry, AllocError>
        ensures { IfOk result (λ entry. entry ≡ entry_of self.now) }
    {
        match self {
            EntryRef::Bump(tid) => Ok(Entry::Bump(tid.copy()?)),
            EntryRef::Commit {
                tag,
                generation,
                spans,
            } => Ok(Entry::Commit {
                tag: tag.copy()?,
                generation: *generation,
                spans: copy_spans(alloc, spans)?,
            }),
            EntryRef::Set { tid, epoch, list } => Ok(Entry::Set {
                tid: tid.copy()?,
                epoch: *epoch,
                list: copy_offsets(alloc, list)?,
            }),
        }
    }

    /// Whether it is this entry.
    pub fn is(&self, entry: &Entry) -> bool
        ensures { IsTrue result ↔ (entry.now ≡ entry_of self.now) }
    {
        match (self, entry) {
            (EntryRef::Bump(tid), Entry::Bump(other)) => same_tids(tid, other),
            (
                EntryRef::Commit {
                    tag,
                    generation,
                    spans,
                },
                Entry::Commit {
                    tag: other,
                    generation: of,
                    spans: list,
                },
            ) => {
                same_tags(tag, other) && *generation == *of && same_spans(spans, list.as_slice())
            }
            (
                EntryRef::Set { tid, epoch, list },
                Entry::Set {
                    tid: other,
                    epoch: of,
                    list: sets,
                },
            ) => { same_tids(tid, other) && epoch.0 == of.0 && same_offsets(list, sets.as_slice()) }
            _ => false,
        }
    }
}

fn same_tids(a: &Tid, b: &Tid) -> bool
    ensures { IsTrue result ↔ (b.now ≡ a.now) }
{
    a == b
}

fn same_tags(a: &Tag, b: &Tag) -> bool
    ensures { IsTrue result ↔ (b.now ≡ a.now) }
{
    a == b
}

fn same_spans(a: &[Span], b: &[Span]) -> bool
    ensures { IsTrue result ↔ (b.now ≡ a.now) }
{
    a == b
}

fn same_offsets(a: &[SetOffset], b: &[SetOffset]) -> bool
    ensures { IsTrue result ↔ (b.now ≡ a.now) }
{
    a == b
}

fn copy_spans(alloc: Global, spans: &[Span]) -> Result<Listed<Span>, AllocError>
    ensures { IfOk result (λ copy. copy ≡ spans.now) }
{
    let mut copies = Vec::with_capacity(alloc, spans.len())?;
    for span in spans {
        copies.push(span.copy()?)?;
    }
    Ok(Listed::new(copies))
}

fn copy_offsets(alloc: Global, list: &[SetOffset]) -> Result<Listed<SetOffset>, AllocError>
    ensures { IfOk result (λ copy. copy ≡ list.now) }
{
    let mut copies = Vec::with_capacity(alloc, list.len())?;
    for set in list {
        copies.push(set.copy()?)?;
    }
    Ok(Listed::new(copies))
}
