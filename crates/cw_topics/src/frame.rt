//! A frame of the transaction log.
ghost use Rattle.std.specs.Prelude.{◌≡◌, ◌∷◌, [], ℕ, List, length, ◌≤◌, IfOk, Some};
ghost use Rattle.cw_types.specs.declared.ids.Span.{Span as SpanValue};
ghost use Rattle.cw_types.specs.declared.ids.Tag.{Tag as TagValue};
ghost use Rattle.cw_txn.specs.Body.{AreShort, entries_bytes};
ghost use Rattle.cw_txn.specs.declared.entry.Entry.TheVariants as entry;

use cw_compact::{copy_entries, one_frame};
use cw_txn::{Entry, write_entries};
use cw_types::{Listed, Span};
use std::alloc::{AllocError, Global};
use std::collections::LinkedList;
use std::marker::Model;

/// A frame of the transaction log: its entries, the list of a copy of them, which is hung to the log's frames, and its
/// bytes. Clauses see its entries.
#[derive(Drop)]
pub struct EntryFrame {
    entries: Listed<Entry>,
    list: LinkedList<Listed<Entry>>,
    body: Vec<u8>,
}

impl Model for EntryFrame {
    ghost use Rattle.std.specs.Prelude.{List};
    ghost use Rattle.cw_txn.specs.declared.entry.Entry.{Entry};
    ghost use Rattle.cw_topics.specs.Entries.{IsEntryFrame};

    ghost Value = { List Entry };

    ghost view = { λ f. f.entries };

    ghost invariant = { λ f. IsEntryFrame f.entries f.list f.body.items };
}

impl EntryFrame {
    /// The frame of entries.
    pub(crate) fn new(alloc: Global, entries: Vec<Entry>) -> Result<EntryFrame, AllocError>
        requires { AreShort entries.items }
        ensures { IfOk result (λ frame. frame ≡ entries.items) }
    {
        let body = write_entries(alloc, entries.as_slice())?;
        let list = one_frame(alloc, copy_entries(alloc, entries.as_slice())?)?;
        Ok(EntryFrame {
            entries: Listed::new(entries),
            list,
            body,
        })
    }

    /// Its bytes.
    pub fn body(&self) -> &[u8]
        ensures bytes { result.now ≡ entries_bytes self.now }
        ensures some { 1 ≤ length result.now }
    {
        self.body.as_slice()
    }

    /// Its entries.
    pub fn entries(&self) -> &[Entry]
        ensures { result.now ≡ self.now }
    {
        self.entries.as_slice()
    }

    /// Its entries, and the list that is hung to the log's frames, once its bytes stand in the log.
    pub(crate) fn into_parts(self) -> (Listed<Entry>, LinkedList<Listed<Entry>>)
        ensures entries { result.0 ≡ self }
        ensures list { result.1 ≡ self ∷ [] }
    {
        (self.entries, self.list)
    }
}

/// The spans of one entry, a commit.
pub fn spans_of(entries: Listed<Entry>) -> Option<Listed<Span>>
    ensures { (tag : TagValue) (generation : ℕ) (spans : List SpanValue) →
        entries ≡ entry.Commit tag generation spans ∷ [] → result ≡ Some spans }
{
    let mut entries = entries.into_vec();
    match entries.pop() {
        Some(Entry::Commit { spans, .. }) => Some(spans),
        _ => None,
    }
}
