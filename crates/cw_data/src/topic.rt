//! What the log keeps of a topic, so that no look-up walks the log.
ghost use Rattle.std.specs.Prelude.{◌≡◌, ◌≤◌, ◌<◌, ◌+◌, ◌^◌, ◌++◌, ◌∷◌, [], ℕ, List, length, take, drop, OnOk, vec_len};
ghost use Rattle.std.specs.Prelude.{vec_capacity, nat_lt, nat_le, slice_set, slice_index_or, slice_get, Some};
ghost use Rattle.std.specs.List.{find};
ghost use Rattle.std.specs.List.Sorted.{IsPartitionedBy};
ghost use Rattle.cw_data.specs.Log.{records_in, records};
ghost use Rattle.cw_data.specs.declared.entry.DataEntry.{DataEntry};
ghost use Rattle.cw_data.specs.Rows.{Marks, mark_at, rows_in, first_or, Waits, IsTopic, IsSound, EndsWith};
ghost use Rattle.cw_data.specs.Tables.{marks_in};

use crate::entry::{DataEntry, batch_at};
use cw_types::Tag;
use std::alloc::{AllocError, Global};
use std::collections::BTreeMap;

/// Where a batch's records stand in their topic, and where the batch stands in the log.
#[derive(Clone, Copy, Debug, Drop)]
pub struct Row {
    // The offset of its first record.
    pub first: u64,
    // The offset behind its last record.
    pub end: u64,
    // The batch's place in the log.
    pub place: usize,
}

/// The rows of a topic's batches. The first `passed` of them have a marker, and the committed ones of those
/// have been moved to the first `kept` places.
#[derive(Drop)]
pub struct Topic {
    pub end: u64,
    pub rows: Vec<Row>,
    pub kept: usize,
    pub passed: usize,
}

impl Topic {
    /// With no batch.
    pub fn new(alloc: Global) -> Topic
        ensures { (marks : Marks) (entries : List DataEntry) (name : List ℕ) → records name entries ≡ [] →
            IsTopic marks entries name result }
    {
        Topic {
            end: 0,
            rows: Vec::new(alloc),
            kept: 0,
            passed: 0,
        }
    }

    /// The last stable offset: where the first batch without marker begins, else the topic's end.
    pub fn stable(&self) -> u64
        requires { IsSound self.now }
        ensures { result ≡ first_or self.now.end (drop self.now.passed self.now.rows.items) }
    {
        match self.rows[self.passed..].first() {
            Some(row) => row.first,
            None => self.end,
        }
    }

    /// The first committed batch below the last stable offset that ends behind an offset.
    pub fn find(&self, from: u64) -> Option<Row>
        requires sound { IsSound self.now }
        requires rising { IsPartitionedBy (λ row. nat_le row.end from) (take self.now.kept self.now.rows.items) }
        ensures { result ≡ find (λ row. nat_lt from row.end) (take self.now.kept self.now.rows.items) }
    {
        first_behind(&self.rows[..self.kept], from)
    }

    /// Room for so many rows more.
    pub fn reserve(&mut self, more: usize) -> Result<(), AllocError>
        ensures same { (self.new.rows.items ≡ self.old.rows.items) × (self.new.end ≡ self.old.end)
            × (self.new.kept ≡ self.old.kept) × (self.new.passed ≡ self.old.passed) }
        ensures room { vec_capacity self.old.rows ≤ vec_capacity self.new.rows }
        ensures more { OnOk result (vec_len self.new.rows + more ≤ vec_capacity self.new.rows) }
    {
        self.rows.reserve(more)
    }

    /// One batch more, of so many records, with which the log ends.
    pub fn add(
        &mut self,
        entries: &[DataEntry],
        marks: &BTreeMap<Tag, Option<bool>>,
        place: usize,
        count: usize,
    )
        requires sound { IsSound self.old }
        requires room { vec_len self.old.rows < vec_capacity self.old.rows }
        requires fits { self.old.end + count < 2 ^ 64 }
        ensures topic { (name : List ℕ) (entry : DataEntry) → EndsWith entries.now place entry →
            count ≡ length (records_in name entry) →
            IsTopic (marks_in marks.now) (take place entries.now) name self.old →
            IsTopic (marks_in marks.now) entries.now name self.new }
        ensures room { vec_capacity self.old.rows ≤ vec_capacity self.new.rows }
        ensures more { vec_len self.new.rows ≤ vec_len self.old.rows + 1 }
    {
        self.push_row(place, count);
        self.advance(entries, marks);
    }

    // A row for a batch of so many records, unless it has none.
    fn push_row(&mut self, place: usize, count: usize)
        requires sound { IsSound self.old }
        requires room { vec_len self.old.rows < vec_capacity self.old.rows }
        requires fits { self.old.end + count < 2 ^ 64 }
        ensures items { self.new.rows.items ≡ self.old.rows.items ++ rows_in place self.old.end count }
        ensures end { self.new.end ≡ self.old.end + count }
        ensures same { (self.new.kept ≡ self.old.kept) × (self.new.passed ≡ self.old.passed) }
        ensures room { vec_capacity self.old.rows ≤ vec_capacity self.new.rows }
    {
        if count == 0 {
            return;
        }
        let first = self.end;
        let end = first + count as u64;
        self.end = end;
        push_made(&mut self.rows, Row { first, end, place });
    }

    /// Passes the batches that have a marker, up to the first one that has none.
    pub fn advance(&mut self, entries: &[DataEntry], marks: &BTreeMap<Tag, Option<bool>>)
        requires { IsSound self.old }
        ensures topic { (name : List ℕ) → Waits (marks_in marks.now) entries.now name self.old →
            IsTopic (marks_in marks.now) entries.now name self.new }
        ensures same { (vec_len self.new.rows ≡ vec_len self.old.rows)
            × (vec_capacity self.new.rows ≡ vec_capacity self.old.rows) }
    {
        while self.passed < self.rows.len() {
            let row = self.rows[self.passed];
            match marker_at(entries, marks, row.place) {
                Some(committed) => self.pass(row, committed),
                None => return,
            }
        }
    }

    // Passes a row that has a marker.
    fn pass(&mut self, row: Row, committed: bool)
        requires within { self.old.passed < length self.old.rows.items }
        requires behind { self.old.kept ≤ self.old.passed }
        requires there { row ≡ slice_index_or self.old.rows.items self.old.passed row }
        ensures waits { (marks : Marks) (entries : List DataEntry) (name : List ℕ) →
            mark_at marks entries row.place ≡ Some committed →
            Waits marks entries name self.old → Waits marks entries name self.new }
        ensures sound { IsSound self.new }
        ensures passed { self.new.passed ≡ self.old.passed + 1 }
        ensures same { (vec_len self.new.rows ≡ vec_len self.old.rows)
            × (vec_capacity self.new.rows ≡ vec_capacity self.old.rows) }
    {
        if committed {
            self.keep(row);
        }
        self.passed += 1;
    }

    // Moves a committed row to the front.
    fn keep(&mut self, row: Row)
        requires { self.old.kept < length self.old.rows.items }
        ensures rows { self.new.rows.items ≡ slice_set self.old.rows.items self.old.kept row }
        ensures kept { self.new.kept ≡ self.old.kept + 1 }
        ensures same { (self.new.end ≡ self.old.end) × (self.new.passed ≡ self.old.passed)
            × (vec_capacity self.new.rows ≡ vec_capacity self.old.rows) }
    {
        self.rows[self.kept] = row;
        self.kept += 1;
    }
}

/// How a transaction is marked.
pub fn marker(marks: &BTreeMap<Tag, Option<bool>>, tag: &Tag) -> Option<bool>
    ensures { result ≡ marks_in marks.now tag.now }
{
    marks.get(tag).copied().unwrap_or(None)
}

// How the batch at a place is marked.
fn marker_at(
    entries: &[DataEntry],
    marks: &BTreeMap<Tag, Option<bool>>,
    place: usize,
) -> Option<bool>
    ensures { result ≡ mark_at (marks_in marks.now) entries.now place }
{
    match batch_at(entries, place) {
        Some(batch) => marker(marks, &batch.tag),
        None => None,
    }
}

// The first of these rows that ends behind an offset.
fn first_behind(rows: &[Row], from: u64) -> Option<Row>
    requires { IsPartitionedBy (λ row. nat_le row.end from) rows.now }
    ensures { result ≡ find (λ row. nat_lt from row.end) rows.now }
{
    let at = rows.partition_point(|row| row.end <= from);
    row_at(rows, at)
}

fn row_at(rows: &[Row], at: usize) -> Option<Row>
    ensures { result ≡ slice_get rows.now at }
{
    match rows.get(at) {
        Some(row) => Some(*row),
        None => None,
    }
}

/// Pushes into room that was made.
pub fn push_made<T: Drop>(items: &mut Vec<T>, item: T)
    requires { vec_len items.old < vec_capacity items.old }
    ensures pushed { items.new.items ≡ items.old.items ++ item ∷ [] }
    ensures room { vec_capacity items.old ≤ vec_capacity items.new }
{
    if items.push(item).is_err() {
        unreachable!();
    }
}
