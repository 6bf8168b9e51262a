//! What the log keeps of its entries, so that no look-up walks them.
ghost use Rattle.std.specs.Prelude.{◌≡◌, ◌≤◌, ◌<◌, ◌+◌, ◌^◌, ◌++◌, ◌∷◌, [], ℕ, true, false, List, length, take, drop};
ghost use Rattle.std.specs.Prelude.{OnOk, IsSome, Some, option_copied, if◌then◌else◌};
ghost use Rattle.std.specs.List.{count_by};
ghost use Rattle.std.specs.Str.{bytes_eq};
ghost use Rattle.std.specs.BTreeMap.{get};
ghost use Rattle.cw_types.specs.declared.ids.Tag.{Tag};
ghost use Rattle.cw_data.specs.declared.entry.DataEntry.{DataEntry};
ghost use Rattle.cw_data.specs.declared.topic.Topic.{Topic};
ghost use Rattle.cw_types.specs.Same.{same_tag, tag_order};
ghost use Rattle.cw_data.specs.Rows.{Marks, batch_at, WaitsAt, TopicAt, EndsWith};
ghost use Rattle.cw_data.specs.Tables.{marks_in, name_order, is_in_topic, is_batch_of, NextAt, RoomAt, after_mark};
ghost use Rattle.cw_data.specs.Tables.{Keeps, HasRows, HasRoom, FitsBehind, entry_of};
ghost use Rattle.cw_data.specs.Unmarked.{is_batch_with, HasRoomFor, Roomier};

use crate::entry::{Batch, DataEntry, EntryRef, batch_at};
use crate::topic::{Topic, marker};
use crate::unmarked::Unmarked;
use cw_tables::{has_row, make_row};
use cw_types::{Name, Tag};
use std::alloc::{AllocError, Global};
use std::collections::BTreeMap;

/// How each transaction is marked, the batches without marker, and each topic.
#[derive(Drop)]
pub struct Tables {
    pub marks: BTreeMap<Tag, Option<bool>>,
    pub unmarked: Unmarked,
    pub topics: BTreeMap<Name, Topic>,
}

impl Tables {
    /// With no row.
    pub fn new(alloc: Global) -> Tables
        ensures kept { Keeps result [] }
        ensures has { HasRoom result [] }
    {
        Tables {
            marks: BTreeMap::new(alloc),
            unmarked: Unmarked::new(alloc),
            topics: BTreeMap::new(alloc),
        }
    }

    /// A topic, if it has a row.
    pub fn topic(&self, name: &Name) -> Option<&Topic>
        ensures { option_copied result ≡ get name_order self.now.topics name.now }
    {
        self.topics.get(name)
    }

    /// Rows and room for an entry beside those that are reserved. All reads as before.
    pub fn make_rows(
        &mut self,
        alloc: Global,
        reserved: &[DataEntry],
        entry: &EntryRef<'_>,
    ) -> Result<(), AllocError>
        requires { HasRoom self.old reserved.now }
        ensures kept { (entries : List DataEntry) → Keeps self.old entries → Keeps self.new entries }
        ensures has { HasRoom self.new reserved.now }
        ensures more { OnOk result (HasRoom self.new (reserved.now ++ entry_of entry.now ∷ [])) }
    {
        self.unmarked.make_row(reserved.len())?;
        match entry {
            EntryRef::Batch(batch) => self.make_batch(alloc, reserved, batch),
            EntryRef::Mark { tag, .. } => make_tag(&mut self.marks, tag),
        }
    }

    // Room for a batch in its transaction and its topic.
    fn make_batch(
        &mut self,
        alloc: Global,
        reserved: &[DataEntry],
        batch: &Batch,
    ) -> Result<(), AllocError>
        ensures roomier { Roomier self.old.unmarked self.new.unmarked }
        ensures order { self.new.unmarked.order ≡ self.old.unmarked.order }
        ensures marks { self.new.marks ≡ self.old.marks }
        ensures kept { (marks : Marks) (entries : List DataEntry) (q : List ℕ) →
            TopicAt marks entries q (get name_order self.old.topics q) →
            TopicAt marks entries q (get name_order self.new.topics q) }
        ensures topics { (q : List ℕ) →
            RoomAt (count_by (is_batch_of q) reserved.now) (get name_order self.old.topics q) →
            RoomAt (count_by (is_batch_of q) reserved.now) (get name_order self.new.topics q) }
        ensures rows { (q : List ℕ) → IsSome (get name_order self.old.topics q) →
            IsSome (get name_order self.new.topics q) }
        ensures there { OnOk result (IsSome (get name_order self.new.topics batch.now.topic)) }
        ensures room { OnOk result (HasRoomFor (count_by (is_batch_with batch.now.tag) reserved.now + 1)
            (get tag_order self.new.unmarked.places batch.now.tag)) }
        ensures more { OnOk result (RoomAt (count_by (is_batch_of batch.now.topic) reserved.now + 1)
            (get name_order self.new.topics batch.now.topic)) }
    {
        let more = batches_with(reserved, &batch.tag) + 1;
        self.unmarked.make_room(alloc, &batch.tag, more)?;
        let more = batches_of(reserved, &batch.topic) + 1;
        make_topic(&mut self.topics, alloc, &batch.topic, more)
    }

    /// The entry with which the log ends.
    pub fn add(&mut self, entries: &[DataEntry], place: usize)
        requires last { length entries.now ≡ place + 1 }
        requires kept { Keeps self.old (take place entries.now) }
        requires has { HasRoom self.old (drop place entries.now) }
        requires fits { (entry : DataEntry) → EndsWith entries.now place entry →
            FitsBehind (take place entries.now) entry }
        ensures kept { Keeps self.new entries.now }
        ensures has { (entry : DataEntry) (front back : List DataEntry) → EndsWith entries.now place entry →
            HasRoom self.old (front ++ entry ∷ back) → HasRoom self.new (front ++ back) }
    {
        match &entries[place] {
            DataEntry::Batch(batch) => self.add_batch(entries, place, batch),
            DataEntry::Mark { tag, committed } => self.add_mark(entries, place, tag, *committed),
        }
    }

    fn add_batch(&mut self, entries: &[DataEntry], place: usize, batch: &Batch)
        requires last { EndsWith entries.now place (DataEntry.Batch batch.now) }
        requires kept { Keeps self.old (take place entries.now) }
        requires has { HasRoom self.old (DataEntry.Batch batch.now ∷ []) }
        requires fits { FitsBehind (take place entries.now) (DataEntry.Batch batch.now) }
        ensures kept { Keeps self.new entries.now }
        ensures has { (front back : List DataEntry) → HasRoom self.old (front ++ DataEntry.Batch batch.now ∷ back) →
            HasRoom self.new (front ++ back) }
    {
        let waits = marker(&self.marks, &batch.tag).is_none();
        self.unmarked.add_batch(batch, waits);
        add_to(&mut self.topics, &self.marks, entries, place, batch);
    }

    fn add_mark(&mut self, entries: &[DataEntry], place: usize, tag: &Tag, committed: bool)
        requires last { EndsWith entries.now place (DataEntry.Mark tag.now committed) }
        requires kept { Keeps self.old (take place entries.now) }
        requires has { HasRoom self.old (DataEntry.Mark tag.now committed ∷ []) }
        ensures kept { Keeps self.new entries.now }
        ensures has { (front back : List DataEntry) →
            HasRoom self.old (front ++ DataEntry.Mark tag.now committed ∷ back) → HasRoom self.new (front ++ back) }
    {
        mark(&mut self.marks, tag, committed);
        advance_all(
            &mut self.topics,
            &self.marks,
            entries,
            self.unmarked.places_of(tag),
        );
        self.unmarked.add_mark(tag);
    }
}

// How many of these entries are batches of a topic.
fn batches_of(entries: &[DataEntry], name: &Name) -> usize
    ensures { result ≡ count_by (is_batch_of name.now) entries.now }
{
    entries
        .iter()
        .filter(|entry| is_batch_of(entry, name))
        .count()
}

fn is_batch_of(entry: &DataEntry, name: &Name) -> bool
    ensures { result ≡ is_batch_of name.now entry.now }
{
    match entry {
        DataEntry::Batch(batch) => same_names(name, &batch.topic),
        DataEntry::Mark { .. } => false,
    }
}

// How many of these entries are batches of a transaction.
fn batches_with(entries: &[DataEntry], tag: &Tag) -> usize
    ensures { result ≡ count_by (is_batch_with tag.now) entries.now }
{
    entries
        .iter()
        .filter(|entry| is_batch_with(entry, tag))
        .count()
}

fn is_batch_with(entry: &DataEntry, tag: &Tag) -> bool
    ensures { result ≡ is_batch_with tag.now entry.now }
{
    match entry {
        DataEntry::Batch(batch) => same_tags(tag, &batch.tag),
        DataEntry::Mark { .. } => false,
    }
}

fn same_names(a: &Name, b: &Name) -> bool
    ensures { result ≡ bytes_eq a.now b.now }
{
    a == b
}

fn same_tags(a: &Tag, b: &Tag) -> bool
    ensures { result ≡ same_tag a.now b.now }
{
    a == b
}

// A topic with room for so many rows more.
fn make_topic(
    topics: &mut BTreeMap<Name, Topic>,
    alloc: Global,
    name: &Name,
    more: usize,
) -> Result<(), AllocError>
    ensures kept { (marks : Marks) (entries : List DataEntry) (q : List ℕ) →
        TopicAt marks entries q (get name_order topics.old q) → TopicAt marks entries q (get name_order topics.new q) }
    ensures room { (n : ℕ) (q : List ℕ) → (bytes_eq q name.now ≡ true → n ≤ more) →
        RoomAt n (get name_order topics.old q) → RoomAt n (get name_order topics.new q) }
    ensures rows { (q : List ℕ) → IsSome (get name_order topics.old q) → IsSome (get name_order topics.new q) }
    ensures there { OnOk result (IsSome (get name_order topics.new name.now)) }
    ensures more { OnOk result (RoomAt more (get name_order topics.new name.now)) }
{
    if !has_row(topics, name) {
        let mut topic = Topic::new(alloc);
        topic.reserve(more)?;
        topics.insert(name.copy()?, topic)?;
        return Ok(());
    }
    reserve_in(topics, name, more)
}

// Room for so many rows more of a topic, if it has a row.
fn reserve_in(
    topics: &mut BTreeMap<Name, Topic>,
    name: &Name,
    more: usize,
) -> Result<(), AllocError>
    ensures kept { (marks : Marks) (entries : List DataEntry) (q : List ℕ) →
        TopicAt marks entries q (get name_order topics.old q) → TopicAt marks entries q (get name_order topics.new q) }
    ensures room { (n : ℕ) (q : List ℕ) → RoomAt n (get name_order topics.old q) →
        RoomAt n (get name_order topics.new q) }
    ensures rows { (q : List ℕ) → IsSome (get name_order topics.old q) → IsSome (get name_order topics.new q) }
    ensures more { OnOk result (RoomAt more (get name_order topics.new name.now)) }
{
    match topics.get_mut(name) {
        Some(topic) => topic.reserve(more),
        None => Ok(()),
    }
}

// A row that reads as no marker, if there is none.
fn make_tag(marks: &mut BTreeMap<Tag, Option<bool>>, tag: &Tag) -> Result<(), AllocError>
    ensures same { (q : Tag) → marks_in marks.new q ≡ marks_in marks.old q }
    ensures rows { (q : Tag) → IsSome (get tag_order marks.old q) → IsSome (get tag_order marks.new q) }
    ensures there { OnOk result (IsSome (get tag_order marks.new tag.now)) }
{
    if has_row(marks, tag) {
        return Ok(());
    }
    make_row(marks, tag.copy()?, None)
}

// The batch with which the log ends, in its topic.
fn add_to(
    topics: &mut BTreeMap<Name, Topic>,
    marks: &BTreeMap<Tag, Option<bool>>,
    entries: &[DataEntry],
    place: usize,
    batch: &Batch,
)
    requires last { EndsWith entries.now place (DataEntry.Batch batch.now) }
    requires has { IsSome (get name_order topics.old batch.now.topic) }
    requires topics { (name : List ℕ) →
        TopicAt (marks_in marks.now) (take place entries.now) name (get name_order topics.old name) }
    requires room { RoomAt 1 (get name_order topics.old batch.now.topic) }
    requires fits { FitsBehind (take place entries.now) (DataEntry.Batch batch.now) }
    ensures topics { (name : List ℕ) → TopicAt (marks_in marks.now) entries.now name (get name_order topics.new name) }
    ensures rows { (name : List ℕ) → IsSome (get name_order topics.old name) → IsSome (get name_order topics.new name) }
    ensures room { (n : ℕ) (name : List ℕ) →
        RoomAt (n + (if bytes_eq name batch.now.topic then 1 else 0)) (get name_order topics.old name) →
        RoomAt n (get name_order topics.new name) }
{
    let count = batch.values.as_slice().len();
    match topics.get_mut(&batch.topic) {
        Some(topic) => topic.add(entries, marks, place, count),
        None => {}
    }
}

// A marker of a transaction, unless it has one.
fn mark(marks: &mut BTreeMap<Tag, Option<bool>>, tag: &Tag, committed: bool)
    requires { IsSome (get tag_order marks.old tag.now) }
    ensures marked { (q : Tag) → marks_in marks.new q ≡ after_mark (marks_in marks.old) tag.now committed q }
    ensures rows { (q : Tag) → IsSome (get tag_order marks.old q) → IsSome (get tag_order marks.new q) }
{
    if marker(marks, tag).is_none() {
        set_marker(marks, tag, committed);
    }
}

fn set_marker(marks: &mut BTreeMap<Tag, Option<bool>>, tag: &Tag, committed: bool)
    requires { IsSome (get tag_order marks.old tag.now) }
    ensures marked { (q : Tag) → marks_in marks.new q
        ≡ (if same_tag q tag.now then Some committed else marks_in marks.old q) }
    ensures rows { (q : Tag) → IsSome (get tag_order marks.old q) → IsSome (get tag_order marks.new q) }
{
    if let Some(marker) = marks.get_mut(tag) {
        *marker = Some(committed);
    }
}

// Passes what a transaction's marker settles, in the topics of its batches at these places.
fn advance_all(
    topics: &mut BTreeMap<Name, Topic>,
    marks: &BTreeMap<Tag, Option<bool>>,
    entries: &[DataEntry],
    places: &[usize],
)
    requires waits { (name : List ℕ) → WaitsAt (marks_in marks.now) entries.now name (get name_order topics.old name) }
    requires next { (name : List ℕ) →
        NextAt (marks_in marks.now) entries.now name places.now (get name_order topics.old name) }
    ensures topics { (name : List ℕ) → TopicAt (marks_in marks.now) entries.now name (get name_order topics.new name) }
    ensures rows { (name : List ℕ) → IsSome (get name_order topics.old name) → IsSome (get name_order topics.new name) }
    ensures room { (n : ℕ) (name : List ℕ) → RoomAt n (get name_order topics.old name) →
        RoomAt n (get name_order topics.new name) }
{
    for place in places {
        advance_at(topics, marks, entries, *place);
    }
}

// The same for the batch at a place.
fn advance_at(
    topics: &mut BTreeMap<Name, Topic>,
    marks: &BTreeMap<Tag, Option<bool>>,
    entries: &[DataEntry],
    place: usize,
)
    requires { (name : List ℕ) → WaitsAt (marks_in marks.now) entries.now name (get name_order topics.old name) }
    ensures advanced { (name : List ℕ) → is_in_topic name (batch_at entries.now place) ≡ true →
        TopicAt (marks_in marks.now) entries.now name (get name_order topics.new name) }
    ensures others { (name : List ℕ) → is_in_topic name (batch_at entries.now place) ≡ false →
        get name_order topics.new name ≡ get name_order topics.old name }
    ensures rows { (name : List ℕ) → IsSome (get name_order topics.old name) → IsSome (get name_order topics.new name) }
    ensures room { (n : ℕ) (name : List ℕ) → RoomAt n (get name_order topics.old name) →
        RoomAt n (get name_order topics.new name) }
{
    match batch_at(entries, place) {
        Some(batch) => advance(topics, marks, entries, &batch.topic),
        None => {}
    }
}

fn advance(
    topics: &mut BTreeMap<Name, Topic>,
    marks: &BTreeMap<Tag, Option<bool>>,
    entries: &[DataEntry],
    topic: &Name,
)
    requires { WaitsAt (marks_in marks.now) entries.now topic.now (get name_order topics.old topic.now) }
    ensures advanced { (name : List ℕ) → bytes_eq name topic.now ≡ true →
        TopicAt (marks_in marks.now) entries.now name (get name_order topics.new name) }
    ensures others { (name : List ℕ) → bytes_eq name topic.now ≡ false →
        get name_order topics.new name ≡ get name_order topics.old name }
    ensures rows { (name : List ℕ) → IsSome (get name_order topics.old name) → IsSome (get name_order topics.new name) }
    ensures room { (n : ℕ) (name : List ℕ) → RoomAt n (get name_order topics.old name) →
        RoomAt n (get name_order topics.new name) }
{
    match topics.get_mut(topic) {
        Some(kept) => kept.advance(entries, marks),
        None => {}
    }
}
