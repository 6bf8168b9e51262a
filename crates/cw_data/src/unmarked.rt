//! The batches without marker, so that where a transaction ends none but its own are walked.
ghost use Rattle.std.specs.Prelude.{◌≡◌, ◌≤◌, ◌<◌, ◌+◌, ◌^◌, ◌++◌, ◌∷◌, [], ℕ, ◌==◌, ◌&&◌, false, List, length};
ghost use Rattle.std.specs.Prelude.{slice_get, OnOk, IsSome, Some, is_none, option_copied, if◌then◌else◌};
ghost use Rattle.std.specs.BTreeMap.{get, IsOrdered};
ghost use Rattle.std.specs.Ordering.{nat_cmp};
ghost use Rattle.cw_types.specs.declared.ids.Tag.{Tag};
ghost use Rattle.cw_types.specs.Same.{same_tag, tag_order};

use crate::entry::{Batch, DataEntry, batch_at};
use crate::topic::push_made;
use cw_tables::has_row;
use cw_types::{Decided, Tag, Verdict};
use std::alloc::{AllocError, Global};
use std::collections::BTreeMap;

/// Where in the log each transaction without marker begins, and the places of its batches.
#[derive(Drop)]
pub struct Unmarked {
    // Whether one begins there, for each place that has a row.
    pub order: BTreeMap<usize, bool>,
    pub places: BTreeMap<Tag, Vec<usize>>,
    // The place of the next entry.
    pub next: usize,
}

impl Unmarked {
    ghost use Rattle.std.specs.Prelude.{Bool};
    ghost use Rattle.cw_data.specs.declared.entry.DataEntry.{DataEntry};
    ghost use Rattle.cw_data.specs.Rows.{Marks};
    ghost use Rattle.cw_data.specs.Tables.{after_mark};
    ghost use Rattle.cw_data.specs.Unmarked.{places_at, HasRoomFor, KeepsPlaces, HasPlaces, Roomier};

    /// With no row.
    pub fn new(alloc: Global) -> Unmarked
        ensures kept { (marks : Marks) → KeepsPlaces marks [] result }
        ensures room { HasPlaces result [] }
    {
        Unmarked {
            order: BTreeMap::new(alloc),
            places: BTreeMap::new(alloc),
            next: 0,
        }
    }

    /// The places of a transaction's batches, unless it has a marker.
    pub fn places_of(&self, tag: &Tag) -> &[usize]
        ensures { result.now ≡ places_at self.now.places tag.now }
    {
        match self.places.get(tag) {
            Some(places) => places.as_slice(),
            None => &[],
        }
    }

    /// A row for an entry behind so many others. All reads as before.
    pub fn make_row(&mut self, more: usize) -> Result<(), AllocError>
        ensures roomier { Roomier self.old self.new }
        ensures places { self.new.places ≡ self.old.places }
        ensures there { OnOk result (IsSome (get nat_cmp self.new.order (self.old.next + more))) }
        ensures small { OnOk result (self.old.next + more + 1 < 2 ^ 64) }
    {
        make_row(&mut self.order, self.next, more)
    }

    /// Room for so many batches of a transaction more. All reads as before.
    pub fn make_room(&mut self, alloc: Global, tag: &Tag, more: usize) -> Result<(), AllocError>
        ensures roomier { Roomier self.old self.new }
        ensures order { self.new.order ≡ self.old.order }
        ensures there { OnOk result (HasRoomFor more (get tag_order self.new.places tag.now)) }
    {
        make_room(&mut self.places, alloc, tag, more)
    }

    /// A batch with which the log ends. It may have a marker already.
    pub fn add_batch(&mut self, batch: &Batch, waits: bool)
        requires { HasPlaces self.old (DataEntry.Batch batch.now ∷ []) }
        ensures kept { (marks : Marks) (entries : List DataEntry) → waits ≡ is_none (marks batch.now.tag) →
            KeepsPlaces marks entries self.old →
            KeepsPlaces marks (entries ++ DataEntry.Batch batch.now ∷ []) self.new }
        ensures has { (front back : List DataEntry) → HasPlaces self.old (front ++ DataEntry.Batch batch.now ∷ back) →
            HasPlaces self.new (front ++ back) }
    {
        let begins = push_if(&mut self.places, &batch.tag, self.next, waits);
        fill_row(&mut self.order, self.next, begins);
        self.next += 1;
    }

    /// A marker with which the log ends: no batch of its transaction waits for one any more.
    pub fn add_mark(&mut self, tag: &Tag)
        requires small { self.old.next + 1 < 2 ^ 64 }
        requires before { (n : ℕ) → slice_get (places_at self.old.places tag.now) 0 ≡ Some n → n < self.old.next }
        ensures kept { (marks now : Marks) (entries : List DataEntry) (committed : Bool) →
            ((q : Tag) → now q ≡ after_mark marks tag.now committed q) → KeepsPlaces marks entries self.old →
            KeepsPlaces now (entries ++ DataEntry.Mark tag.now committed ∷ []) self.new }
        ensures has { (committed : Bool) (front back : List DataEntry) →
            HasPlaces self.old (front ++ DataEntry.Mark tag.now committed ∷ back) → HasPlaces self.new (front ++ back) }
    {
        let first = clear_places(&mut self.places, tag);
        empty_row(&mut self.order, first);
        empty_row(&mut self.order, Some(self.next));
        self.next += 1;
    }
}

ghost use Rattle.cw_data.specs.Rows.{batch_at};
ghost use Rattle.cw_types.specs.Verdict.{has_ended};
ghost use Rattle.cw_data.specs.Unmarked.{stands_at, is_place, places_at, ended_of, ended_in, first_ended, HasRoomFor};

// A row for an entry behind so many others.
fn make_row(order: &mut BTreeMap<usize, bool>, next: usize, more: usize) -> Result<(), AllocError>
    ensures same { (n : ℕ) → stands_at order.new n ≡ stands_at order.old n }
    ensures kept { (n : ℕ) → IsSome (get nat_cmp order.old n) → IsSome (get nat_cmp order.new n) }
    ensures there { OnOk result (IsSome (get nat_cmp order.new (next + more))) }
    ensures small { OnOk result (next + more + 1 < 2 ^ 64) }
{
    if more >= usize::MAX - next {
        return Err(AllocError);
    }
    let place = next + more;
    if !has_row(order, &place) {
        order.insert(place, false)?;
    }
    Ok(())
}

// Room for so many places more of a transaction.
fn make_room(
    places: &mut BTreeMap<Tag, Vec<usize>>,
    alloc: Global,
    tag: &Tag,
    more: usize,
) -> Result<(), AllocError>
    ensures same { (q : Tag) → places_at places.new q ≡ places_at places.old q }
    ensures kept { (n : ℕ) (q : Tag) → HasRoomFor n (get tag_order places.old q) →
        HasRoomFor n (get tag_order places.new q) }
    ensures there { OnOk result (HasRoomFor more (get tag_order places.new tag.now)) }
{
    if !has_row(places, tag) {
        let mut row = Vec::new(alloc);
        row.reserve(more)?;
        places.insert(tag.copy()?, row)?;
        return Ok(());
    }
    reserve_in(places, tag, more)
}

// The same where it has a row.
fn reserve_in(
    places: &mut BTreeMap<Tag, Vec<usize>>,
    tag: &Tag,
    more: usize,
) -> Result<(), AllocError>
    requires { IsSome (get tag_order places.old tag.now) }
    ensures same { (q : Tag) → places_at places.new q ≡ places_at places.old q }
    ensures kept { (n : ℕ) (q : Tag) → HasRoomFor n (get tag_order places.old q) →
        HasRoomFor n (get tag_order places.new q) }
    ensures there { OnOk result (HasRoomFor more (get tag_order places.new tag.now)) }
{
    match places.get_mut(tag) {
        Some(row) => row.reserve(more),
        None => Ok(()),
    }
}

// The place of a batch that waits for a marker. Whether its transaction begins there.
fn push_if(places: &mut BTreeMap<Tag, Vec<usize>>, tag: &Tag, place: usize, waits: bool) -> bool
    requires { HasRoomFor 1 (get tag_order places.old tag.now) }
    ensures begins { result ≡ (waits && (length (places_at places.old tag.now) == 0)) }
    ensures places { (q : Tag) → places_at places.new q ≡ (if waits && same_tag q tag.now
        then places_at places.old q ++ place ∷ [] else places_at places.old q) }
    ensures room { (n : ℕ) (q : Tag) →
        HasRoomFor (n + (if same_tag q tag.now then 1 else 0)) (get tag_order places.old q) →
        HasRoomFor n (get tag_order places.new q) }
{
    if !waits {
        return false;
    }
    push_place(places, tag, place)
}

// One place of a transaction more. Whether it is the first.
fn push_place(places: &mut BTreeMap<Tag, Vec<usize>>, tag: &Tag, place: usize) -> bool
    requires { HasRoomFor 1 (get tag_order places.old tag.now) }
    ensures first { result ≡ (length (places_at places.old tag.now) == 0) }
    ensures places { (q : Tag) → places_at places.new q
        ≡ (if same_tag q tag.now then places_at places.old q ++ place ∷ [] else places_at places.old q) }
    ensures room { (n : ℕ) (q : Tag) →
        HasRoomFor (n + (if same_tag q tag.now then 1 else 0)) (get tag_order places.old q) →
        HasRoomFor n (get tag_order places.new q) }
{
    match places.get_mut(tag) {
        Some(row) => {
            let is_first = row.is_empty();
            push_made(row, place);
            is_first
        }
        None => true,
    }
}

// No place of a transaction any more. It gives the one that was the first.
fn clear_places(places: &mut BTreeMap<Tag, Vec<usize>>, tag: &Tag) -> Option<usize>
    ensures first { result ≡ slice_get (places_at places.old tag.now) 0 }
    ensures places { (q : Tag) → places_at places.new q ≡ (if same_tag q tag.now then [] else places_at places.old q) }
    ensures room { (n : ℕ) (q : Tag) → HasRoomFor n (get tag_order places.old q) →
        HasRoomFor n (get tag_order places.new q) }
{
    match places.get_mut(tag) {
        Some(row) => {
            let first = row.first().copied();
            row.clear();
            first
        }
        None => None,
    }
}

// A transaction begins at a place whose row is there; else the row goes.
fn fill_row(order: &mut BTreeMap<usize, bool>, place: usize, begins: bool)
    requires { IsSome (get nat_cmp order.old place) }
    ensures rows { (n : ℕ) → stands_at order.new n ≡ (if place == n then begins else stands_at order.old n) }
    ensures kept { (n : ℕ) → (place == n) ≡ false → IsSome (get nat_cmp order.old n) →
        IsSome (get nat_cmp order.new n) }
{
    if !begins {
        empty_row(order, Some(place));
        return;
    }
    if let Some(row) = order.get_mut(&place) {
        *row = true;
    }
}

// The row of a place goes.
fn empty_row(order: &mut BTreeMap<usize, bool>, place: Option<usize>)
    ensures rows { (n : ℕ) → stands_at order.new n ≡ (if is_place place n then false else stands_at order.old n) }
    ensures kept { (n : ℕ) → is_place place n ≡ false → IsSome (get nat_cmp order.old n) →
        IsSome (get nat_cmp order.new n) }
{
    if let Some(place) = place {
        order.remove(&place);
    }
}

/// The first transaction of the order that has ended.
pub fn first_ended<'a, T: Decided>(
    order: &BTreeMap<usize, bool>,
    entries: &'a [DataEntry],
    txn: &T,
) -> Option<&'a Tag>
    ensures first { option_copied result ≡ first_ended (T.verdict_of txn.now) entries.now order.now.entries }
    ensures ordered { IsOrdered nat_cmp order.now }
{
    for (place, begins) in order.iter() {
        if let Some(tag) = ended_in(entries, *place, *begins, txn) {
            return Some(tag);
        }
    }
    None
}

// The transaction that begins at a place, if it has ended.
fn ended_in<'a, T: Decided>(
    entries: &'a [DataEntry],
    place: usize,
    begins: bool,
    txn: &T,
) -> Option<&'a Tag>
    ensures { option_copied result ≡ ended_in (T.verdict_of txn.now) entries.now (place, begins) }
{
    if !begins {
        return None;
    }
    let batch = batch_at(entries, place)?;
    if has_ended(txn, &batch.tag) {
        Some(&batch.tag)
    } else {
        None
    }
}

fn has_ended<T: Decided>(txn: &T, tag: &Tag) -> bool
    ensures { result ≡ has_ended (T.verdict_of txn.now tag.now) }
{
    match txn.verdict(tag) {
        Verdict::Committed => true,
        Verdict::Aborted => true,
        Verdict::Open => false,
    }
}
