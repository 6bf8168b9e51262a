//! What is kept of the calls, so that no look-up walks them.
ghost use Rattle.std.specs.Prelude.{◌≡◌, ◌≤◌, ◌<◌, ◌+◌, ◌^◌, ◌++◌, ◌∷◌, [], ℕ, ◌==◌, false, OnOk, IsSome, Some, None};
ghost use Rattle.std.specs.Prelude.{is_none, option_copied, option_map, if◌then◌else◌};
ghost use Rattle.std.specs.BTreeMap.{get, values, IsOrdered};
ghost use Rattle.std.specs.Ordering.{nat_cmp};
ghost use Rattle.cw_types.specs.declared.ids.Tag.{Tag};
ghost use Rattle.cw_types.specs.declared.ids.PartKey.{PartKey};
ghost use Rattle.cw_types.specs.Same.{same_tag, same_part};

use crate::call::{CallRef, OffsetCall};
use crate::under::{Settled, Under};
use cw_tables::{has_row, make_row, set_row, value_at};
use cw_types::{Decided, PartKey, Past, Tag, Verdict};
use std::alloc::{AllocError, Global};
use std::collections::BTreeMap;

/// What each part has, what waits under each transaction, and where in the log each that waits begins.
#[derive(Drop)]
pub struct Tables {
    pub parts: BTreeMap<PartKey, Option<Settled>>,
    pub waiting: BTreeMap<Tag, Under>,
    pub order: BTreeMap<u64, Option<Tag>>,
    pub next: u64,
}

impl Tables {
    ghost use Rattle.std.specs.Prelude.{List};
    ghost use Rattle.cw_offset.specs.declared.call.OffsetCall.{OffsetCall};
    ghost use Rattle.cw_offset.specs.Rows.{settled_at, HasPart};
    ghost use Rattle.cw_offset.specs.Tables.{call_of, under_at, Keeps, HasRows, HasRoom, HasUnder, HasPartIn, Uses};
    ghost use Rattle.cw_offset.specs.Tables.{Roomier, BacksParts, StandsBefore};

    /// With no row.
    pub fn new(alloc: Global) -> Tables
        ensures kept { Keeps result [] }
        ensures room { HasRoom result [] }
    {
        Tables {
            parts: BTreeMap::new(alloc),
            waiting: BTreeMap::new(alloc),
            order: BTreeMap::new(alloc),
            next: 0,
        }
    }

    /// What a part has, behind the puts that are settled.
    pub fn settled(&self, part: &PartKey) -> Option<Settled>
        ensures { result ≡ settled_at self.now.parts part.now }
    {
        value_at(&self.parts, part, None)
    }

    /// The rows that a call may change, and a place for it behind those that are reserved. All reads as before.
    pub fn make_room(
        &mut self,
        alloc: Global,
        reserved: usize,
        call: &CallRef<'_>,
    ) -> Result<(), AllocError>
        ensures roomier { Roomier self.old self.new }
        ensures rows { OnOk result (HasRows self.new (call_of call.now)) }
        ensures place { OnOk result (IsSome (get nat_cmp self.new.order (self.old.next + reserved))) }
        ensures small { OnOk result (self.old.next + reserved + 1 < 2 ^ 64) }
    {
        make_place(&mut self.order, self.next, reserved)?;
        self.make_rows(alloc, call)
    }

    fn make_rows(&mut self, alloc: Global, call: &CallRef<'_>) -> Result<(), AllocError>
        ensures roomier { Roomier self.old self.new }
        ensures rows { OnOk result (HasRows self.new (call_of call.now)) }
        ensures order { self.new.order ≡ self.old.order }
    {
        match call {
            CallRef::Stand(tag) => self.make_under(alloc, tag),
            CallRef::Put { tag, part, .. } => {
                self.make_part(part)?;
                self.make_under(alloc, tag)?;
                self.make_part_under(tag, part)
            }
            CallRef::Commit(_) => Ok(()),
            CallRef::Abort(_) => Ok(()),
            CallRef::Set { part, .. } => self.make_part(part),
        }
    }

    fn make_part(&mut self, part: &PartKey) -> Result<(), AllocError>
        ensures roomier { Roomier self.old self.new }
        ensures there { OnOk result (HasPart self.new.parts part.now) }
        ensures order { self.new.order ≡ self.old.order }
    {
        make_part(&mut self.parts, part)
    }

    fn make_under(&mut self, alloc: Global, tag: &Tag) -> Result<(), AllocError>
        ensures roomier { Roomier self.old self.new }
        ensures there { OnOk result (HasUnder self.new.waiting tag.now) }
        ensures order { self.new.order ≡ self.old.order }
    {
        make_under(alloc, &mut self.waiting, tag)
    }

    fn make_part_under(&mut self, tag: &Tag, part: &PartKey) -> Result<(), AllocError>
        requires part { HasPart self.old.parts part.now }
        requires under { HasUnder self.old.waiting tag.now }
        ensures roomier { Roomier self.old self.new }
        ensures there { OnOk result (HasPartIn (under_at self.new.waiting tag.now) part.now) }
        ensures order { self.new.order ≡ self.old.order }
    {
        make_part_under(&mut self.waiting, tag, part)
    }

    /// One call more, for which there is room.
    pub fn add(&mut self, calls: &mut Past<OffsetCall>, call: OffsetCall)
        requires room { HasRoom self.old (call ∷ []) }
        requires kept { Keeps self.old calls.old.items }
        ensures pushed { calls.new.items ≡ calls.old.items ++ call ∷ [] }
        ensures kept { Keeps self.new calls.new.items }
        ensures room { (front back : List OffsetCall) → HasRoom self.old (front ++ call ∷ back) →
            HasRoom self.new (front ++ back) }
    {
        *calls = calls.and(&call);
        match call {
            OffsetCall::Stand(tag) => self.stand(tag),
            OffsetCall::Put { tag, part, to } => self.put(tag, &part, to),
            OffsetCall::Commit(tag) => self.commit(&tag),
            OffsetCall::Abort(tag) => self.abort(&tag),
            OffsetCall::Set { part, to } => self.set(&part, to),
        }
    }

    fn stand(&mut self, tag: Tag)
        requires { HasRoom self.old (OffsetCall.Stand tag ∷ []) }
        ensures kept { (calls : List OffsetCall) → Keeps self.old calls →
            Keeps self.new (calls ++ OffsetCall.Stand tag ∷ []) }
        ensures room { Uses self.old self.new }
    {
        let begins = begin_at(&mut self.waiting, &tag, self.next);
        fill_place(&mut self.order, self.next, tag, begins);
        self.next += 1;
    }

    fn put(&mut self, tag: Tag, part: &PartKey, to: u64)
        requires { HasRoom self.old (OffsetCall.Put tag part.now to ∷ []) }
        ensures kept { (calls : List OffsetCall) → Keeps self.old calls →
            Keeps self.new (calls ++ OffsetCall.Put tag part.now to ∷ []) }
        ensures room { Uses self.old self.new }
    {
        let begins = begin_at(&mut self.waiting, &tag, self.next);
        put_under(&mut self.waiting, &tag, self.next, part, to);
        fill_place(&mut self.order, self.next, tag, begins);
        self.next += 1;
    }

    fn commit(&mut self, tag: &Tag)
        requires room { HasRoom self.old (OffsetCall.Commit tag.now ∷ []) }
        requires before { StandsBefore self.old tag.now }
        requires backed { BacksParts self.old tag.now }
        ensures kept { (calls : List OffsetCall) → Keeps self.old calls →
            Keeps self.new (calls ++ OffsetCall.Commit tag.now ∷ []) }
        ensures room { Uses self.old self.new }
    {
        settle_under(&mut self.parts, &self.waiting, tag);
        let first = end_at(&mut self.waiting, tag);
        empty_place(&mut self.order, first);
        empty_place(&mut self.order, Some(self.next));
        self.next += 1;
    }

    fn abort(&mut self, tag: &Tag)
        requires room { HasRoom self.old (OffsetCall.Abort tag.now ∷ []) }
        requires before { StandsBefore self.old tag.now }
        ensures kept { (calls : List OffsetCall) → Keeps self.old calls →
            Keeps self.new (calls ++ OffsetCall.Abort tag.now ∷ []) }
        ensures room { Uses self.old self.new }
    {
        let first = end_at(&mut self.waiting, tag);
        empty_place(&mut self.order, first);
        empty_place(&mut self.order, Some(self.next));
        self.next += 1;
    }

    fn set(&mut self, part: &PartKey, to: Option<u64>)
        requires { HasRoom self.old (OffsetCall.Set part.now to ∷ []) }
        ensures kept { (calls : List OffsetCall) → Keeps self.old calls →
            Keeps self.new (calls ++ OffsetCall.Set part.now to ∷ []) }
        ensures room { Uses self.old self.new }
    {
        let settled = Settled {
            place: self.next,
            to,
        };
        set_row(&mut self.parts, part, Some(settled));
        empty_place(&mut self.order, Some(self.next));
        self.next += 1;
    }

    /// Gives up the row of a transaction of which nothing waits. All reads as before.
    pub fn forget(&mut self, tag: &Tag)
        ensures kept { (calls : List OffsetCall) → Keeps self.old calls → Keeps self.new calls }
        ensures room { HasRoom self.old [] → HasRoom self.new [] }
    {
        if is_past(&self.waiting, tag) {
            self.waiting.remove(tag);
        }
    }

    /// The same for that of a call.
    pub fn forget_call(&mut self, call: &OffsetCall)
        ensures kept { (calls : List OffsetCall) → Keeps self.old calls → Keeps self.new calls }
        ensures room { HasRoom self.old [] → HasRoom self.new [] }
    {
        match call {
            OffsetCall::Stand(tag) => self.forget(tag),
            OffsetCall::Put { tag, .. } => self.forget(tag),
            _ => {}
        }
    }
}

ghost use Rattle.cw_offset.specs.declared.under.Under.{Under};
ghost use Rattle.cw_offset.specs.Rows.{settled_at, waits_in, later, begun, ended, HasPart};
ghost use Rattle.cw_offset.specs.Tables.{first_in, put_in, under_at, stands_at, is_place, first_ended, if_ended};
ghost use Rattle.cw_offset.specs.Tables.{IsFresh, Changes, Puts, MakesRows, HasUnder, HasPartIn};

// A row of a part, which reads as none where it is new.
fn make_part(
    parts: &mut BTreeMap<PartKey, Option<Settled>>,
    part: &PartKey,
) -> Result<(), AllocError>
    ensures same { (q : PartKey) → settled_at parts.new q ≡ settled_at parts.old q }
    ensures kept { (q : PartKey) → HasPart parts.old q → HasPart parts.new q }
    ensures there { OnOk result (HasPart parts.new part.now) }
{
    if has_row(parts, part) {
        return Ok(());
    }
    make_row(parts, part.copy()?, None)
}

// A row of a transaction, under which nothing waits where it is new.
fn make_under(
    alloc: Global,
    waiting: &mut BTreeMap<Tag, Under>,
    tag: &Tag,
) -> Result<(), AllocError>
    ensures kept { (q : Tag) → HasUnder waiting.old q → under_at waiting.new q ≡ under_at waiting.old q }
    ensures fresh { (q : Tag) → under_at waiting.old q ≡ None → IsFresh (under_at waiting.new q) }
    ensures there { OnOk result (HasUnder waiting.new tag.now) }
{
    if has_row(waiting, tag) {
        return Ok(());
    }
    waiting.insert(tag.copy()?, Under::new(alloc))?;
    Ok(())
}

// A row of a part in that of a transaction.
fn make_part_under(
    waiting: &mut BTreeMap<Tag, Under>,
    tag: &Tag,
    part: &PartKey,
) -> Result<(), AllocError>
    requires { HasUnder waiting.old tag.now }
    ensures made { Changes MakesRows tag.now waiting.old waiting.new }
    ensures there { OnOk result (HasPartIn (under_at waiting.new tag.now) part.now) }
{
    match waiting.get_mut(tag) {
        Some(under) => make_part(&mut under.parts, part),
        None => Ok(()),
    }
}

// A row of the order for a call behind so many others.
fn make_place(
    order: &mut BTreeMap<u64, Option<Tag>>,
    next: u64,
    more: usize,
) -> Result<(), AllocError>
    ensures same { (n : ℕ) → stands_at order.new n ≡ stands_at order.old n }
    ensures kept { (n : ℕ) → IsSome (get nat_cmp order.old n) → IsSome (get nat_cmp order.new n) }
    ensures there { OnOk result (IsSome (get nat_cmp order.new (next + more))) }
    ensures small { OnOk result (next + more + 1 < 2 ^ 64) }
{
    let more = more as u64;
    if more >= u64::MAX - next {
        return Err(AllocError);
    }
    let place = next + more;
    if !has_row(order, &place) {
        order.insert(place, None)?;
    }
    Ok(())
}

// A transaction waits from a place on, unless it does so already.
fn begin_at(waiting: &mut BTreeMap<Tag, Under>, tag: &Tag, place: u64) -> bool
    requires { HasUnder waiting.old tag.now }
    ensures changes { Changes (λ was now. now ≡ begun place was) tag.now waiting.old waiting.new }
    ensures begins { result ≡ is_none (first_in (under_at waiting.old tag.now)) }
{
    match waiting.get_mut(tag) {
        Some(under) => under.begin(place),
        None => false,
    }
}

// One put of a transaction more.
fn put_under(waiting: &mut BTreeMap<Tag, Under>, tag: &Tag, place: u64, part: &PartKey, to: u64)
    requires { HasPartIn (under_at waiting.old tag.now) part.now }
    ensures { Changes (Puts place part.now to) tag.now waiting.old waiting.new }
{
    match waiting.get_mut(tag) {
        Some(under) => under.put(place, part, to),
        None => {}
    }
}

// Nothing of a transaction waits any more. It gives the place from which on something did.
fn end_at(waiting: &mut BTreeMap<Tag, Under>, tag: &Tag) -> Option<u64>
    ensures rows { (q : Tag) → under_at waiting.new q ≡ (if same_tag q tag.now
        then option_map ended (under_at waiting.old q) else under_at waiting.old q) }
    ensures first { result ≡ first_in (under_at waiting.old tag.now) }
{
    waiting.get_mut(tag)?.end()
}

// Whether nothing of a transaction waits.
fn is_past(waiting: &BTreeMap<Tag, Under>, tag: &Tag) -> bool
    ensures { result ≡ is_none (first_in (under_at waiting.now tag.now)) }
{
    match waiting.get(tag) {
        Some(under) => under.first.is_none(),
        None => true,
    }
}

// The transaction stands at a place whose row is there; else the row goes.
fn fill_place(order: &mut BTreeMap<u64, Option<Tag>>, place: u64, tag: Tag, stands: bool)
    requires { IsSome (get nat_cmp order.old place) }
    ensures rows { (n : ℕ) → stands_at order.new n ≡ (if place == n then (if stands then Some tag else None)
        else stands_at order.old n) }
    ensures kept { (n : ℕ) → (place == n) ≡ false → IsSome (get nat_cmp order.old n) →
        IsSome (get nat_cmp order.new n) }
{
    if !stands {
        empty_place(order, Some(place));
        return;
    }
    if let Some(row) = order.get_mut(&place) {
        *row = Some(tag);
    }
}

// The row of a place goes.
fn empty_place(order: &mut BTreeMap<u64, Option<Tag>>, place: Option<u64>)
    ensures rows { (n : ℕ) → stands_at order.new n ≡ (if is_place place n then None else stands_at order.old n) }
    ensures kept { (n : ℕ) → is_place place n ≡ false → IsSome (get nat_cmp order.old n) →
        IsSome (get nat_cmp order.new n) }
{
    if let Some(place) = place {
        order.remove(&place);
    }
}

// Lets all that waits under a transaction take effect.
fn settle_under(
    parts: &mut BTreeMap<PartKey, Option<Settled>>,
    waiting: &BTreeMap<Tag, Under>,
    tag: &Tag,
)
    requires { (q : PartKey) → IsSome (put_in (under_at waiting.now tag.now) q) → HasPart parts.old q }
    ensures settled { (q : PartKey) → settled_at parts.new q
        ≡ later (settled_at parts.old q) (put_in (under_at waiting.now tag.now) q) }
    ensures kept { (q : PartKey) → HasPart parts.old q → HasPart parts.new q }
{
    match waiting.get(tag) {
        Some(under) => settle_all(parts, under),
        None => {}
    }
}

fn settle_all(parts: &mut BTreeMap<PartKey, Option<Settled>>, under: &Under)
    requires { (q : PartKey) → IsSome (waits_in under.now q) → HasPart parts.old q }
    ensures settled { (q : PartKey) → settled_at parts.new q
        ≡ later (settled_at parts.old q) (waits_in under.now q) }
    ensures kept { (q : PartKey) → HasPart parts.old q → HasPart parts.new q }
{
    for part in under.parts.keys() {
        settle(parts, part, under.put_of(part));
    }
}

// A put that takes effect, unless what is settled is behind it.
fn settle(parts: &mut BTreeMap<PartKey, Option<Settled>>, part: &PartKey, put: Option<Settled>)
    requires { IsSome put → HasPart parts.old part.now }
    ensures settled { (q : PartKey) → settled_at parts.new q ≡ (if same_part q part.now
        then later (settled_at parts.old q) put else settled_at parts.old q) }
    ensures kept { (q : PartKey) → HasPart parts.old q → HasPart parts.new q }
{
    if put.is_none() {
        return;
    }
    let was = value_at(parts, part, None);
    set_row(parts, part, later(was, put));
}

// That of two values which has the later place.
fn later(was: Option<Settled>, put: Option<Settled>) -> Option<Settled>
    ensures { result ≡ later was put }
{
    match (was, put) {
        (_, None) => was,
        (None, Some(_)) => put,
        (Some(settled), Some(new)) => if settled.place < new.place { put } else { was },
    }
}

/// The first transaction of the order that has ended.
pub fn first_ended<'a, T: Decided>(
    order: &'a BTreeMap<u64, Option<Tag>>,
    txn: &T,
) -> Option<&'a Tag>
    ensures first { option_copied result ≡ first_ended (T.verdict_of txn.now) (values order.now) }
    ensures ordered { IsOrdered nat_cmp order.now }
{
    for row in order.values() {
        if let Some(tag) = if_ended(row.as_ref(), txn) {
            return Some(tag);
        }
    }
    None
}

// A transaction, if it has ended.
fn if_ended<'a, T: Decided>(row: Option<&'a Tag>, txn: &T) -> Option<&'a Tag>
    ensures { option_copied result ≡ if_ended (T.verdict_of txn.now) (option_copied row.entry) }
{
    let tag = row?;
    match txn.verdict(tag) {
        Verdict::Committed => Some(tag),
        Verdict::Aborted => Some(tag),
        Verdict::Open => None,
    }
}
