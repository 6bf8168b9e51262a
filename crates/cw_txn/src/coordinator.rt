//! The transaction coordinator.
ghost use Rattle.std.specs.Prelude.{◌≡◌, ◌≢◌, ◌≤◌, ◌<◌, ◌+◌, ℕ, [], ◌∷◌, ◌++◌, List, length, map, Contains, All, IfOk};
ghost use Rattle.std.specs.Prelude.{OnOk, OnErr, IsOk, IfErr, ⊤, IsTrue, ◌↔◌, false, MatchOption, slice_get, Some};
ghost use Rattle.std.specs.Prelude.{unwrap_or, ◌^◌};
ghost use Rattle.std.specs.List.{IsDistinct, list_any};
ghost use Rattle.cw_types.specs.declared.ids.PartKey.{PartKey};
ghost use Rattle.cw_types.specs.declared.ids.Tid.{Tid};
ghost use Rattle.cw_types.specs.declared.ids.Tag.{Tag};
ghost use Rattle.cw_txn.specs.declared.entry.Entry.{Entry};
ghost use Rattle.std.specs.List.Sorted.{IsStrictlySortedBy};
ghost use Rattle.cw_types.specs.Same.{same_part, part_order, connector_of};
ghost use Rattle.cw_txn.specs.History.{history, base_of, end_of, GoesOn};
ghost use Rattle.cw_txn.specs.Allowed.{AreAllowed, IsRaw, IsSourceOf, IsSinkOf};
ghost use Rattle.cw_types.specs.declared.ids.TaskId.{TaskId};
ghost use Rattle.cw_txn.specs.Transactions.{AreNext};
ghost use Rattle.cw_txn.specs.Legal.{epoch_of, is_committed, IsLegal, Chains, IsLegalBehind, ChainsBehind, AreNumbered};

use crate::entry::{Entry, EntryRef, SetOffset};
use crate::tables::Tables;
use cw_types::{Decided, Epoch, Name, PartKey, Past, Span, Tag, Tid, Verdict};
use std::alloc::{AllocError, Global};
use std::marker::Model;
use thiserror::Error;

/// Why an entry wasn't written.
#[derive(Clone, Copy, Debug, PartialEq, Eq, Drop, Error)]
pub enum TxnFault {
    /// Its epoch isn't the producer's last, which is this one (KIP-98, fencing of zombies).
    #[error("the producer's epoch is {current}")]
    Fenced {
        /// The producer's epoch.
        current: u64,
    },
    /// Want of memory.
    #[error("out of memory")]
    Memory,
}

impl From<AllocError> for TxnFault {
    ghost use Rattle.std.specs.Prelude.{◌≡◌};
    ghost use Rattle.cw_txn.specs.declared.coordinator.TxnFault.TheVariants.{Memory};

    ghost from_gives = { λ _ fault. fault ≡ Memory };

    fn from(_: AllocError) -> Self {
        TxnFault::Memory
    }
}

/// The list of all that was bumped, committed and set, and what follows from it. At run time it keeps only
/// what follows from it and the list's length, no entry. Look-ups take no memory.
/// It has at most 2^64 - 1 entries, counting those that are reserved: one more is answered as want of memory.
#[derive(Drop)]
pub struct Coordinator {
    alloc: Global,
    entries: Past<Entry>,
    length: u64,
    reserved: Vec<Entry>,
    tables: Tables,
}

impl Model for Coordinator {
    ghost use Rattle.cw_txn.specs.Transactions.{Transactions};

    ghost Value = { Transactions };

    ghost use Rattle.cw_txn.specs.Tables.{IsCoordinator};

    ghost view = { λ a. record { entries = a.entries.items; reserved = a.reserved.items } };

    ghost invariant = { λ a. IsCoordinator a.tables a.entries.items a.reserved.items a.length };
}

impl Coordinator {
    ghost use Rattle.cw_txn.specs.Transactions.{Transactions, Appends, AreNext, ArePartsOf};

    /// With no entry.
    pub fn new(alloc: Global) -> Coordinator
        ensures { result ≡ record { entries = []; reserved = [] } }
    {
        Coordinator {
            alloc,
            entries: Past::new(),
            length: 0,
            reserved: Vec::new(alloc),
            tables: Tables::new(alloc),
        }
    }

    /// The law of every coordinator: its entries are legal, and every part's spans chain. It does nothing at run time.
    pub fn list_is_legal(&self)
        ensures legal { IsLegal self.now.entries }
        ensures chains { (part : PartKey) → Chains part self.now.entries }
    {
        let _ = &self.tables;
    }

    /// How many entries there are.
    pub fn length(&self) -> u64
        ensures { result ≡ length self.now.entries }
    {
        self.length
    }

    /// The producer's last epoch, 0 before its first bump.
    pub fn epoch_of(&self, tid: &Tid) -> u64
        ensures { result ≡ epoch_of tid.now self.now.entries }
    {
        self.tables.epoch(tid)
    }

    /// Where the part's offsets begin: its last set offset, 0 where there is none.
    pub fn base_of(&self, part: &PartKey) -> u64
        ensures { result ≡ base_of part.now self.now.entries }
    {
        self.tables.history(part).base
    }

    /// Where the part ends: at its last commit, or at its last set offset where that is later.
    pub fn end_of(&self, part: &PartKey) -> Option<u64>
        ensures { result ≡ end_of part.now self.now.entries }
    {
        self.tables.history(part).end
    }

    /// Whether the transaction is committed.
    pub fn is_committed(&self, tag: &Tag) -> bool
        ensures { result ≡ is_committed tag.now self.now.entries }
    {
        self.tables.is_committed(tag)
    }

    /// The parts of a connector that have an end, each once, in the order of parts.
    pub fn parts_of(&self, connector: &Name) -> Result<Vec<PartKey>, AllocError>
        ensures parts { IfOk result (λ parts. ArePartsOf connector.now self.now.entries parts.items) }
        ensures ordered { IfOk result (λ parts. IsStrictlySortedBy part_order parts.items) }
    {
        let parts = self.tables.parts_of(self.alloc, connector)?;
        Ok(parts)
    }

    /// Whether spans may be committed: there are 1 to 16, of distinct parts, and each begins where its part
    /// ends (at 0 where it has no end) and isn't empty.
    pub fn are_next(&self, spans: &[Span]) -> bool
        ensures { IsTrue result ↔ AreNext self.now.entries spans.now }
    {
        !spans.is_empty()
            && spans.len() <= 16
            && have_distinct_parts(spans)
            && self.all_go_on(spans)
    }

    // Whether each span begins where its part ends.
    fn all_go_on(&self, spans: &[Span]) -> bool
        ensures { IsTrue result ↔ All (λ span. GoesOn (history span.part self.now.entries) span) spans.now }
    {
        for span in spans {
            if !self.goes_on(span) {
                return false;
            }
        }
        true
    }

    fn goes_on(&self, span: &Span) -> bool
        ensures { IsTrue result ↔ GoesOn (history span.now.part self.now.entries) span.now }
    {
        self.tables.history(&span.part).goes_on(span)
    }

    /// Makes room for an entry, so that writing it once can't want memory.
    pub fn reserve(&mut self, entry: &Entry) -> Result<(), AllocError>
        ensures ok { OnOk result (self.new ≡ record self.old { reserved = self.old.reserved ++ entry.now ∷ [] }) }
        ensures err { OnErr result (self.new ≡ self.old) }
    {
        let counted = self.length + self.reserved.len() as u64;
        make_room(&mut self.tables, counted, &EntryRef::of(entry))?;
        self.reserved.push(entry.copy(self.alloc)?)?;
        Ok(())
    }

    /// Gives up all that is reserved.
    pub fn release(&mut self)
        ensures { self.new ≡ record self.old { reserved = [] } }
    {
        self.reserved.clear();
    }

    /// Raises the producer's epoch by one, which fences all its older producers. Its answer is the new epoch.
    /// It is never refused.
    pub fn bump(&mut self, tid: &Tid) -> Result<Epoch, TxnFault>
        ensures epoch { IfOk result (λ epoch. epoch.0 ≡ epoch_of tid.now self.old.entries + 1) }
        ensures ok { OnOk result (Appends (Entry.Bump tid.now) self.old self.new) }
        ensures err { OnErr result (self.new ≡ self.old) }
        ensures never_fenced { (current : ℕ) → result ≢ Err (TxnFault.Fenced current) }
        ensures reserved { Contains self.old.reserved (Entry.Bump tid.now) → IsOk result }
    {
        self.append(&EntryRef::Bump(tid))?;
        Ok(Epoch(self.epoch_of(tid)))
    }

    /// Commits a transaction. Fenced comes exactly where its epoch isn't the producer's last (KIP-98),
    /// whatever the generation.
    pub fn commit(&mut self, tag: &Tag, generation: u64, spans: &[Span]) -> Result<(), TxnFault>
        requires new { is_committed tag.now self.old.entries ≡ false }
        requires next { AreNext self.old.entries spans.now }
        ensures ok { OnOk result (Appends (Entry.Commit tag.now generation spans.now) self.old self.new) }
        ensures err { OnErr result (self.new ≡ self.old) }
        ensures fenced { tag.now.epoch.0 ≢ epoch_of tag.now.tid self.old.entries →
            result ≡ Err (TxnFault.Fenced (epoch_of tag.now.tid self.old.entries)) }
        ensures fenced_only { (current : ℕ) → result ≡ Err (TxnFault.Fenced current) →
            tag.now.epoch.0 ≢ epoch_of tag.now.tid self.old.entries }
        ensures reserved { Contains self.old.reserved (Entry.Commit tag.now generation spans.now) →
            result ≢ Err TxnFault.Memory }
    {
        let current = self.epoch_of(&tag.tid);
        if tag.epoch.0 != current {
            return Err(TxnFault::Fenced { current });
        }
        self.append(&EntryRef::Commit {
            tag,
            generation,
            spans,
        })?;
        Ok(())
    }

    /// Sets offsets of parts. Fenced comes exactly where the epoch isn't the producer's last.
    pub fn set(&mut self, tid: &Tid, epoch: Epoch, list: &[SetOffset]) -> Result<(), TxnFault>
        ensures ok { OnOk result (Appends (Entry.Set tid.now epoch list.now) self.old self.new) }
        ensures err { OnErr result (self.new ≡ self.old) }
        ensures fenced { epoch.0 ≢ epoch_of tid.now self.old.entries →
            result ≡ Err (TxnFault.Fenced (epoch_of tid.now self.old.entries)) }
        ensures fenced_only { (current : ℕ) → result ≡ Err (TxnFault.Fenced current) →
            epoch.0 ≢ epoch_of tid.now self.old.entries }
        ensures reserved { Contains self.old.reserved (Entry.Set tid.now epoch list.now) →
            result ≢ Err TxnFault.Memory }
    {
        let current = self.epoch_of(tid);
        if epoch.0 != current {
            return Err(TxnFault::Fenced { current });
        }
        self.append(&EntryRef::Set { tid, epoch, list })?;
        Ok(())
    }

    ghost use Rattle.cw_txn.specs.Tables.{entry_of};

    // Writes an entry that is legal here, from the room that was reserved for it, or from new room.
    fn append(&mut self, entry: &EntryRef<'_>) -> Result<(), AllocError>
        requires legal { IsLegalBehind self.old.entries (entry_of entry.now) }
        requires chains { (part : PartKey) → ChainsBehind part self.old.entries (entry_of entry.now) }
        ensures ok { OnOk result (Appends (entry_of entry.now) self.old self.new) }
        ensures err { OnErr result (self.new ≡ self.old) }
        ensures reserved { Contains self.old.reserved (entry_of entry.now) → IsOk result }
    {
        if let Some(at) = place_of(&self.reserved, entry) {
            let _room = self.reserved.remove(at);
            settle(&mut self.tables, &mut self.entries, &mut self.length, entry);
            return Ok(());
        }
        let counted = self.length + self.reserved.len() as u64;
        make_room(&mut self.tables, counted, entry)?;
        settle(&mut self.tables, &mut self.entries, &mut self.length, entry);
        Ok(())
    }
}

impl Decided for Coordinator {
    ghost use Rattle.cw_txn.specs.Legal.{verdict_of as verdict_in};

    ghost verdict_of = { λ c tag. verdict_in c.entries tag };

    fn verdict(&self, tag: &Tag) -> Verdict {
        if self.is_committed(tag) {
            Verdict::Committed
        } else if tag.epoch.0 < self.epoch_of(&tag.tid) {
            Verdict::Aborted
        } else {
            Verdict::Open
        }
    }
}

/// The law of allowed lists: they are legal, and a script's transactions have their places as numbers. A list stays
/// allowed behind a bump; behind a commit of spans that are next, under its producer's epoch, by a script with its
/// place as number, or by a task, of sources of its connector, where it is new; and behind a set under its producer's
/// epoch, by the leader, of one connector's parts, or by a task, of sinks of its connector.
pub fn lists_stay_allowed()
    ensures legal { (entries : List Entry) → AreAllowed entries → IsLegal entries }
    ensures numbered { (entries : List Entry) → AreAllowed entries → AreNumbered entries }
    ensures bump { (entries : List Entry) (tid : Tid) → AreAllowed entries →
        AreAllowed (entries ++ Entry.Bump tid ∷ []) }
    ensures commit { (entries : List Entry) (tag : Tag) (generation : ℕ) (spans : List Span) (n : ℕ) →
        AreAllowed entries → AreNext entries spans → All (λ span. IsRaw span.part) spans → tag.tid ≡ Tid.Raw n →
        tag.number ≡ length entries → tag.epoch.0 ≡ epoch_of tag.tid entries →
        AreAllowed (entries ++ Entry.Commit tag generation spans ∷ []) }
    ensures task_commit { (entries : List Entry) (tag : Tag) (generation : ℕ) (spans : List Span) (id : TaskId) →
        AreAllowed entries → AreNext entries spans → All (λ span. IsSourceOf id.connector span.part) spans →
        tag.tid ≡ Tid.Task id → is_committed tag entries ≡ false → tag.epoch.0 ≡ epoch_of tag.tid entries →
        AreAllowed (entries ++ Entry.Commit tag generation spans ∷ []) }
    ensures lead_set { (entries : List Entry) (epoch : Epoch) (list : List SetOffset) (connector : List ℕ) →
        AreAllowed entries → IsDistinct same_part (map (λ set. set.part) list) →
        All (λ set. connector_of set.part ≡ Some connector) list → epoch.0 ≡ epoch_of Tid.Lead entries →
        AreAllowed (entries ++ Entry.Set Tid.Lead epoch list ∷ []) }
    ensures task_set { (entries : List Entry) (id : TaskId) (epoch : Epoch) (list : List SetOffset) →
        AreAllowed entries → IsDistinct same_part (map (λ set. set.part) list) →
        All (λ set. IsSinkOf id.connector set.part) list → epoch.0 ≡ epoch_of (Tid.Task id) entries →
        AreAllowed (entries ++ Entry.Set (Tid.Task id) epoch list ∷ []) }
{}

/// The law of a script's transactions: where each has its place in the list as its number, one with the
/// list's length as number isn't committed yet, and the list stays so behind it, a bump and a set.
pub fn raw_transactions_are_new()
    ensures new { (entries : List Entry) (tag : Tag) (n : ℕ) → AreNumbered entries → tag.tid ≡ Tid.Raw n →
        tag.number ≡ length entries → is_committed tag entries ≡ false }
    ensures commit { (entries : List Entry) (tag : Tag) (generation : ℕ) (spans : List Span) → AreNumbered entries →
        tag.number ≡ length entries → AreNumbered (entries ++ Entry.Commit tag generation spans ∷ []) }
    ensures bump { (entries : List Entry) (tid : Tid) → AreNumbered entries →
        AreNumbered (entries ++ Entry.Bump tid ∷ []) }
    ensures set { (entries : List Entry) (tid : Tid) (epoch : Epoch) (list : List SetOffset) → AreNumbered entries →
        AreNumbered (entries ++ Entry.Set tid epoch list ∷ []) }
{}

ghost use Rattle.cw_types.specs.declared.ids.Span.{Span};
ghost use Rattle.cw_types.specs.declared.ids.Epoch.{Epoch};
ghost use Rattle.cw_txn.specs.declared.entry.SetOffset.{SetOffset};
ghost use Rattle.cw_txn.specs.Tables.{entry_of, IsFirstAt, Keeps, HasRows, KeepsRows, SameRows, IsCoordinator};

/// Whether no part is in two of the spans.
pub fn have_distinct_parts(spans: &[Span]) -> bool
    ensures { IsTrue result ↔ IsDistinct same_part (map (λ span. span.part) spans.now) }
{
    for at in 0..spans.len() {
        if names_part(&spans[..at], &spans[at].part) {
            return false;
        }
    }
    true
}

fn names_part(spans: &[Span], part: &PartKey) -> bool
    ensures { result ≡ list_any (λ span. same_part part.now span.part) spans.now }
{
    spans.iter().any(|span| is_part(part, &span.part))
}

// A script's parts are told apart by their numbers, which costs no call.
fn is_part(a: &PartKey, b: &PartKey) -> bool
    ensures { result ≡ same_part a.now b.now }
{
    match (a, b) {
        (PartKey::Raw(a), PartKey::Raw(b)) => a == b,
        _ => a == b,
    }
}

// The first place of an entry in a list.
fn place_of(entries: &[Entry], entry: &EntryRef<'_>) -> Option<usize>
    ensures { MatchOption result (¬ Contains entries.now (entry_of entry.now))
        (λ at. IsFirstAt (entry_of entry.now) entries.now at) }
{
    for at in 0..entries.len() {
        if entry.is(&entries[at]) {
            return Some(at);
        }
    }
    None
}

// Rows for an entry, which change no meaning, where one more than those counted may be held.
fn make_room(tables: &mut Tables, counted: u64, entry: &EntryRef<'_>) -> Result<(), AllocError>
    ensures few { OnOk result (counted + 1 < 2 ^ 64) }
    ensures same { SameRows tables.old tables.new }
    ensures kept { KeepsRows tables.old tables.new }
    ensures there { OnOk result (HasRows tables.new (entry_of entry.now)) }
{
    if counted == u64::MAX {
        return Err(AllocError);
    }
    tables.make_rows(entry)
}

// Writes an entry for which there is room.
fn settle(tables: &mut Tables, entries: &mut Past<Entry>, count: &mut u64, entry: &EntryRef<'_>)
    requires counted { count.old ≡ length entries.old.items }
    requires few { count.old + 1 < 2 ^ 64 }
    requires rows { HasRows tables.old (entry_of entry.now) }
    requires kept { Keeps tables.old entries.old.items }
    ensures written { entries.new.items ≡ entries.old.items ++ entry_of entry.now ∷ [] }
    ensures counted { count.new ≡ count.old + 1 }
    ensures kept { Keeps tables.new entries.new.items }
    ensures rows { KeepsRows tables.old tables.new }
{
    tables.add(entry);
    note(entries, entry);
    *count += 1;
}

// Puts an entry behind those that only proofs read. It does nothing at run time, so that no entry is copied for it.
fn note(entries: &mut Past<Entry>, entry: &EntryRef<'_>)
    ensures { entries.new.items ≡ entries.old.items ++ entry_of entry.now ∷ [] }
{}

/// The coordinator of entries whose tables these are.
pub fn coordinator_of(
    alloc: Global,
    tables: Tables,
    entries: Past<Entry>,
    count: u64,
) -> Coordinator
    requires { IsCoordinator tables entries.items [] count }
    ensures { result ≡ record { entries = entries.items; reserved = [] } }
{
    Coordinator {
        alloc,
        entries,
        length: count,
        reserved: Vec::new(alloc),
        tables,
    }
}
