//! Whether the receipts that were kept are the journal. It takes no memory, so that a run which is out of memory can
//! still ask.
ghost use Rattle.std.specs.Prelude.{◌≡◌, ◌≢◌, ℕ, ◌+◌, ◌-◌, ◌<◌, [], length, vec_len, IfSome, IfNone, IfOk, IfErr};
ghost use Rattle.std.specs.Prelude.{MatchBool, Some, slice_get, slice_index_or};
ghost use Rattle.std.specs.List.Sorted.{IsPermutation, IsNonDecreasingBy};
ghost use Rattle.cw_world.specs.Receipts.{ReceiptState};
ghost use Rattle.cw_desk.specs.Comparing.{AreTheJournal, Disagrees, IsFound, receipts_in, NoneTwice, NoneElsewhere};

use crate::same::is_same_entry;
use cw_model::JournalEntry;
use cw_world::Receipt;
use std::fmt;

/// What shows that receipts aren't the journal.
#[derive(Drop)]
pub struct Disagree {
    /// The number of the receipt that was kept.
    pub at: u64,
    /// The receipt.
    pub kept: Receipt,
    /// What is found in place of its entry; None where the journal has no entry of its number.
    pub found: Option<Member>,
}

impl fmt::Display for Disagree {
    fn fmt<W: fmt::Write>(&self, f: &mut fmt::Formatter<W>) -> fmt::Result {
        write!(f, "receipt {} isn't the journal's", self.at)
    }
}

/// What is found in place of a receipt's entry.
#[derive(Drop)]
pub enum Member {
    /// The journal's entry of its number, which is another one.
    Entry,
    /// Another receipt of its number.
    Receipt(Receipt),
}

/// The receipts in the order of their numbers where they are the journal, each entry once at its number; else what
/// shows that they aren't. They are as many as the journal has entries.
pub fn compare(
    journal: &[JournalEntry],
    mut receipts: Vec<Receipt>,
) -> Result<Vec<Receipt>, Disagree>
    requires { vec_len receipts ≡ length journal.now }
    ensures same { IfOk result (λ ordered. IsPermutation receipts.items ordered.items) }
    ensures journal { IfOk result (λ ordered. AreTheJournal journal.now ordered.items) }
    ensures differs { IfErr result (λ d. Disagrees journal.now receipts.items d) }
{
    sort(&mut receipts);
    if let Some(k) = first_twice(receipts.as_slice()) {
        return Err(twice(journal, receipts, k));
    }
    if let Some(k) = first_elsewhere(journal, receipts.as_slice()) {
        return Err(elsewhere(journal, receipts, k));
    }
    Ok(receipts)
}

// Puts receipts in the order of their numbers.
fn sort(receipts: &mut Vec<Receipt>)
    ensures permutation { IsPermutation receipts.old.items receipts.new.items }
    ensures sorted { IsNonDecreasingBy (λ r. r.number) receipts.new.items }
    ensures len { vec_len receipts.new ≡ vec_len receipts.old }
{
    receipts.sort_unstable_by_key(|r| r.number());
}

// The place of a receipt that has the number of the one before it.
fn first_twice(receipts: &[Receipt]) -> Option<usize>
    ensures some { IfSome result (λ k. (0 < k) × (k < length receipts.now) × ((d : ReceiptState) →
        (slice_index_or receipts.now (k - 1) d).number ≡ (slice_index_or receipts.now k d).number)) }
    ensures none { IfNone result (NoneTwice receipts.now (length receipts.now)) }
{
    for k in 1..receipts.len() {
        if receipts[k - 1].number() == receipts[k].number() {
            return Some(k);
        }
    }
    None
}

// The place of a receipt whose entry isn't the journal's at its number.
fn first_elsewhere(journal: &[JournalEntry], receipts: &[Receipt]) -> Option<usize>
    ensures some { IfSome result (λ k. (k < length receipts.now) × ((d : ReceiptState) →
        slice_get journal.now (slice_index_or receipts.now k d).number ≢
        Some (slice_index_or receipts.now k d).entry)) }
    ensures none { IfNone result (NoneElsewhere journal.now receipts.now (length receipts.now)) }
{
    for k in 0..receipts.len() {
        if !stands(journal, &receipts[k]) {
            return Some(k);
        }
    }
    None
}

// Whether a receipt's entry is the journal's at its number.
fn stands(journal: &[JournalEntry], receipt: &Receipt) -> bool
    ensures { MatchBool result (slice_get journal.now receipt.now.number ≡ Some receipt.now.entry)
        (slice_get journal.now receipt.now.number ≢ Some receipt.now.entry) }
{
    match journal.get(receipt.number() as usize) {
        Some(entry) => is_same_entry(entry, receipt.entry()),
        None => false,
    }
}

// Two receipts of one number, which are neighbours.
fn twice(journal: &[JournalEntry], mut receipts: Vec<Receipt>, k: usize) -> Disagree
    requires place { (0 < k) × (k < vec_len receipts) }
    requires twice { (d : ReceiptState) →
        (slice_index_or receipts.items (k - 1) d).number ≡ (slice_index_or receipts.items k d).number }
    ensures { Disagrees journal.now receipts.items result }
{
    let kept = receipts.swap_remove(k);
    let other = receipts.swap_remove(k - 1);
    Disagree {
        at: kept.number(),
        kept,
        found: Some(Member::Receipt(other)),
    }
}

// A receipt whose entry isn't the journal's at its number.
fn elsewhere(journal: &[JournalEntry], mut receipts: Vec<Receipt>, k: usize) -> Disagree
    requires place { k < vec_len receipts }
    requires elsewhere { (d : ReceiptState) → slice_get journal.now (slice_index_or receipts.items k d).number ≢
        Some (slice_index_or receipts.items k d).entry }
    ensures { Disagrees journal.now receipts.items result }
{
    let kept = receipts.swap_remove(k);
    let found = entry_at(journal, &kept);
    Disagree {
        at: kept.number(),
        kept,
        found,
    }
}

// What the journal has in place of a receipt's entry.
fn entry_at(journal: &[JournalEntry], kept: &Receipt) -> Option<Member>
    requires { slice_get journal.now kept.now.number ≢ Some kept.now.entry }
    ensures found { IsFound journal.now kept.now result }
    ensures none { receipts_in result ≡ [] }
{
    match journal.get(kept.number() as usize) {
        Some(_) => Some(Member::Entry),
        None => None,
    }
}
