//! A record of the status log.
ghost use Rattle.std.specs.Prelude.{◌≡◌, ◌↔◌, IfOk, IsTrue, Option, List, ℕ};
ghost use Rattle.cw_status.specs.Table.{record_of};

use cw_json::Text;
use cw_keys::{State, StatusValue};
use cw_types::Item;
use std::alloc::AllocError;

/// A status that was reported.
#[derive(Debug, Drop)]
pub struct StatusRecord {
    /// The record's offset in the status log.
    pub offset: u64,
    /// The connector or task.
    pub item: Item,
    /// Its status.
    pub value: StatusValue,
}

/// A record that is borrowed in parts.
#[derive(Debug, Clone, Copy, Drop)]
pub struct RecordRef<'a> {
    /// Its offset in the status log.
    pub offset: u64,
    /// The connector or task.
    pub item: &'a Item,
    /// Its status.
    pub value: &'a StatusValue,
}

impl RecordRef<'_> {
    /// The record, copied.
    pub fn to_record(&self) -> Result<StatusRecord, AllocError>
        ensures { IfOk result (λ applied. applied ≡ record_of self.now) }
    {
        Ok(StatusRecord {
            offset: self.offset,
            item: self.item.copy()?,
            value: self.value.copy()?,
        })
    }

    /// Whether it is this record.
    pub fn is(&self, applied: &StatusRecord) -> bool
        ensures { IsTrue result ↔ (applied.now ≡ record_of self.now) }
    {
        self.offset == applied.offset
            && same_items(self.item, &applied.item)
            && same_statuses(self.value, &applied.value)
    }
}

fn same_items(a: &Item, b: &Item) -> bool
    ensures { IsTrue result ↔ (b.now ≡ a.now) }
{
    a == b
}

fn same_statuses(a: &StatusValue, b: &StatusValue) -> bool
    ensures { IsTrue result ↔ (b.now ≡ a.now) }
{
    same_states(a.state, b.state)
        && same_traces(&a.trace, &b.trace)
        && a.worker == b.worker
        && a.round == b.round
}

fn same_states(a: State, b: State) -> bool
    ensures { IsTrue result ↔ (b ≡ a) }
{
    a == b
}

fn same_traces(a: &Option<Text>, b: &Option<Text>) -> bool
    ensures { IsTrue result ↔ (b.now ≡ a.now) }
{
    match (a, b) {
        (None, None) => true,
        (Some(a), Some(b)) => same_texts(a, b),
        _ => false,
    }
}

fn same_texts(a: &Text, b: &Text) -> bool
    ensures { IsTrue result ↔ (b.now ≡ a.now) }
{
    a.as_str() == b.as_str()
}
