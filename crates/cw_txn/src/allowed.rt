//! Whether an entry may stand behind others.
ghost use Rattle.std.specs.Prelude.{◌≡◌, ◌↔◌, IsTrue, IfOk, List, ℕ, length};
ghost use Rattle.cw_txn.specs.declared.entry.Entry.{Entry};
ghost use Rattle.cw_txn.specs.Allowed.{IsAllowedBehind, IsAllowedCommit, IsAllowedSet};
ghost use Rattle.cw_txn.specs.Tables.{Keeps};

use crate::coordinator::have_distinct_parts;
use crate::entry::{Entry, SetOffset};
use crate::owning::{are_of_distinct_parts, commits_own, sets_own};
use crate::tables::Tables;
use cw_types::{Epoch, Span, Tag, Tid};
use std::alloc::{AllocError, Global};

/// Whether an entry may stand at this place, behind those of the tables.
pub fn is_allowed(
    alloc: Global,
    tables: &Tables,
    place: usize,
    entry: &Entry,
) -> Result<bool, AllocError>
    ensures { IfOk result (λ allowed. (before : List Entry) → Keeps tables.now before → length before ≡ place →
        IsTrue allowed ↔ IsAllowedBehind before entry.now) }
{
    match entry {
        Entry::Bump(_) => Ok(true),
        Entry::Commit { tag, spans, .. } => {
            Ok(is_allowed_commit(tables, place, tag, spans.as_slice()))
        }
        Entry::Set { tid, epoch, list } => {
            is_allowed_set(alloc, tables, tid, *epoch, list.as_slice())
        }
    }
}

fn is_allowed_commit(tables: &Tables, place: usize, tag: &Tag, spans: &[Span]) -> bool
    ensures { (before : List Entry) (generation : ℕ) → Keeps tables.now before → length before ≡ place →
        IsTrue result ↔ IsAllowedCommit before tag.now generation spans.now }
{
    tag.epoch.0 == tables.epoch(&tag.tid)
        && !tables.is_committed(tag)
        && !spans.is_empty()
        && spans.len() <= 16
        && have_distinct_parts(spans)
        && commits_own(&tag.tid, tag.number, place as u64, spans)
}

fn is_allowed_set(
    alloc: Global,
    tables: &Tables,
    tid: &Tid,
    epoch: Epoch,
    list: &[SetOffset],
) -> Result<bool, AllocError>
    ensures { IfOk result (λ allowed. (before : List Entry) → Keeps tables.now before →
        IsTrue allowed ↔ IsAllowedSet before tid.now (Entry.Set tid.now epoch list.now) list.now) }
{
    let distinct = are_of_distinct_parts(alloc, list)?;
    Ok(distinct && epoch.0 == tables.epoch(tid) && sets_own(tid, list))
}
