//! Whether an entry of the transaction log may stand behind others.
ghost use Rattle.std.specs.Prelude.{◌↔◌, IsTrue, IfOk, ℕ};
ghost use Rattle.cw_txn.specs.declared.entry.Entry.{Entry};
ghost use Rattle.cw_txn.specs.Allowed.{IsAllowedBehind, IsAllowedCommit, IsAllowedSet};

use crate::entries::EntryList;
use cw_txn::{Entry, SetOffset, are_of_distinct_parts, commits_own, have_distinct_parts, sets_own};
use cw_types::{Epoch, Span, Tag, Tid};
use std::alloc::{AllocError, Global};

/// Whether an entry may stand behind these.
pub(crate) fn is_allowed(
    alloc: Global,
    before: &EntryList,
    entry: &Entry,
) -> Result<bool, AllocError>
    ensures { IfOk result (λ allowed. IsTrue allowed ↔ IsAllowedBehind before.now entry.now) }
{
    match entry {
        Entry::Bump(_) => Ok(true),
        Entry::Commit { tag, spans, .. } => Ok(is_allowed_commit(before, tag, spans.as_slice())),
        Entry::Set { tid, epoch, list } => {
            is_allowed_set(alloc, before, tid, *epoch, list.as_slice())
        }
    }
}

fn is_allowed_commit(before: &EntryList, tag: &Tag, spans: &[Span]) -> bool
    ensures { (generation : ℕ) → IsTrue result ↔ IsAllowedCommit before.now tag.now generation spans.now }
{
    tag.epoch.0 == before.epoch_of(&tag.tid)
        && !before.is_committed(tag)
        && !spans.is_empty()
        && spans.len() <= 16
        && have_distinct_parts(spans)
        && commits_own(&tag.tid, tag.number, before.length(), spans)
}

fn is_allowed_set(
    alloc: Global,
    before: &EntryList,
    tid: &Tid,
    epoch: Epoch,
    list: &[SetOffset],
) -> Result<bool, AllocError>
    ensures { IfOk result (λ allowed. IsTrue allowed ↔
        IsAllowedSet before.now tid.now (Entry.Set tid.now epoch list.now) list.now) }
{
    let distinct = are_of_distinct_parts(alloc, list)?;
    Ok(distinct && epoch.0 == before.epoch_of(tid) && sets_own(tid, list))
}
