//! Counts the transactions that were committed.
ghost use Rattle.std.specs.Prelude.{◌≡◌, ◌≤◌, ◌<◌, ◌^◌, List, ℕ, [], length, IfOk, OnOk, OnErr, slice_index_or};
ghost use Rattle.cw_bytes.specs.Frames.{joined};
ghost use Rattle.cw_log.specs.State.{HasSameList};
ghost use Rattle.cw_txn.specs.declared.entry.Entry.{Entry};
ghost use Rattle.cw_gen.specs.Counts.{HasFrames, HoldsFrames, IsBodyOf, commit_count, is_commit};

use crate::steady_disk::SteadyDisk;
use cw_log::{OpenCause, ReadFault, TopicLog, files_read_one_way};
use cw_txn::{BodyFault, Entry, read_entries};
use cw_types::LogName;
use std::alloc::{AllocError, Global};

/// How many transactions are committed in the log that a disk holds.
pub(crate) fn count_commits(alloc: Global, disk: SteadyDisk) -> Result<u64, AllocError>
    requires { (frames : List (List Entry)) × HoldsFrames disk.held.bytes.items frames }
    ensures { IfOk result (λ n. (frames : List (List Entry)) → HoldsFrames disk.held.bytes.items frames →
        n ≡ commit_count (joined frames)) }
{
    files_read_one_way();
    match TopicLog::open_log(alloc, disk, LogName::Txn, u64::MAX) {
        Ok(mut log) => {
            log.rest();
            count_all(alloc, &mut log)
        }
        Err(fault) => match fault.cause {
            OpenCause::Memory => Err(AllocError),
            OpenCause::Damaged { .. } | OpenCause::Failed => unreachable!(),
        },
    }
}

// The same of a log that was opened.
fn count_all(alloc: Global, log: &mut TopicLog<SteadyDisk>) -> Result<u64, AllocError>
    requires { (frames : List (List Entry)) × HasFrames log.old frames }
    ensures { IfOk result (λ n. (frames : List (List Entry)) → HasFrames log.old frames →
        n ≡ commit_count (joined frames)) }
{
    let mut commits = 0;
    for index in 0..log.count() {
        commits += count_at(alloc, log, index)?;
    }
    Ok(commits)
}

// The same of the frame at a place.
fn count_at(alloc: Global, log: &mut TopicLog<SteadyDisk>, index: u64) -> Result<u64, AllocError>
    requires within { index < log.old.count }
    requires frames { (frames : List (List Entry)) × HasFrames log.old frames }
    ensures count { IfOk result (λ n. (frames : List (List Entry)) → HasFrames log.old frames →
        n ≡ commit_count (slice_index_or frames index [])) }
    ensures same { HasSameList log.old log.new }
{
    match log.read_body(index) {
        Ok(body) => count_in(alloc, body.as_slice()),
        Err(ReadFault::Memory) => Err(AllocError),
        Err(ReadFault::Failed) => unreachable!(),
    }
}

// The same of the frame whose body this is.
fn count_in(alloc: Global, body: &[u8]) -> Result<u64, AllocError>
    requires { (entries : List Entry) × IsBodyOf body.now entries }
    ensures { IfOk result (λ n. (entries : List Entry) → IsBodyOf body.now entries → n ≡ commit_count entries) }
{
    match read_entries(alloc, body) {
        Ok(entries) => Ok(entries.iter().filter(|entry| is_commit(entry)).count() as u64),
        Err(BodyFault::Memory) => Err(AllocError),
        Err(BodyFault::NotEntries) => unreachable!(),
    }
}

// Whether an entry commits a transaction.
fn is_commit(entry: &Entry) -> bool
    ensures { result ≡ is_commit entry.now }
{
    matches!(entry, Entry::Commit { .. })
}
