//! Logs that are sound, and logs of which a frame isn't allowed or isn't safe.
use cw_bytes::Applied;
use cw_open::{FirstHarm, FramePlace, FramesRead, judge};
use cw_txn::Entry;
use cw_types::{Epoch, Listed, LogName, PartKey, Span, Tag, Tid};
use std::alloc::{AllocError, Global};
use std::test::Fail;

// The target state of `a`, paused.
const PAUSED: (&[u8], &[u8]) = (b"target-state-a", b"{\"state\":\"PAUSED\"}");

// A log of one frame with one member.
fn frame<A: Drop>(alloc: Global, member: A) -> Result<Vec<Listed<A>>, AllocError> {
    let mut members = Vec::new(alloc);
    members.push(member)?;
    let mut frames = Vec::new(alloc);
    frames.push(Listed::new(members))?;
    Ok(frames)
}

fn record(alloc: Global, key: &[u8], value: &[u8], stamp: u64) -> Result<Applied, AllocError> {
    Ok(Applied {
        offset: 0,
        stamp,
        key: Listed::new(key.to_vec(alloc)?),
        value: Some(Listed::new(value.to_vec(alloc)?)),
    })
}

// A commit of a script, of the records of part 3 from one on.
fn commit(alloc: Global, number: u64, from: u64) -> Result<Entry, AllocError> {
    let (tid, epoch, part) = (Tid::Raw(1), Epoch(0), PartKey::Raw(3));
    Ok(Entry::Commit {
        tag: Tag { tid, epoch, number },
        generation: 0,
        spans: Listed::new(vec![in alloc; Span { part, from, to: 7 }]?),
    })
}

// What is met first where the config log has one record, and the transaction log one commit.
fn met(
    alloc: Global,
    ((key, value), stamp): ((&[u8], &[u8]), u64),
    (number, from): (u64, u64),
) -> Result<Option<FirstHarm>, AllocError> {
    let config = frame(alloc, record(alloc, key, value, stamp)?)?;
    let txn = frame(alloc, commit(alloc, number, from)?)?;
    let (offsets, status, batches) = (Vec::new(alloc), Vec::new(alloc), Vec::new(alloc));
    judge(
        alloc,
        &FramesRead::new(config, offsets, status, txn, batches),
    )
}

#[test]
fn first_frame_that_lacks_something_is_met(rt: HostRuntime) -> Result<(), Fail> {
    let place = |log: LogName| FramePlace { log, at: 0 };
    let (config, txn) = (place(LogName::Config), place(LogName::Txn));
    let tasks: (&[u8], &[u8]) = (b"commit-a", b"{\"tasks\":1}");
    for (record, commit, harm) in [
        ((PAUSED, 1), (0, 0), None),
        ((PAUSED, 1), (4, 0), Some(FirstHarm::NotAllowed(txn))),
        ((PAUSED, 1), (0, 2), Some(FirstHarm::Unsafe(txn))),
        ((PAUSED, 2), (0, 2), Some(FirstHarm::Unsafe(config))),
        ((tasks, 0), (4, 0), Some(FirstHarm::NotAllowed(config))),
    ] {
        assert_eq!(rt; met(rt.alloc(), record, commit)?, harm);
    }
    Ok(())
}
