//! A worked row of ten config records of which six stay, and tasks that wait for their commit.
use cw_bytes::Applied;
use cw_compact::{compact_configs, compact_statuses};
use cw_types::Listed;
use std::alloc::{AllocError, Global};
use std::process::Abort;
use std::test::Fail;

// Records of these keys, from offset 0 on, each in a frame of its own.
fn log(alloc: Global, keys: &[&[u8]]) -> Result<Vec<Listed<Applied>>, AllocError> {
    let mut frames = Vec::new(alloc);
    for (offset, key) in keys.iter().enumerate() {
        let mut frame = Vec::new(alloc);
        frame.push(Applied {
            offset: offset as u64,
            stamp: 0,
            key: Listed::new(key.to_vec(alloc)?),
            value: None,
        })?;
        frames.push(Listed::new(frame))?;
    }
    Ok(frames)
}

// Whether just these offsets are left, each in a frame of its own.
fn expect_left(rt: &impl Abort, frames: &Vec<Listed<Applied>>, offsets: &[u64]) {
    assert_eq!(rt; frames.len(), offsets.len());
    for (frame, offset) in frames.iter().zip(offsets) {
        assert_eq!(rt; frame.as_slice().len(), 1);
        assert_eq!(rt; frame.as_slice()[0].offset, *offset);
    }
}

#[test]
fn a_connector_that_shrinks_keeps_its_last_records(rt: HostRuntime) -> Result<(), Fail> {
    let keys: [&[u8]; 10] = [
        b"connector-a",
        b"task-a-0",
        b"task-a-1",
        b"task-a-2",
        b"commit-a",
        b"tasks-fencing-a",
        b"connector-a",
        b"task-a-0",
        b"commit-a",
        b"tasks-fencing-a",
    ];
    let frames = log(rt.alloc(), &keys)?;
    let left = compact_configs(rt.alloc(), frames)?;
    expect_left(&rt, &left, &[2, 3, 6, 7, 8, 9]);
    Ok(())
}

#[test]
fn a_task_that_waits_keeps_what_was_committed(rt: HostRuntime) -> Result<(), Fail> {
    let keys: [&[u8]; 5] = [
        b"task-a-0",
        b"task-a-0",
        b"commit-a",
        b"task-a-0",
        b"task-a-0",
    ];
    let frames = log(rt.alloc(), &keys)?;
    let left = compact_configs(rt.alloc(), frames)?;
    expect_left(&rt, &left, &[1, 2, 3, 4]);
    let left = compact_statuses(rt.alloc(), log(rt.alloc(), &keys)?)?;
    expect_left(&rt, &left, &[2, 4]);
    Ok(())
}
