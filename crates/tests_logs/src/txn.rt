//! Each call once with ample memory, where no table of calls makes it.
use cw_txn::{BodyFault, Coordinator, Entry, ListFault, Replay, SetOffset, write_entries};
use cw_types::{Epoch, Listed, Name, PartKey, Span, Tag, Tid};
use std::alloc::{AllocError, Global};
use std::test::Fail;

// The body of a bump of the first script's producer.
const BUMP: &[u8] = b"\x00\x00\x00\x01\x01\x03\x00\x00\x00\x00";

// The body of that producer's first commit, of a span of part 0.
fn commit_body(alloc: Global, number: u64, from: u64, to: u64) -> Result<Vec<u8>, AllocError> {
    let part = PartKey::Raw(0);
    let spans = vec![in alloc; Span { part, from, to }]?;
    let commit = Entry::Commit {
        tag: Tag {
            tid: Tid::Raw(0),
            epoch: Epoch(1),
            number,
        },
        generation: 0,
        spans: Listed::new(spans),
    };
    write_entries(alloc, &[commit])
}

#[test]
fn what_is_reserved_is_used_up_or_given_up(rt: HostRuntime) -> Result<(), Fail> {
    let mut txn = Coordinator::new(rt.alloc());
    let entry = Entry::Bump(Tid::Raw(2)).copy(rt.alloc())?;
    txn.reserve(&entry)?;
    assert!(rt; txn.bump(&Tid::Raw(2)) == Ok(Epoch(1)));
    txn.reserve(&entry)?;
    txn.release();
    assert_eq!(rt; txn.length(), 1);
    Ok(())
}

#[test]
fn parts_of_a_connector_have_an_order(rt: HostRuntime) -> Result<(), Fail> {
    let mut txn = Coordinator::new(rt.alloc());
    for (connector, index) in [(b"b", 1), (b"a", 0), (b"b", 0), (b"c", 0)] {
        let connector = Name::read(rt.alloc(), connector)?;
        let part = PartKey::Seq { connector, index };
        txn.set(&Tid::Lead, Epoch(0), &[SetOffset { part, to: Some(3) }])?;
    }
    let parts = txn.parts_of(&Name::read(rt.alloc(), b"b")?)?;
    assert_eq!(rt; parts.len(), 2);
    assert!(rt; parts[0] < parts[1]);
    Ok(())
}

#[test]
fn bodies_make_their_coordinator(rt: HostRuntime) -> Result<(), Fail> {
    let mut replay = Replay::new(rt.alloc());
    replay.take_body(BUMP, 16)?;
    replay.take_body(&commit_body(rt.alloc(), 1, 0, 5)?, 40)?;
    let txn = replay.into_coordinator()?;
    assert!(rt; txn.end_of(&PartKey::Raw(0)) == Some(5));
    Ok(())
}

#[test]
fn the_gate_of_the_first_fault_is_told(rt: HostRuntime) -> Result<(), Fail> {
    for (number, from, fault) in [
        (2, 0, ListFault::NotAllowed(40)),
        (1, 3, ListFault::Unchained(40)),
    ] {
        let mut replay = Replay::new(rt.alloc());
        assert!(rt; replay.take_body(b"", 16) == Err(BodyFault::NotEntries));
        replay.take_body(BUMP, 16)?;
        replay.take_body(&commit_body(rt.alloc(), number, from, 9)?, 40)?;
        assert!(rt; replay.into_coordinator().err() == Some(fault));
    }
    Ok(())
}
