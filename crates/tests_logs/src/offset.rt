//! Transactions that wait for their marks, calls that were reserved, and a log that was compacted.
use crate::made::{Always, tag};
use cw_offset::OffsetState;
use cw_types::{PartKey, Verdict};
use std::alloc::{AllocError, Global};
use std::process::Abort;
use std::test::Fail;

// Whether the first transaction to mark is this one.
fn expect_first(rt: &impl Abort, state: &OffsetState, number: u64) {
    let first = state.first_unmarked(&Always(Verdict::Aborted));
    assert!(rt; first.is_some_and(|found| *found == tag(number)));
}

// A log in which the first transaction is committed, then its part is set, and the second one is open.
fn opened(alloc: Global, stands: bool) -> Result<OffsetState, AllocError> {
    let mut state = OffsetState::new(alloc);
    if stands {
        state.stand(&tag(1))?;
    }
    state.stand(&tag(2))?;
    if stands {
        state.put(&tag(1), &PartKey::Raw(0), 5)?;
    }
    state.set(&PartKey::Raw(0), Some(9))?;
    state.put(&tag(2), &PartKey::Raw(1), 7)?;
    Ok(state)
}

#[test]
fn compacted_log_says_the_same_behind_a_commit(rt: HostRuntime) -> Result<(), Fail> {
    let mut whole = opened(rt.alloc(), true)?;
    let mut compacted = opened(rt.alloc(), false)?;
    expect_first(&rt, &whole, 1);
    expect_first(&rt, &compacted, 2);
    whole.commit(&tag(1))?;
    whole.commit(&tag(2))?;
    compacted.commit(&tag(2))?;
    assert_eq!(rt; whole.committed(&PartKey::Raw(0)), Some(9));
    assert_eq!(rt; compacted.committed(&PartKey::Raw(0)), Some(9));
    assert_eq!(rt; whole.committed(&PartKey::Raw(1)), Some(7));
    assert_eq!(rt; compacted.committed(&PartKey::Raw(1)), Some(7));
    let none = compacted.first_unmarked(&Always(Verdict::Aborted));
    assert!(rt; none.is_none());
    Ok(())
}

// A put that is committed, both of which were reserved.
fn put_reserved(state: &mut OffsetState, part: &PartKey) -> Result<(), AllocError> {
    state.reserve_put(&tag(1), part, 7)?;
    state.reserve_commit(&tag(1))?;
    state.put(&tag(1), part, 7)?;
    state.commit(&tag(1))
}

// An offset that is set behind one that was reserved and given up.
fn set_unreserved(state: &mut OffsetState, part: &PartKey) -> Result<(), AllocError> {
    state.reserve_set(part, None)?;
    state.unreserve();
    state.set(part, Some(9))
}

#[test]
fn reserved_calls_are_done(rt: HostRuntime) -> Result<(), Fail> {
    let mut state = OffsetState::new(rt.alloc());
    let part = PartKey::Raw(3);
    put_reserved(&mut state, &part)?;
    assert_eq!(rt; state.committed(&part), Some(7));
    set_unreserved(&mut state, &part)?;
    assert_eq!(rt; state.committed(&part), Some(9));
    Ok(())
}
