//! Transactions that wait for their marks, and calls that were reserved.
use crate::made::{Always, tag};
use cw_data::{Batch, DataState};
use cw_types::{Listed, Name, PartKey, Verdict};
use std::alloc::{AllocError, Global};
use std::process::Abort;
use std::test::Fail;

fn batch(alloc: Global, number: u64, topic: &Name) -> Result<Batch, AllocError> {
    let mut values = Vec::new(alloc);
    values.push(Listed::new(b"a".to_vec(alloc)?))?;
    Ok(Batch {
        tag: tag(number),
        topic: topic.copy()?,
        part: PartKey::Raw(0),
        from: 0,
        to: 9,
        values: Listed::new(values),
    })
}

// A batch whose condition the test itself vouches for.
fn add(rt: &impl Abort, log: &mut DataState, batch: Batch) -> Result<(), AllocError> {
    assert!(rt; log.end(&batch.topic) < 1000);
    assert!(rt; batch.values.as_slice().len() < 1000);
    log.batch(batch)
}

// A batch whose transaction is aborted, both of which were reserved.
fn add_reserved(rt: &impl Abort, log: &mut DataState, batch: Batch) -> Result<(), AllocError> {
    log.reserve_batch(&batch)?;
    log.reserve_mark(&tag(0), false)?;
    add(rt, log, batch)?;
    log.mark(&tag(0), false)
}

// The same, and a mark that is reserved and given up.
fn use_up(
    rt: &impl Abort,
    log: &mut DataState,
    topic: &Name,
    batch: Batch,
) -> Result<(), AllocError> {
    add_reserved(rt, log, batch)?;
    assert_eq!(rt; log.stable(topic), 1);
    assert!(rt; log.take(topic, 0).is_none());
    log.reserve_mark(&tag(1), true)?;
    log.unreserve();
    Ok(())
}

#[test]
fn reserved_calls_are_used_up(rt: HostRuntime) -> Result<(), Fail> {
    let topic = Name::read(rt.alloc(), b"t")?;
    let first = batch(rt.alloc(), 0, &topic)?;
    let mut log = DataState::new(rt.alloc());
    use_up(&rt, &mut log, &topic, first)?;
    assert_eq!(rt; log.entries().len(), 2);
    Ok(())
}

#[test]
fn first_ended_transaction_wants_a_marker(rt: HostRuntime) -> Result<(), Fail> {
    let mut log = DataState::new(rt.alloc());
    let topic = Name::read(rt.alloc(), b"t")?;
    let first = batch(rt.alloc(), 4, &topic)?;
    add(&rt, &mut log, first)?;
    assert!(rt; log.first_unmarked(&Always(Verdict::Open)).is_none());
    assert!(rt;
        log.first_unmarked(&Always(Verdict::Aborted))
            .is_some_and(|found| *found == tag(4))
    );
    log.mark(&tag(4), false)?;
    assert!(rt; log.first_unmarked(&Always(Verdict::Aborted)).is_none());
    Ok(())
}
