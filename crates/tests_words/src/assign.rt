//! Calls that no table makes.
use cw_assign::{Delay, Holder, ItemSet, plan};
use cw_types::{Item, Listed, Name};
use std::test::Fail;

#[test]
fn a_delay_ends_at_its_moment(rt: HostRuntime) {
    let delay = Delay::started(7, 300_000);
    assert!(rt; !delay.is_due(300_006));
    assert!(rt; delay.is_due(300_007));
    assert!(rt; !Delay::Idle.is_due(u64::MAX));
}

#[test]
fn an_item_goes_to_a_member(rt: HostRuntime) -> Result<(), Fail> {
    let item = Item::Connector(Name::read(rt.alloc(), b"a")?);
    let holder = Holder {
        worker: 5,
        held: Listed::new(Vec::new(rt.alloc())),
    };
    let planned = plan(rt.alloc(), &[holder], &[item], &[], false)?;
    for share in planned.shares.as_slice() {
        assert_eq!(rt; share.fresh.as_slice().len(), 1);
    }
    Ok(())
}

#[test]
fn a_set_has_each_item_once(rt: HostRuntime) -> Result<(), Fail> {
    let item = Item::Connector(Name::read(rt.alloc(), b"a")?);
    let mut set = ItemSet::of(rt.alloc(), &[item.copy()?])?;
    set.add(&[item.copy()?])?;
    assert!(rt; set.has(&item));
    assert_eq!(rt; set.into_items(rt.alloc())?.len(), 1);
    Ok(())
}
