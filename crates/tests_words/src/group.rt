//! Calls that no table makes.
use cw_assign::ItemSet;
use cw_group::Group;
use std::test::Fail;

#[test]
fn a_new_member_holds_nothing(rt: HostRuntime) -> Result<(), Fail> {
    let mut group = Group::new(rt.alloc());
    let incarnation = group.enter(7)?;
    let nothing = ItemSet::new(rt.alloc()).into_items(rt.alloc())?;
    let round = group.join(7, incarnation, &nothing)?;
    assert!(rt; round == 1);
    assert!(rt; group.incarnation(7) == Some(1));
    assert!(rt; group.has_joined(7));
    assert!(rt; group.planned().is_empty());
    assert!(rt; group.members().len() == 1);
    assert!(rt; group.holders()?.len() == 1);
    Ok(())
}
