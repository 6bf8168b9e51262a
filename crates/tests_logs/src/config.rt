//! A frame for which room was made, and an application without memory for its key.
use cw_config::{ConfigRecord, ConfigState};
use cw_keys::{ConfigKey, ConfigValue, Target};
use cw_types::Name;
use std::test::Fail;

fn paused(rt: &HostRuntime, offset: u64) -> Result<ConfigRecord, Fail> {
    Ok(ConfigRecord {
        offset,
        stamp: 0,
        key: ConfigKey::Target(Name::read(rt.alloc(), b"a")?),
        value: Some(ConfigValue::Target(Target::Paused)),
    })
}

#[test]
fn reserved_frame_that_is_given_up_leaves_the_state(rt: HostRuntime) -> Result<(), Fail> {
    let mut frame = Vec::new(rt.alloc());
    frame.push(paused(&rt, 3)?)?;
    let Ok(reserved) = ConfigState::new(rt.alloc()).reserve(frame) else {
        return Err("room".into());
    };
    let state = reserved.give_up();
    let name = Name::read(rt.alloc(), b"a")?;
    assert!(rt; state.target(&name) == Target::Started);
    assert!(rt; state.next() == Some(0));
    assert!(rt; state.connectors()?.is_empty());
    Ok(())
}

#[test]
fn empty_frame_is_applied(rt: HostRuntime) -> Result<(), Fail> {
    let mut state = ConfigState::new(rt.alloc());
    let text = b"{\"state\":\"PAUSED\"}";
    assert!(rt; state.apply(4, 9, b"target-state-a", Some(text)) == Ok(()));
    let Ok(reserved) = state.reserve(Vec::new(rt.alloc())) else {
        return Err("room".into());
    };
    let state = reserved.apply();
    let name = Name::read(rt.alloc(), b"a")?;
    assert!(rt; state.target(&name) == Target::Paused);
    assert!(rt; state.next() == Some(5));
    Ok(())
}
