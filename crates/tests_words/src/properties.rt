//! Calls that no table makes.
use cw_json::{Props, Text, props_of, read_value, text_of, value_of};
use std::test::Fail;

fn one_property(rt: &HostRuntime) -> Result<Props, Fail> {
    let mut pairs = Vec::new(rt.alloc());
    let key = Text::of(rt.alloc(), "a")?;
    pairs.push((key, Text::new("1".to_string(rt.alloc())?)))?;
    Ok(Props::new(pairs))
}

#[test]
fn properties_are_made_looked_up_and_copied(rt: HostRuntime) -> Result<(), Fail> {
    assert!(rt; Props::empty(rt.alloc()).get("a").is_none());
    let props = one_property(&rt)?.copy()?;
    let value = props.get("a").ok_or("a value")?;
    assert_eq!(rt; value.copy()?.into_string().as_str(), "1");
    assert_eq!(rt;
        text_of(rt.alloc(), &props)?.as_slice(),
        b"{\"a\":\"1\"}".as_slice()
    );
    Ok(())
}

#[test]
fn properties_are_values(rt: HostRuntime) -> Result<(), Fail> {
    let value = value_of(rt.alloc(), &one_property(&rt)?)?;
    assert_eq!(rt; props_of(rt.alloc(), &value)?.into_vec().len(), 1);
    assert!(rt; read_value(rt.alloc(), b"[1]")?.is_some());
    assert!(rt; read_value(rt.alloc(), b"[1")?.is_none());
    Ok(())
}
