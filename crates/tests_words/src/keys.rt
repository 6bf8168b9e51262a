//! Calls that no table makes.
use cw_json::Text;
use cw_keys::{
    State, StatusValue, fenced_trace, long_line_trace, read_config, read_offset, read_part,
    write_config, write_offset,
};
use std::test::Fail;

#[test]
fn offsets_are_read_and_written(rt: HostRuntime) -> Result<(), Fail> {
    let key = b"[\"a\",{\"kafka_partition\":0,\"kafka_topic\":\"t\"}]";
    let part = read_part(rt.alloc(), key)?;
    let value = write_offset(rt.alloc(), &part, u64::MAX)?;
    assert_eq!(rt; read_offset(rt.alloc(), &part, value.as_slice())?, u64::MAX);
    Ok(())
}

#[test]
fn traces_tell_why_a_task_failed(rt: HostRuntime) -> Result<(), Fail> {
    let fenced = fenced_trace(rt.alloc(), 1, 2)?;
    assert_eq!(rt; fenced.as_str(), "Fenced: epoch 1, current 2");
    let long_line = long_line_trace(rt.alloc(), 96)?;
    assert_eq!(rt; long_line.as_str(), "Line too long at 96");
    Ok(())
}

#[test]
fn keys_and_values_are_copied(rt: HostRuntime) -> Result<(), Fail> {
    let value = b"{\"properties\":{\"a\":\"1\"}}";
    let (key, value) = read_config(rt.alloc(), b"task-a-1-0", Some(value))?;
    let Some(value) = value else {
        return Err("the value is lost".into());
    };
    let (_, text) = write_config(rt.alloc(), &key, Some(&value.copy()?))?;
    assert!(rt; text.is_some());
    Ok(())
}

#[test]
fn statuses_are_copied(rt: HostRuntime) -> Result<(), Fail> {
    let status = StatusValue {
        state: State::Failed,
        trace: Some(Text::of(rt.alloc(), "x")?),
        worker: 0,
        round: 1,
    };
    let copy = status.copy()?;
    assert_eq!(rt; copy.state.name(), "FAILED");
    assert!(rt; copy.trace.is_some());
    Ok(())
}
