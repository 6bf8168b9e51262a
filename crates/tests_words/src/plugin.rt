//! Calls that no table makes.
use cw_json::{Props, read_props};
use cw_plugin::{Class, check_config, task_configs, task_of};
use cw_types::Name;
use std::alloc::Global;
use std::process::Abort;
use std::test::Fail;

fn sink_props(rt: &HostRuntime) -> Result<Props, Fail> {
    let text =
        b"{\"connector.class\":\"FileStreamSink\",\"file\":\"out\",\"tasks.max\":2,\"topics\":\"t,u\"}";
    Ok(read_props(rt.alloc(), text)?)
}

// The number of parts of a copy of the task that a task's properties stand for.
fn parts_of(alloc: Global, connector: &Name, config: &Props) -> Result<usize, Fail> {
    let task = task_of(alloc, connector, config)?.ok_or("a task")?;
    Ok(task.copy(alloc)?.parts.as_slice().len())
}

// Each of these is a task of one part.
fn expect_tasks(rt: &impl Abort, alloc: Global, configs: &[Props]) -> Result<(), Fail> {
    let connector = Name::read(alloc, b"a")?;
    for config in configs {
        assert_eq!(rt; parts_of(alloc, &connector, config)?, 1);
    }
    Ok(())
}

#[test]
fn tasks_of_a_config_are_read_and_copied(rt: HostRuntime) -> Result<(), Fail> {
    let props = sink_props(&rt)?;
    assert!(rt; check_config(rt.alloc(), &props, &[])? == Class::FileStreamSink);
    let configs = task_configs(rt.alloc(), &props)?;
    assert_eq!(rt; configs.len(), 2);
    expect_tasks(&rt, rt.alloc(), &configs)
}
