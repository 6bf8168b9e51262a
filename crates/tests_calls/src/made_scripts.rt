//! Scripts that are made from a number, and what they come to.
use cw_gen::{GenEnd, generate};
use cw_io::MemSink;
use cw_types::Name;
use std::alloc::Global;
use std::test::Fail;

// What is printed of so many directives from a number on.
fn printed(alloc: Global, start: u64, count: u64) -> Result<(GenEnd, MemSink), Fail> {
    let group = Name::read(alloc, b"connect-cluster")?;
    let mut output = MemSink::new(alloc, 1_000, Vec::new(alloc));
    if count > 1_000_000 {
        return Ok((GenEnd::Memory, output));
    }
    let end = generate(alloc, start, count, group, 300_000, &mut output);
    Ok((end, output))
}

#[test]
fn four_directives_commit_nothing(rt: HostRuntime) -> Result<(), Fail> {
    let (end, output) = printed(rt.alloc(), 0, 4)?;
    assert_eq!(rt; end, GenEnd::Done);
    let wanted = "directives 4\ncommits 0\nfenced 0\nrecords 0\n";
    assert_eq!(rt; output.bytes(), wanted.as_bytes());
    Ok(())
}

#[test]
fn many_directives_commit_records(rt: HostRuntime) -> Result<(), Fail> {
    let (end, output) = printed(rt.alloc(), 3, 400)?;
    assert_eq!(rt; end, GenEnd::Done);
    let wanted = "directives 400\ncommits 259\nfenced 0\nrecords 1813\n";
    assert_eq!(rt; output.bytes(), wanted.as_bytes());
    Ok(())
}

#[test]
fn one_number_makes_one_script(rt: HostRuntime) -> Result<(), Fail> {
    let (first, once) = printed(rt.alloc(), 7, 60)?;
    let (second, again) = printed(rt.alloc(), 7, 60)?;
    assert_eq!(rt; first, second);
    assert_eq!(rt; once.bytes(), again.bytes());
    Ok(())
}
