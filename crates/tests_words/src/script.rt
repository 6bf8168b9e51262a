//! Calls that no table makes.
use cw_script::{LineKind, ScriptFault, read_line};
use std::test::Fail;

#[test]
fn directives_are_copied_and_spelled(rt: HostRuntime) -> Result<(), Fail> {
    for line in [
        b"commit 3 2 9 5".as_slice(),
        b"rest 0 PUT /x a  b ",
        b"take a,b 0",
    ] {
        let directive = read_line(rt.alloc(), line, 1)?.ok_or("a directive")?;
        assert_eq!(rt; directive.copy()?.spell(rt.alloc())?.as_slice(), line);
    }
    Ok(())
}

#[test]
fn faults_have_texts(rt: HostRuntime) -> Result<(), Fail> {
    let fault = ScriptFault::BadLine {
        number: 7,
        kind: LineKind::NoWord,
    };
    assert_eq!(rt; fault.to_string(rt.alloc())?.as_str(), "line 7: NoWord");
    assert!(rt; read_line(rt.alloc(), b"# a", 1)?.is_none());
    Ok(())
}
