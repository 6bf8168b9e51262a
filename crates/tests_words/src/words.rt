use cw_words::{Command, WordsFault, read_words};
use std::test::Fail;

// What words are read as.
fn read(rt: &HostRuntime, line: &str) -> Result<Result<Command, WordsFault>, Fail> {
    let mut words = Vec::new(rt.alloc());
    for word in line.split(' ') {
        words.push(String::from_str(rt.alloc(), word)?)?;
    }
    Ok(read_words(rt.alloc(), &words))
}

#[test]
fn drive_has_a_group_and_a_delay(rt: HostRuntime) -> Result<(), Fail> {
    let Command::Drive(plain) = read(&rt, "drive")?? else {
        return Err(WordsFault::Usage.into());
    };
    assert_eq!(rt; plain.group.as_bytes(), b"connect-cluster".as_slice());
    assert!(rt; plain.delay == 300000);
    let Command::Drive(given) = read(&rt, "drive --delay 0 --group=g")?? else {
        return Err(WordsFault::Usage.into());
    };
    assert!(rt; given.group.as_bytes() == b"g".as_slice() && given.delay == 0);
    Ok(())
}

#[test]
fn script_has_a_number_and_a_length(rt: HostRuntime) -> Result<(), Fail> {
    let Command::Gen(made) = read(&rt, "gen 7 20000 --group g")?? else {
        return Err(WordsFault::Usage.into());
    };
    assert!(rt; made.start == 7 && made.count == 20000);
    assert!(rt; made.shared.group.as_bytes() == b"g".as_slice() && made.shared.delay == 300000);
    Ok(())
}

#[test]
fn server_has_its_sizes(rt: HostRuntime) -> Result<(), Fail> {
    let Command::Serve(plain) = read(&rt, "serve")?? else {
        return Err(WordsFault::Usage.into());
    };
    assert!(rt; plain.workers == 3 && plain.runners == 2);
    assert!(rt; plain.handlers == 4 && plain.conns == 1000);
    let Command::Serve(given) = read(&rt, "serve --conns 10000 --workers=64 --delay 0")?? else {
        return Err(WordsFault::Usage.into());
    };
    assert!(rt; given.workers == 64 && given.conns == 10000 && given.shared.delay == 0);
    Ok(())
}

#[test]
fn other_words_are_no_command(rt: HostRuntime) -> Result<(), Fail> {
    for line in [
        "",
        "run",
        "drive more",
        "--help",
        "drive -h",
        "drive --delay 01",
        "audit more",
        "gen 7",
        "gen 7 0",
        "serve --handlers 65",
        "serve --conns 10001",
        "drive --workers 1",
    ] {
        assert!(rt; read(&rt, line)? == Err(WordsFault::Usage));
    }
    Ok(())
}
