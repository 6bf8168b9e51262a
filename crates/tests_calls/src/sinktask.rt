//! What is poured into an outlet that fails on the way.

use cw_io::{Failed, MemOutlet};
use cw_sinktask::{Delivery, pour};
use cw_types::{Listed, Name};
use std::alloc::{AllocError, Global};
use std::test::Fail;

// A line of a delivery.
fn line(alloc: Global, bytes: &[u8]) -> Result<Listed<u8>, AllocError> {
    Ok(Listed::new(bytes.to_vec(alloc)?))
}

#[test]
fn a_file_that_fails_has_the_first_lines_and_a_part(rt: HostRuntime) -> Result<(), Fail> {
    let alloc = rt.alloc();
    let lines = Vec::from_array(alloc, [line(alloc, b"first")?, line(alloc, b"second")?])?;
    let delivery = Delivery {
        turn: 0,
        topic: Name::read(alloc, b"t")?,
        file: Name::read(alloc, b"o")?,
        from: 0,
        to: 2,
        lines: Listed::new(lines),
    };
    let mut outlet = MemOutlet::new(alloc, vec![in alloc; 1u64]?);
    assert!(rt; pour(&delivery, &mut outlet) == Err(Failed));
    assert!(rt; outlet.file(&delivery.file) == Some(b"first\nsec".as_slice()));
    assert!(rt; pour(&delivery, &mut outlet) == Ok(()));
    assert_eq!(rt; outlet.faults(), 1);
    Ok(())
}
