//! Calls that no table makes.
use cw_feed::Feeds;
use cw_io::{MemShelf, Shelf, ShelfFault};
use cw_types::{Name, PartKey};
use std::alloc::{AllocError, Global};
use std::process::Abort;
use std::test::Fail;

// A shelf with two feeds, of which the call with this number fails.
fn two_feeds(alloc: Global, failing: u64) -> Result<MemShelf, Fail> {
    let mut shelf = MemShelf::new(alloc, vec![in alloc; failing]?);
    shelf.put(Name::read(alloc, b"b")?, b"two\n".to_vec(alloc)?)?;
    shelf.put(Name::read(alloc, b"a")?, b"one\n".to_vec(alloc)?)?;
    Ok(shelf)
}

// The calls are names, the load of a, the load of b, and names, and two loads again.
#[test]
fn feeds_are_those_of_the_shelf_or_its_fault(rt: HostRuntime) -> Result<(), Fail> {
    let mut shelf = two_feeds(rt.alloc(), 2)?;
    match Feeds::load(rt.alloc(), &mut shelf) {
        Ok(_) => assert!(rt; false, "a failing load is told"),
        Err(fault) => assert_eq!(rt; fault, ShelfFault::Failed),
    }
    assert_eq!(rt; shelf.faults(), 1);
    let feeds = Feeds::load(rt.alloc(), &mut shelf)?;
    assert_eq!(rt; feeds.names().len(), 2);
    Ok(())
}

// The part of the feed `b`.
fn part_of_b(alloc: Global) -> Result<PartKey, Fail> {
    let connector = Name::read(alloc, b"c")?;
    let feed = Name::read(alloc, b"b")?;
    Ok(PartKey::File { connector, feed })
}

// The feed has one line, and no part of a script has any.
fn expect_yields(rt: &impl Abort, feeds: &Feeds, part: &PartKey) -> Result<(), AllocError> {
    assert!(rt; feeds.has_yield(part, 0, 4));
    assert_eq!(rt; feeds.yield_of(part, 0, 4)?.len(), 1);
    assert!(rt; !feeds.has_yield(&PartKey::Raw(0), 0, 0));
    Ok(())
}

#[test]
fn a_feed_yields_its_lines(rt: HostRuntime) -> Result<(), Fail> {
    let part = part_of_b(rt.alloc())?;
    let mut shelf = two_feeds(rt.alloc(), 9)?;
    let feeds = Feeds::load(rt.alloc(), &mut shelf)?;
    Ok(expect_yields(&rt, &feeds, &part)?)
}
