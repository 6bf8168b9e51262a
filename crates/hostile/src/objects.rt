//! The objects in memory that the top call is handed, of which one may fail at one of its calls.
use cw_disk::{Disks, MemDisk};
use cw_io::MemShelf;
use cw_types::Name;
use std::alloc::{AllocError, Global};

/// A server of one worker and one handler, for more links than there are.
pub(crate) const SERVE: &str = "serve --workers 1 --handlers 1 --conns 3";

/// How many bytes of a script are read at once, where a call fails: less than two lines, which are answered one by one.
pub(crate) const PIECE: usize = 10;

// The lines of a feed.
const ORDERS: &[u8] =
    b"line-01\nline-02\nline-03\nline-04\nline-05\nline-06\nline-07\nline-08\nline-09\nline-10\n\
line-11\nline-12\n";

/// An object that the top call is handed.
#[derive(Clone, Copy, PartialEq, Eq, Drop)]
pub(crate) enum Object {
    Input,
    Output,
    Shelf,
    Outlet,
    Listener,
    Link,
}

/// The call that fails: whose it is, and its number among that object's calls.
#[derive(Clone, Copy, Drop)]
pub(crate) struct Failure {
    pub(crate) object: Object,
    pub(crate) call: u64,
}

/// The object of this name.
pub(crate) fn object_named(word: &str) -> Option<Object> {
    match word {
        "input" => Some(Object::Input),
        "output" => Some(Object::Output),
        "shelf" => Some(Object::Shelf),
        "outlet" => Some(Object::Outlet),
        "listener" => Some(Object::Listener),
        "link" => Some(Object::Link),
        _ => None,
    }
}

/// The calls of an object that fail.
pub(crate) fn calls_of(
    alloc: Global,
    failure: Option<Failure>,
    of: Object,
) -> Result<Vec<u64>, AllocError> {
    let mut calls = Vec::new(alloc);
    if let Some(Failure { object, call }) = failure {
        if object == of {
            calls.push(call)?;
        }
    }
    Ok(calls)
}

/// Eight disks with nothing on them, which never fail.
pub(crate) fn empty_disks(alloc: Global) -> Disks<MemDisk> {
    Disks {
        config_a: MemDisk::empty(alloc),
        config_b: MemDisk::empty(alloc),
        offsets_a: MemDisk::empty(alloc),
        offsets_b: MemDisk::empty(alloc),
        status_a: MemDisk::empty(alloc),
        status_b: MemDisk::empty(alloc),
        txn: MemDisk::empty(alloc),
        batches: MemDisk::empty(alloc),
    }
}

/// A shelf of three feeds, of which these calls fail: `long` has a line that is too long, `none` no line, and `orders`
/// twelve lines.
pub(crate) fn shelf_of(alloc: Global, failing: Vec<u64>) -> Result<MemShelf, AllocError> {
    let mut shelf = MemShelf::new(alloc, failing);
    let long = vec![in alloc; b'x'; 65_537]?;
    put(alloc, &mut shelf, b"long", &long)?;
    put(alloc, &mut shelf, b"none", b"")?;
    put(alloc, &mut shelf, b"orders", ORDERS)?;
    Ok(shelf)
}

// Puts a feed on a shelf.
fn put(alloc: Global, shelf: &mut MemShelf, name: &[u8], lines: &[u8]) -> Result<(), AllocError> {
    if let Some(name) = Name::from_bytes(alloc, name)? {
        shelf.put(name, lines.to_vec(alloc)?)?;
    }
    Ok(())
}

/// The words of a command.
pub(crate) fn words_of(alloc: Global, line: &str) -> Result<Vec<String>, AllocError> {
    let mut words = Vec::new(alloc);
    for word in line.split(' ') {
        words.push(String::from_str(alloc, word)?)?;
    }
    Ok(words)
}
