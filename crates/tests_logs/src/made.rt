//! What the tests of several crates make: disks in memory, and transactions that all ended in one way.
use cw_disk::{MemDisk, Memory};
use cw_types::{Decided, Epoch, Tag, Tid, Verdict};
use std::alloc::Global;

// A disk with these bytes, each of whose calls fails from number `fuse` on.
pub(crate) fn disk_of(alloc: Global, bytes: &[u8], fuse: u64) -> Result<MemDisk, Memory> {
    MemDisk::new(alloc, bytes.to_vec(alloc)?, Vec::new(alloc), fuse)
}

// A transaction of one producer.
pub(crate) fn tag(number: u64) -> Tag {
    Tag {
        tid: Tid::Raw(0),
        epoch: Epoch(1),
        number,
    }
}

// Every transaction has this verdict.
pub(crate) struct Always(pub(crate) Verdict);

impl Decided for Always {
    ghost verdict_of = { λ v tag. v.0 };

    fn verdict(&self, _tag: &Tag) -> Verdict {
        self.0
    }
}
