//! A cluster over disks in memory, and calls through its worker.
use cw_desk::turn;
use cw_disk::{Disks, MemDisk};
use cw_feed::Feeds;
use cw_io::MemShelf;
use cw_open::reopen;
use cw_route::Call;
use cw_types::Name;
use cw_world::{Receipt, World};
use std::alloc::Global;

pub(crate) type Trial = World<MemDisk>;

/// A cluster over empty disks, without workers.
pub(crate) fn opened(alloc: Global) -> Option<Trial> {
    let feeds = Feeds::load(alloc, &mut MemShelf::new(alloc, Vec::new(alloc))).ok()?;
    let group = Name::read(alloc, b"g").ok()?;
    reopen(alloc, empty_disks(alloc), feeds, group, 0).ok()
}

fn empty_disks(alloc: Global) -> Disks<MemDisk> {
    Disks {
        config_a: MemDisk::empty(alloc),
        config_b: MemDisk::empty(alloc),
        offsets_a: MemDisk::empty(alloc),
        offsets_b: MemDisk::empty(alloc),
        status_a: MemDisk::empty(alloc),
        status_b: MemDisk::empty(alloc),
        txn: MemDisk::empty(alloc),
        batches: MemDisk::empty(alloc),
    }
}

/// A call through worker 0, which is kept in the journal.
pub(crate) fn ask(alloc: Global, world: &mut Trial, call: &Call) -> Option<Receipt> {
    let call = call.copy().ok()?;
    if !world.cluster().has_worker(0) || !world.cluster().row_of(0).live {
        return None;
    }
    turn(alloc, world, 0, call).ok()
}
