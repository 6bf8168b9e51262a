//! Eight disks in memory.
use cw_disk::{Disks, MemDisk, Way};
use std::alloc::Global;

/// With nothing on them.
pub(crate) fn empty_disks(alloc: Global) -> Disks<MemDisk> {
    Disks {
        config_a: MemDisk::empty(alloc),
        config_b: MemDisk::empty(alloc),
        offsets_a: MemDisk::empty(alloc),
        offsets_b: MemDisk::empty(alloc),
        status_a: MemDisk::empty(alloc),
        status_b: MemDisk::empty(alloc),
        txn: MemDisk::empty(alloc),
        batches: MemDisk::empty(alloc),
    }
}

/// With another one in the place of side a of the config, the offset or the status log, or of the transaction log.
pub(crate) fn put_disk(disks: Disks<MemDisk>, name: &str, disk: MemDisk) -> Disks<MemDisk> {
    let mut disks = disks;
    match name {
        "config_a" => disks.config_a = disk,
        "offsets_a" => disks.offsets_a = disk,
        "status_a" => disks.status_a = disk,
        _ => disks.txn = disk,
    }
    disks
}

/// What a stop leaves of them.
pub(crate) fn images(disks: Disks<MemDisk>, way: Way) -> Disks<MemDisk> {
    Disks {
        config_a: image(disks.config_a, way),
        config_b: image(disks.config_b, way),
        offsets_a: image(disks.offsets_a, way),
        offsets_b: image(disks.offsets_b, way),
        status_a: image(disks.status_a, way),
        status_b: image(disks.status_b, way),
        txn: image(disks.txn, way),
        batches: image(disks.batches, way),
    }
}

// What a stop leaves of one; without memory for that, the disk itself.
fn image(disk: MemDisk, way: Way) -> MemDisk {
    disk.image(way).unwrap_or(disk)
}
