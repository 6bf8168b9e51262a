//! The eight disks of a cluster, in memory.
use cw_disk::{Disks, MemDisk, Way};
use cw_types::DiskName;
use std::alloc::{AllocError, Global};

/// The names of the disks, in the order in which they are opened.
pub(crate) const DISKS: [DiskName; 8] = [
    DiskName::ConfigA,
    DiskName::ConfigB,
    DiskName::OffsetsA,
    DiskName::OffsetsB,
    DiskName::StatusA,
    DiskName::StatusB,
    DiskName::Txn,
    DiskName::Batches,
];

/// Eight empty disks, which never fail.
pub(crate) fn empty_disks(alloc: Global) -> Disks<MemDisk> {
    Disks {
        config_a: MemDisk::empty(alloc),
        config_b: MemDisk::empty(alloc),
        offsets_a: MemDisk::empty(alloc),
        offsets_b: MemDisk::empty(alloc),
        status_a: MemDisk::empty(alloc),
        status_b: MemDisk::empty(alloc),
        txn: MemDisk::empty(alloc),
        batches: MemDisk::empty(alloc),
    }
}

/// The disk of a name.
pub(crate) fn disk_at(disks: &Disks<MemDisk>, name: DiskName) -> &MemDisk {
    match name {
        DiskName::ConfigA => &disks.config_a,
        DiskName::ConfigB => &disks.config_b,
        DiskName::OffsetsA => &disks.offsets_a,
        DiskName::OffsetsB => &disks.offsets_b,
        DiskName::StatusA => &disks.status_a,
        DiskName::StatusB => &disks.status_b,
        DiskName::Txn => &disks.txn,
        DiskName::Batches => &disks.batches,
    }
}

/// Puts a disk in the place of the one of a name.
pub(crate) fn put_disk(disks: &mut Disks<MemDisk>, name: DiskName, disk: MemDisk) {
    match name {
        DiskName::ConfigA => disks.config_a = disk,
        DiskName::ConfigB => disks.config_b = disk,
        DiskName::OffsetsA => disks.offsets_a = disk,
        DiskName::OffsetsB => disks.offsets_b = disk,
        DiskName::StatusA => disks.status_a = disk,
        DiskName::StatusB => disks.status_b = disk,
        DiskName::Txn => disks.txn = disk,
        DiskName::Batches => disks.batches = disk,
    }
}

/// Eight empty disks, of which the one of a name fails from its call number `fuse` on, counted from 0.
pub(crate) fn disks_with(
    alloc: Global,
    at: DiskName,
    fuse: u64,
) -> Result<Disks<MemDisk>, AllocError> {
    let fused = MemDisk::new(alloc, Vec::new(alloc), Vec::new(alloc), fuse)?;
    let mut disks = empty_disks(alloc);
    put_disk(&mut disks, at, fused);
    Ok(disks)
}

/// What a stop leaves of eight disks, one image of each.
pub(crate) fn images_of(
    alloc: Global,
    disks: &Disks<MemDisk>,
    way: Way,
) -> Result<Disks<MemDisk>, AllocError> {
    let mut images = empty_disks(alloc);
    for name in DISKS {
        put_disk(&mut images, name, disk_at(disks, name).image(way)?);
    }
    Ok(images)
}
