// What no clause says: which bytes each image has, and that a real file does as asked.
use crate::made::disk_of;
use cw_disk::{Disk, Disks, Failed, FileDisk, MemDisk, Way};
use std::process::Abort;
use std::test::Fail;

// A write in room that is made for it, no further on than where the bytes end.
fn write(rt: &impl Abort, disk: &mut MemDisk, at: u64, from: &[u8]) -> Result<(), Fail> {
    assert!(rt; at <= disk.bytes().len() as u64);
    disk.reserve(at + from.len() as u64)?;
    Ok(disk.write_at(at, from)?)
}

// What a stop may leave of a disk has these bytes.
fn expect_image(rt: &impl Abort, disk: &MemDisk, way: Way, bytes: &[u8]) -> Result<(), Fail> {
    assert_eq!(rt; disk.image(way)?.bytes(), bytes);
    Ok(())
}

#[test]
fn images_lose_what_was_not_synced(rt: HostRuntime) -> Result<(), Fail> {
    let mut disk = disk_of(rt.alloc(), b"abcde", u64::MAX)?;
    write(&rt, &mut disk, 1, b"XY")?;
    assert!(rt; disk.bytes().len() >= 4);
    assert_eq!(rt; disk.cut(4), Ok(()));
    expect_image(&rt, &disk, Way::AsRead, b"aXYd")?;
    expect_image(&rt, &disk, Way::Old, b"abcde")?;
    expect_image(&rt, &disk, Way::Noise, b"a\xFF\xFFd\xFF")?;
    assert_eq!(rt; disk.sync(), Ok(()));
    for way in [Way::AsRead, Way::Old, Way::Noise] {
        expect_image(&rt, &disk, way, b"aXYd")?;
    }
    Ok(())
}

#[test]
fn a_first_byte_is_0_or_not_there(rt: HostRuntime) -> Result<(), Fail> {
    let mut disk = MemDisk::empty(rt.alloc());
    write(&rt, &mut disk, 0, &[0])?;
    expect_image(&rt, &disk, Way::Old, b"")?;
    expect_image(&rt, &disk, Way::Noise, b"\0")
}

#[test]
fn a_first_byte_of_0_is_written_at_once(rt: HostRuntime) -> Result<(), Fail> {
    let mut disk = disk_of(rt.alloc(), b"x", u64::MAX)?;
    write(&rt, &mut disk, 0, &[0])?;
    expect_image(&rt, &disk, Way::Old, b"\0")?;
    write(&rt, &mut disk, 0, &[1])?;
    expect_image(&rt, &disk, Way::Noise, b"\xFF")
}

// Writes `abXYZ` in two pieces, and cuts off the last byte.
fn write_file(disk: &mut FileDisk<&HostRuntime>) -> Result<(), Fail> {
    disk.cut(0)?;
    disk.reserve(9)?;
    disk.write_at(0, b"abcd")?;
    disk.write_at(2, b"XYZ")?;
    disk.sync()?;
    Ok(disk.cut(4)?)
}

fn expect_file(rt: &impl Abort, disk: &mut FileDisk<&HostRuntime>) {
    let mut into = [0; 6];
    assert_eq!(rt; disk.len(), Ok(4));
    assert_eq!(rt; disk.read_at(1, &mut into), Ok(3));
    assert_eq!(rt; into, [b'b', b'X', b'Y', 0, 0, 0]);
    assert_eq!(rt; disk.read_at(8, &mut into), Ok(0));
    assert_eq!(rt; disk.cut(u64::MAX), Err(Failed));
}

#[test]
fn a_real_file_keeps_its_bytes(rt: HostRuntime) -> Result<(), Fail> {
    write_file(&mut Disks::in_folder(&rt).txn)?;
    expect_file(&rt, &mut Disks::in_folder(&rt).txn);
    Ok(())
}
