// The bytes of the format, a stop in a compaction, and which side is harmed.
use crate::made::disk_of;
use cw_disk::{MemDisk, Way};
use cw_log::{BodyLog, CompactFault, Harm, OpenCause};
use cw_pair::PairLog;
use cw_types::LogName;
use std::alloc::Global;
use std::test::Fail;

// A config log with side number 1 and the bodies `xy` and `z`.
const TWO: &[u8] = b"\x01CWL\x01\x01\0\0\0\0\0\0\0\0\0\x01\x01\0\0\0\x02xy\x01\0\0\0\x01z\0";

fn pair_of(alloc: Global, a: MemDisk, b: MemDisk) -> Result<PairLog<MemDisk>, (u8, OpenCause)> {
    PairLog::open_log(alloc, a, b, LogName::Config, 40).map_err(|fault| (fault.side, fault.cause))
}

// The last fault where a log is compacted so often to the one body `new`, and its disks. That of side b has a fuse.
fn compacted(
    alloc: Global,
    a: &[u8],
    times: u8,
    fuse: u64,
) -> Result<(Option<CompactFault>, (MemDisk, MemDisk)), Fail> {
    let bodies = Vec::from_array(alloc, [b"new".as_slice().to_vec(alloc)?])?;
    let b = disk_of(alloc, b"\x05", fuse)?;
    let mut log = pair_of(alloc, disk_of(alloc, a, u64::MAX)?, b)?;
    let mut fault = None;
    for _ in 0..times {
        fault = log.compact(&bodies).err();
    }
    Ok((fault, log.give_back()))
}

// How many bodies are found on what a stop may leave of two disks.
fn found_on(alloc: Global, (a, b): &(MemDisk, MemDisk), way: Way) -> Result<u64, Fail> {
    let a = a.image(way)?;
    Ok(pair_of(alloc, a, b.image(way)?)?.count())
}

#[test]
fn a_stop_in_a_compaction_leaves_the_old_list_or_the_new(rt: HostRuntime) -> Result<(), Fail> {
    for fuse in 3..13 {
        let (fault, disks) = compacted(rt.alloc(), TWO, 1, fuse)?;
        let done = fault.is_none();
        for way in [Way::AsRead, Way::Old, Way::Noise] {
            let found = found_on(rt.alloc(), &disks, way)?;
            assert!(rt; found == 1 || found == 2 && !done, "{found} at {fuse}");
        }
    }
    Ok(())
}

#[test]
fn each_compaction_takes_the_other_side_until_it_is_worn(rt: HostRuntime) -> Result<(), Fail> {
    let three = b"\x01CWL\x01\x01\0\0\0\0\0\0\0\0\0\x03\x01\0\0\0\x03new\0".as_slice();
    let worn = b"\x01CWL\x01\x01\0\0\xFF\xFF\xFF\xFF\xFF\xFF\xFF\xFF\0".as_slice();
    for (before, after, fault) in [(TWO, three, None), (worn, worn, Some(CompactFault::Worn))] {
        let (last, disks) = compacted(rt.alloc(), before, 2, u64::MAX)?;
        let is_after = disks.0.bytes() == after;
        drop(disks);
        assert_eq!(rt; last, fault);
        assert!(rt; is_after);
    }
    Ok(())
}

#[test]
fn each_harm_has_its_side(rt: HostRuntime) -> Result<(), Fail> {
    for (a, b, side, harm) in [
        (TWO, TWO, 1, Harm::SameSide),
        (&TWO[..16], TWO, 0, Harm::Header),
        (TWO, &TWO[..9], 1, Harm::Header),
    ] {
        let a = disk_of(rt.alloc(), a, u64::MAX)?;
        let log = pair_of(rt.alloc(), a, disk_of(rt.alloc(), b, u64::MAX)?);
        assert_eq!(rt; log.err(), Some((side, OpenCause::Damaged { at: 0, harm })));
    }
    Ok(())
}
