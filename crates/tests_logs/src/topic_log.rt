// The bytes of the format, which harm is met where, and a stop in a device call.
use crate::made::disk_of;
use cw_disk::{Disk, MemDisk, Way};
use cw_log::{AppendFault, Harm, OpenCause, TopicLog};
use cw_types::LogName;
use std::alloc::Global;
use std::test::Fail;

// A transaction log with the bodies `xy` and `z`.
const TWO: &[u8] = b"\x01CWL\x01\x04\0\0\0\0\0\0\0\0\0\x01\x01\0\0\0\x02xy\x01\0\0\0\x01z\0";

fn log_of(alloc: Global, disk: MemDisk) -> Result<TopicLog<MemDisk>, OpenCause> {
    TopicLog::open_log(alloc, disk, LogName::Txn, 40).map_err(|fault| fault.cause)
}

#[test]
fn a_log_has_the_bytes_of_the_format(rt: HostRuntime) -> Result<(), Fail> {
    let mut log = log_of(rt.alloc(), MemDisk::empty(rt.alloc()))?;
    assert_eq!(rt; log.append(b"xy"), Ok(0));
    assert_eq!(rt; log.append(b"z"), Ok(1));
    let full = AppendFault::Full {
        length: 30,
        frame: 11,
    };
    assert_eq!(rt; log.append(b"012345"), Err(full));
    if log.count() == 2 {
        assert_eq!(rt; log.read_body(1)?.as_slice(), b"z".as_slice());
    }
    assert_eq!(rt; log.give_back().bytes(), TWO);
    Ok(())
}

// Why the log of the two bodies isn't opened, where the byte at a place is another.
fn cause_at(alloc: Global, at: usize, byte: u8) -> Result<Option<OpenCause>, Fail> {
    let mut bytes = TWO.to_vec(alloc)?;
    if at < bytes.len() {
        bytes[at] = byte;
    }
    Ok(log_of(alloc, disk_of(alloc, &bytes, u64::MAX)?).err())
}

#[test]
fn each_harm_has_its_place(rt: HostRuntime) -> Result<(), Fail> {
    for (at, byte, place, harm) in [
        (7, 1, 0, Harm::Header),
        (3, b'M', 0, Harm::Magic),
        (4, 7, 0, Harm::Version),
        (5, 5, 0, Harm::Kind),
        (20, 0, 16, Harm::Length),
        (27, 9, 23, Harm::Length),
        (29, 9, 29, Harm::Length),
    ] {
        let cause = OpenCause::Damaged { at: place, harm };
        assert_eq!(rt; cause_at(rt.alloc(), at, byte)?, Some(cause));
    }
    Ok(())
}

#[test]
fn a_stop_in_a_call_leaves_the_list_before_or_after(rt: HostRuntime) -> Result<(), Fail> {
    let alloc = rt.alloc();
    for fuse in 6..10 {
        let mut log = log_of(alloc, disk_of(alloc, TWO, fuse)?)?;
        let done = log.append(b"ab").is_ok();
        if !done {
            assert_eq!(rt; log.append(b"c"), Err(AppendFault::Shut));
        }
        let disk = log.give_back();
        assert_eq!(rt; done, disk.faults() == 0);
        for way in [Way::AsRead, Way::Old, Way::Noise] {
            let found = log_of(alloc, disk.image(way)?)?.count();
            assert!(rt; found == 3 || found == 2 && !done, "{found} at {fuse}");
        }
    }
    Ok(())
}
