//! The audit of the log that two directives of a script leave.
use cw_audit::{AuditEnd, audit};
use cw_disk::{Disks, MemDisk};
use cw_feed::Feeds;
use cw_io::{MemShelf, MemSink};
use cw_types::Name;
use std::alloc::Global;
use std::test::Fail;

// `init 0` and `commit 0 1 0 5`.
const TXN: &[u8] = b"\x01CWL\x01\x04\0\0\0\0\0\0\0\0\0\x01\
\x01\0\0\0\x0a\0\0\0\x01\x01\x03\0\0\0\0\
\x01\0\0\0\x3b\0\0\0\x01\x02\x03\0\0\0\0\0\0\0\0\0\0\0\x01\0\0\0\0\0\0\0\x01\0\0\0\0\0\0\0\0\
\0\0\0\x01\x01\0\0\0\0\0\0\0\0\0\0\0\0\0\0\0\0\0\0\0\x05\0";

const REPORT: &[u8] = b"log config frames 0 bytes 17\nlog offsets frames 0 bytes 17\n\
log status frames 0 bytes 17\nlog transactions frames 2 bytes 96\nlog batches frames 0 bytes 17\n\
tid raw-0 epoch 1\nfeeds agree\n";

fn disks(alloc: Global) -> Result<Disks<MemDisk>, Fail> {
    Ok(Disks {
        config_a: MemDisk::empty(alloc),
        config_b: MemDisk::empty(alloc),
        offsets_a: MemDisk::empty(alloc),
        offsets_b: MemDisk::empty(alloc),
        status_a: MemDisk::empty(alloc),
        status_b: MemDisk::empty(alloc),
        txn: MemDisk::new(alloc, TXN.to_vec(alloc)?, Vec::new(alloc), u64::MAX)?,
        batches: MemDisk::empty(alloc),
    })
}

// The feeds of a shelf that has none.
fn no_feeds(alloc: Global) -> Result<Feeds, Fail> {
    let mut shelf = MemShelf::new(alloc, Vec::new(alloc));
    Ok(Feeds::load(alloc, &mut shelf)?)
}

// How an audit ends over an output.
fn audit_over(alloc: Global, output: &mut MemSink) -> Result<AuditEnd, Fail> {
    let feeds = no_feeds(alloc)?;
    let group = Name::read(alloc, b"g")?;
    Ok(audit(alloc, disks(alloc)?, &feeds, &group, output).end)
}

// How an audit ends over an output that takes 7 bytes a call and fails at some, and what it wrote.
fn audited(alloc: Global, failing: Vec<u64>) -> Result<(AuditEnd, MemSink), Fail> {
    let mut output = MemSink::new(alloc, 7, failing);
    let end = audit_over(alloc, &mut output)?;
    Ok((end, output))
}

#[test]
fn whole_report_is_printed(rt: HostRuntime) -> Result<(), Fail> {
    let (end, output) = audited(rt.alloc(), Vec::new(rt.alloc()))?;
    assert_eq!(rt; end, AuditEnd::Done);
    assert_eq!(rt; output.bytes(), REPORT);
    Ok(())
}

#[test]
fn output_fails_on_the_way(rt: HostRuntime) -> Result<(), Fail> {
    let failing = vec![in rt.alloc(); 2]?;
    let (end, output) = audited(rt.alloc(), failing)?;
    assert_eq!(rt; end, AuditEnd::WriteFault);
    assert_eq!(rt; output.bytes(), b"log config fra".as_slice());
    Ok(())
}
