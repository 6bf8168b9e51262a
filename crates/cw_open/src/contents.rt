//! Whether all bodies of the logs can be read.
ghost use Rattle.std.specs.Prelude.{◌≡◌, Some, IfOk, IfErr};
ghost use Rattle.cw_model.specs.StandsFor.{Stored};
ghost use Rattle.cw_open.specs.Contents.{AreFoundIn, AreReadLogs, IsFoundOf, SaysWhatIsRead, frames_of, gates_of};
ghost use Rattle.cw_open.specs.Contents.{logs_read};
ghost use Rattle.cw_open.specs.OpenedFrom.{AreFrom, DisksStay};
ghost use Rattle.cw_open.specs.Reopened.{CauseFrom, DiskFiles, TellAll, all_logs};

use crate::read_logs::{ReadLogs, open_logs};
use crate::reopen_fault::ReopenFault;
use cw_disk::{Disk, Disks};
use cw_types::LogName;
use std::alloc::Global;

/// A body that can't be read.
#[derive(Clone, Copy, Drop)]
pub(crate) struct Unreadable {
    /// Its log.
    pub(crate) log: LogName,
    /// The place of its frame's gate.
    pub(crate) at: u64,
}

/// The five logs of eight disks, opened and read, and the first body of all that can't be read, if there is one.
#[derive(Drop)]
pub(crate) struct ReadDisks<D: Disk> {
    pub(crate) logs: ReadLogs<D>,
    pub(crate) unreadable: Option<Unreadable>,
}

/// Opens the logs of eight disks and reads all of them. What was found is what the files hold, where the disks tell
/// them.
pub(crate) fn read_disks<D: Disk>(
    alloc: Global,
    disks: Disks<D>,
) -> Result<ReadDisks<D>, ReopenFault<D>>
    ensures files { IfOk result (λ read. (files : DiskFiles) → TellAll D.Disk disks files → IsFoundOf files read.logs) }
    ensures what { IfOk result (λ read. (stored : Stored) → AreFoundIn read.logs stored →
        SaysWhatIsRead (frames_of read.logs) (gates_of read.logs) stored read.unreadable) }
    ensures logs { IfOk result (λ read. AreReadLogs D.Disk read.logs) }
    ensures from { IfOk result (λ read. AreFrom D.Disk disks (logs_read read.logs)) }
    ensures cause { IfErr result (CauseFrom D.Disk all_logs disks) }
    ensures stay { IfErr result (λ fault. DisksStay D.Disk disks fault.disks) }
{
    match open_logs(alloc, disks) {
        Ok(logs) => {
            let unreadable = first_unreadable(&logs);
            Ok(ReadDisks { logs, unreadable })
        }
        Err(fault) => Err(fault),
    }
}

/// The first body of all logs, in their order, that can't be read.
pub(crate) fn first_unreadable<D: Disk>(logs: &ReadLogs<D>) -> Option<Unreadable>
    ensures { (stored : Stored) → AreFoundIn logs.now stored →
        SaysWhatIsRead (frames_of logs.now) (gates_of logs.now) stored result }
{
    if let Some(at) = logs.config.found.unread() {
        return found_at(LogName::Config, at);
    }
    if let Some(at) = logs.offsets.found.unread() {
        return found_at(LogName::Offsets, at);
    }
    if let Some(at) = logs.status.found.unread() {
        return found_at(LogName::Status, at);
    }
    if let Some(at) = logs.txn.found.unread() {
        return found_at(LogName::Txn, at);
    }
    if let Some(at) = logs.batches.found.unread() {
        return found_at(LogName::Batches, at);
    }
    None
}

fn found_at(log: LogName, at: u64) -> Option<Unreadable>
    ensures { result ≡ Some (record { log = log; at = at }) }
{
    Some(Unreadable { log, at })
}
