//! The one write to a log that all events make.
ghost use Rattle.std.specs.Prelude.{◌≡◌, ◌≤◌, ℕ, List, length};
ghost use Rattle.cw_disk.specs.Disk.{AddsOf};
ghost use Rattle.cw_rows.specs.Writes.{bytes_in};
ghost use Rattle.cw_world.specs.Logs.{IsOpenLog, disk_of, view_of};
ghost use Rattle.cw_world.specs.Write.{IsWrite};

use cw_log::{AppendFault, BodyLog};
use cw_model::WorldFault;
use cw_rows::Cluster;
use cw_types::{DiskName, LogName};

// The most bytes of a body, and of a log.
const MOST: usize = 268_435_456;

// Writes a body to the log of a name: it is appended, or there is no room, or memory is wanting, or a disk fails, which
// ends all writing of the cluster. Want of memory changes nothing.
pub(crate) fn write<L: BodyLog>(
    log: &mut L,
    cluster: &mut Cluster,
    name: LogName,
    body: &[u8],
) -> Result<(), WorldFault>
    requires some { 1 ≤ length body.now }
    requires ready { IsOpenLog (bytes_in name cluster.old.state) (view_of L.BodyLog log.old) }
    ensures { IsWrite name body.now (view_of L.BodyLog log.old) (view_of L.BodyLog log.new)
        (L.faults log.old) (L.faults log.new) (AddsOf L.moment L.stands_since log.old log.new)
        (λ P. (image : L.Image) → L.may_leave log.new image →
        (list : List (List ℕ)) × P list × L.stands_for log.new list image)
        cluster.old cluster.new result }
{
    if body.len() > MOST {
        return Err(WorldFault::Full {
            log: name,
            length: log.length(),
            frame: body.len() as u64 + 5,
        });
    }
    match log.append(body) {
        Ok(_) => Ok(()),
        Err(AppendFault::Full { length, frame }) => Err(WorldFault::Full {
            log: name,
            length,
            frame,
        }),
        Err(AppendFault::Memory) => Err(WorldFault::Memory),
        Err(AppendFault::Failed) => match log.failed() {
            Some((side, count)) => {
                let disk = disk_of(name, side);
                cluster.close(disk, count);
                Err(WorldFault::StoreFault { disk, count })
            }
            None => unreachable!(),
        },
        Err(AppendFault::Shut) => unreachable!(),
    }
}

// The disk of a log's side.
pub(crate) fn disk_of(log: LogName, side: u8) -> DiskName
    ensures { result ≡ disk_of log side }
{
    match log {
        LogName::Config if side == 0 => DiskName::ConfigA,
        LogName::Config => DiskName::ConfigB,
        LogName::Offsets if side == 0 => DiskName::OffsetsA,
        LogName::Offsets => DiskName::OffsetsB,
        LogName::Status if side == 0 => DiskName::StatusA,
        LogName::Status => DiskName::StatusB,
        LogName::Txn => DiskName::Txn,
        LogName::Batches => DiskName::Batches,
    }
}
