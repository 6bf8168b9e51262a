//! The command `audit`: the disks are opened and judged, and what their logs hold is written.
ghost use Rattle.std.specs.Prelude.{◌≡◌, ◌≤◌, ◌⊎◌, ℕ};
ghost use Rattle.cw_log.specs.declared.fault.Harm.{Harm};
ghost use Rattle.cw_model.specs.StandsFor.{Stored, StandFor};
ghost use Rattle.cw_model.specs.State.{Cluster};
ghost use Rattle.cw_open.specs.Judged.{HasFirstHarm};
ghost use Rattle.cw_open.specs.Leaving.{StandForLists};
ghost use Rattle.cw_open.specs.Reopened.{DiskFiles, FailedAt, NoneFell, TellAll, disk_in};
ghost use Rattle.cw_types.specs.Faults.{Rose};
ghost use Rattle.cw_types.specs.declared.logs.DiskName.{DiskName};
ghost use Rattle.cw_connect.specs.declared.status.Status.TheVariants.{Done, StoreFault, Damaged, ShelfFault};
ghost use Rattle.cw_connect.specs.declared.status.Status.TheVariants.{WriteFault, Memory};
ghost use Rattle.cw_connect.specs.Audited.{IsAudited};
ghost use Rattle.cw_connect.specs.Outcomes.{IsRefusedFor};

use crate::status::Status;
use cw_audit::{Audited, audit};
use cw_disk::{Disk, Disks};
use cw_feed::Feeds;
use cw_io::{Shelf, Sink};
use cw_words::Options;
use std::alloc::Global;

/// What a report leaves.
pub(crate) struct Report<D> {
    /// How the run ends.
    pub(crate) status: Status,
    /// The disks that were handed in.
    pub(crate) disks: Disks<D>,
}

/// Loads the feeds, opens and judges the disks, and writes what their logs hold.
pub(crate) fn open_and_audit<D: Disk, O: Sink, H: Shelf>(
    alloc: Global,
    options: Options,
    disks: Disks<D>,
    output: &mut O,
    shelf: &mut H,
) -> Report<D>
    ensures due { IsAudited D.Disk O.Sink H.Shelf options result.status shelf.old output.old output.new disks
        result.disks }
    ensures damaged_only { (disk : DiskName) (at : ℕ) (harm : Harm) → result.status ≡ Damaged disk at harm →
        (files : DiskFiles) → TellAll D.Disk disks files → HasFirstHarm files disk at harm }
    ensures damaged { (files : DiskFiles) → TellAll D.Disk disks files → (at : DiskName) (place : ℕ) (harm : Harm) →
        HasFirstHarm files at place harm → IsRefusedFor at place harm result.status }
    ensures store_fault { (disk : DiskName) (count : ℕ) → result.status ≡ StoreFault disk count →
        FailedAt D.count disks result.disks disk count }
    ensures shelf_fault { result.status ≡ ShelfFault → Rose (H.faults shelf.old) (H.faults shelf.new) }
    ensures write_fault { result.status ≡ WriteFault → Rose (O.faults output.old) (O.faults output.new) }
    ensures later_out { O.faults output.old ≤ O.faults output.new }
    ensures later_shelf { H.faults shelf.old ≤ H.faults shelf.new }
    ensures later_disks { NoneFell D.Disk disks result.disks }
    ensures complete { (files : DiskFiles) → TellAll D.Disk disks files →
        (stored : Stored) (s : Cluster) → StandForLists files stored → StandFor stored s →
        ¬ Rose (O.faults output.old) (O.faults output.new) → ¬ Rose (H.faults shelf.old) (H.faults shelf.new) →
        ((disk : DiskName) → ¬ Rose (D.count (disk_in disk disks)) (D.count (disk_in disk result.disks))) →
        (result.status ≡ Done) ⊎ (result.status ≡ Memory) }
{
    match Feeds::load(alloc, shelf) {
        Ok(feeds) => {
            let Audited { end, disks } = audit(alloc, disks, &feeds, &options.group, output);
            Report {
                status: Status::of_audit(end),
                disks,
            }
        }
        Err(fault) => Report {
            status: Status::of_shelf(fault),
            disks,
        },
    }
}
