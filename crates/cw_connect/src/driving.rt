//! The command `drive`: a cluster is opened, and the script is played over it.
ghost use Rattle.std.specs.Prelude.{◌≡◌, ◌≤◌, ℕ, [], Some};
ghost use Rattle.cw_log.specs.declared.fault.Harm.{Harm};
ghost use Rattle.cw_open.specs.Judged.{HasFirstHarm};
ghost use Rattle.cw_open.specs.Reopened.{DiskFiles, FailedAt, NoneFell, TellAll};
ghost use Rattle.cw_types.specs.Faults.{Rose};
ghost use Rattle.cw_types.specs.declared.logs.DiskName.{DiskName};
ghost use Rattle.cw_connect.specs.declared.status.Status.TheVariants.{Done, Usage, ReadFault, WriteFault, StoreFault};
ghost use Rattle.cw_connect.specs.declared.status.Status.TheVariants.{Damaged, ShelfFault, OutletFault, NetFault};
ghost use Rattle.cw_connect.specs.Making.{AreMade, AreUnmade};
ghost use Rattle.cw_connect.specs.Outcomes.{IsRun};

use crate::opening::open_cluster;
use crate::status::Status;
use cw_cluster::{Driven, drive};
use cw_disk::{Disk, Disks};
use cw_io::{Outlet, Shelf, Sink, Source};
use cw_words::Options;
use std::alloc::Global;

/// What a script that was played leaves.
pub(crate) struct Played<D, U> {
    /// How the run ends.
    pub(crate) status: Status,
    /// The disks that were handed in.
    pub(crate) disks: Disks<D>,
    /// The outlet that was handed in.
    pub(crate) outlet: U,
}

/// Opens the cluster, and plays the script over it.
pub(crate) fn open_and_drive<D: Disk, I: Source, O: Sink, H: Shelf, U: Outlet>(
    alloc: Global,
    options: Options,
    disks: Disks<D>,
    input: &mut I,
    output: &mut O,
    shelf: &mut H,
    outlet: U,
) -> Played<D, U>
    ensures runs { IsRun D.Disk I.Source O.Sink H.Shelf U.Outlet options result.status shelf.old input.old input.new
        output.old output.new disks result.disks outlet result.outlet }
    ensures makes { I.left input.old ≡ Some [] → result.status ≡ Done → (files : DiskFiles) →
        TellAll D.Disk disks files → AreUnmade files → AreMade D.Disk files result.disks }
    ensures never_usage { ¬ (result.status ≡ Usage) }
    ensures never_net { ¬ (result.status ≡ NetFault) }
    ensures damaged_only { (disk : DiskName) (at : ℕ) (harm : Harm) → result.status ≡ Damaged disk at harm →
        (files : DiskFiles) → TellAll D.Disk disks files → HasFirstHarm files disk at harm }
    ensures store_fault { (disk : DiskName) (count : ℕ) → result.status ≡ StoreFault disk count →
        FailedAt D.count disks result.disks disk count }
    ensures shelf_fault { result.status ≡ ShelfFault → Rose (H.faults shelf.old) (H.faults shelf.new) }
    ensures outlet_fault { result.status ≡ OutletFault → Rose (U.faults outlet) (U.faults result.outlet) }
    ensures read_fault { result.status ≡ ReadFault → Rose (I.faults input.old) (I.faults input.new) }
    ensures write_fault { result.status ≡ WriteFault → Rose (O.faults output.old) (O.faults output.new) }
    ensures later_in { I.faults input.old ≤ I.faults input.new }
    ensures later_out { O.faults output.old ≤ O.faults output.new }
    ensures later_shelf { H.faults shelf.old ≤ H.faults shelf.new }
    ensures later_outlet { U.faults outlet ≤ U.faults result.outlet }
    ensures later_disks { NoneFell D.Disk disks result.disks }
{
    match open_cluster(alloc, options, disks, shelf) {
        Ok(world) => {
            let Driven { end, disks, outlet } = drive(alloc, world, outlet, input, output);
            Played {
                status: Status::of_end(end),
                disks,
                outlet,
            }
        }
        Err(refusal) => Played {
            status: refusal.status,
            disks: refusal.disks,
            outlet,
        },
    }
}
