//! Opening a cluster for a script: its feeds are loaded, and then its disks are opened.
ghost use Rattle.std.specs.Prelude.{◌≡◌, ◌≤◌, ℕ, IfOk, IfErr, MatchResult};
ghost use Rattle.std.specs.List.{AllByRecursion};
ghost use Rattle.cw_log.specs.declared.fault.Harm.{Harm};
ghost use Rattle.cw_open.specs.Judged.{HasFirstHarm, IsWhyNot};
ghost use Rattle.cw_open.specs.Opened.{IsSetBy};
ghost use Rattle.cw_open.specs.OpenedFrom.{AreFrom, DisksStay};
ghost use Rattle.cw_open.specs.Reopened.{DiskFiles, FailedAt, NoneFell, TellAll};
ghost use Rattle.cw_types.specs.Faults.{Rose};
ghost use Rattle.cw_types.specs.Name.{IsName};
ghost use Rattle.cw_types.specs.declared.logs.DiskName.{DiskName};
ghost use Rattle.cw_world.specs.Ending.{disks_of};
ghost use Rattle.cw_run.specs.Reaches.{HaveNames};
ghost use Rattle.cw_cluster.specs.Breaking.{IsAlive, tell_all};
ghost use Rattle.cw_connect.specs.declared.status.Status.TheVariants.{StoreFault, Damaged, ShelfFault};
ghost use Rattle.cw_connect.specs.Opening.{IsSetFor, IsOpenedFrom};
ghost use Rattle.cw_connect.specs.Outcomes.{Leaves};

use crate::status::Status;
use cw_disk::{Disk, Disks};
use cw_feed::Feeds;
use cw_io::Shelf;
use cw_open::{ReopenFault, reopen};
use cw_types::Name;
use cw_words::Options;
use cw_world::World;
use std::alloc::Global;

/// The disks of a cluster that was not opened, and how the run ends by it.
#[derive(Drop)]
pub(crate) struct Refusal<D> {
    /// The disks that were handed in.
    pub(crate) disks: Disks<D>,
    /// How the run ends.
    pub(crate) status: Status,
}

/// Opens the cluster that the words ask for. The feeds are loaded first; where that fails the disks aren't touched.
pub(crate) fn open_cluster<D: Disk, H: Shelf>(
    alloc: Global,
    options: Options,
    disks: Disks<D>,
    shelf: &mut H,
) -> Result<World<D>, Refusal<D>>
    ensures alive { IfOk result (IsAlive D.Disk) }
    ensures set { IfOk result (λ world. IsSetFor H.Shelf options shelf.old world.setting) }
    ensures from { IfOk result (λ world.
        IsOpenedFrom D.Disk disks world.setting world.state (tell_all D.Disk world.logs)) }
    ensures logs { IfOk result (λ world. AreFrom D.Disk disks world.logs) }
    ensures left { IfErr result (λ refusal. Leaves D.Disk refusal.status disks refusal.disks) }

    // Why it was not opened.
    ensures shelf { IfErr result (λ refusal. refusal.status ≡ ShelfFault →
        Rose (H.faults shelf.old) (H.faults shelf.new)) }
    ensures store { IfErr result (λ refusal. (disk : DiskName) (count : ℕ) → refusal.status ≡ StoreFault disk count →
        FailedAt D.count disks refusal.disks disk count) }
    ensures damaged { IfErr result (λ refusal. (disk : DiskName) (at : ℕ) (harm : Harm) →
        refusal.status ≡ Damaged disk at harm → (files : DiskFiles) → TellAll D.Disk disks files →
        HasFirstHarm files disk at harm) }
    ensures later_shelf { H.faults shelf.old ≤ H.faults shelf.new }
    ensures later_disks { MatchResult result (λ world. NoneFell D.Disk disks (disks_of world.logs))
        (λ refusal. NoneFell D.Disk disks refusal.disks) }
{
    match Feeds::load(alloc, shelf) {
        Ok(feeds) => match open_disks(alloc, options, disks, feeds) {
            Ok(world) => Ok(world),
            Err(fault) => Err(Refusal {
                disks: fault.disks,
                status: Status::of_cause(fault.cause),
            }),
        },
        Err(fault) => Err(Refusal {
            disks,
            status: Status::of_shelf(fault),
        }),
    }
}

// Opens the disks, with these feeds.
fn open_disks<D: Disk>(
    alloc: Global,
    options: Options,
    disks: Disks<D>,
    feeds: Feeds,
) -> Result<World<D>, ReopenFault<D>>
    ensures alive { IfOk result (IsAlive D.Disk) }
    ensures set { IfOk result (λ world. IsSetBy options.group options.delay feeds world.setting) }
    ensures names { IfOk result (λ world. HaveNames world.setting) }
    ensures from { IfOk result (λ world.
        IsOpenedFrom D.Disk disks world.setting world.state (tell_all D.Disk world.logs)) }
    ensures logs { IfOk result (λ world. AreFrom D.Disk disks world.logs) }
    ensures cause { IfErr result (IsWhyNot D.Disk disks) }
    ensures left { IfErr result (λ fault. DisksStay D.Disk disks fault.disks) }
    ensures later { MatchResult result (λ world. NoneFell D.Disk disks (disks_of world.logs))
        (λ fault. NoneFell D.Disk disks fault.disks) }
{
    are_names(feeds.names());
    let Options { group, delay } = options;
    match reopen(alloc, disks, feeds, group, delay) {
        Ok(world) => {
            world.is_safe();
            Ok(world)
        }
        Err(fault) => Err(fault),
    }
}

// The law of every list of names: each is one.
fn are_names(names: &[Name])
    ensures { AllByRecursion IsName names.now }
{
    for name in names {
        let _ = name.as_bytes();
    }
}
