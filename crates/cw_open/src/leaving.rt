//! Laws of what a stop leaves: it opens again, as the state that it stands for.
ghost use Rattle.std.specs.Prelude.{ℕ, IsSome};
ghost use Rattle.cw_types.specs.declared.logs.LogName.{LogName};
ghost use Rattle.cw_disk.specs.declared.disks.Disks.{Disks};
ghost use Rattle.cw_types.specs.declared.logs.DiskName.{DiskName};
ghost use Rattle.cw_log.specs.declared.fault.Harm.{Harm};
ghost use Rattle.cw_model.specs.State.{Cluster};
ghost use Rattle.cw_model.specs.StandsFor.{Stored, StandFor};
ghost use Rattle.cw_world.specs.Ending.{LeaveStored};
ghost use Rattle.cw_world.specs.Logs.{LogsState, view_in};
ghost use Rattle.cw_open.specs.Judged.{HasFirstHarm};
ghost use Rattle.cw_open.specs.Leaving.{HaveKinds, IsSameBesidesSides, LeaveLists, StandForLists};
ghost use Rattle.cw_open.specs.Reopened.{DiskFiles};

use cw_disk::Disk;

/// Eight files stand for one state at most, but for the numbers of its sides; and where they stand for one, they have
/// no harm.
pub fn files_open_one_way()
    ensures state { (files : DiskFiles) (stored other : Stored) (s t : Cluster) → StandForLists files stored →
        StandFor stored s → StandForLists files other → StandFor other t → IsSameBesidesSides s t }
    ensures harm { (files : DiskFiles) (stored : Stored) (s : Cluster) (at : DiskName) (place : ℕ) (harm : Harm) →
        StandForLists files stored → StandFor stored s → ¬ HasFirstHarm files at place harm }
{}

/// A stop leaves of the disks of a world that was given back just files that stand for what was stored, where its logs
/// have their kinds and tell their lists.
pub fn given_disks_leave_what_was_stored<D: Disk>()
    ensures { (logs : LogsState D) (disks : Disks D) (stored : Stored) → HaveKinds logs →
        ((log : LogName) → IsSome (view_in D.Disk log logs).bodies) → LeaveStored D.Disk stored logs disks →
        LeaveLists D.Disk disks stored }
{}
