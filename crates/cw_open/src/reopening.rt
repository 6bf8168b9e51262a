//! Eight disks, opened as a cluster.
ghost use Rattle.std.specs.Prelude.{◌≡◌, ◌<◌, ◌^◌, IfOk, IfErr, MatchResult, map};
ghost use Rattle.cw_data.specs.Body.{entry_bytes as data_body};
ghost use Rattle.cw_log.specs.Log.{length_of};
ghost use Rattle.cw_model.specs.State.{Cluster as State};
ghost use Rattle.cw_model.specs.Reopening.{stored_of};
ghost use Rattle.cw_model.specs.StandsFor.{AreSound, StandFor, Stored, TellsWhetherFeedsAgree, allowing_of, safety_of};
ghost use Rattle.cw_rows.specs.Opened.{opened_of};
ghost use Rattle.cw_world.specs.Ending.{disks_of as all_disks_of};
ghost use Rattle.cw_world.specs.Logs.{HoldAll};
ghost use Rattle.cw_open.specs.Judged.{AreLogsOf, IsSoundly, IsWhyNot, stored_by};
ghost use Rattle.cw_open.specs.Leaving.{IsNoDamage, IsSameBesidesSides, LeaveLists, StandForLists};
ghost use Rattle.cw_open.specs.Opened.{IsSetBy, logs_in, opened_as, opened_by};
ghost use Rattle.cw_open.specs.OpenedFrom.{AreFrom, DisksStay};
ghost use Rattle.cw_open.specs.Reopened.{DiskFiles, FilesHold, NoneFell, TellAll};
ghost use Rattle.cw_open.specs.declared.reopen_fault.ReopenCause.TheVariants.{Memory};

use crate::agreeing::feeds_agree;
use crate::entries::EntryList;
use crate::frames::FramesRead;
use crate::judged_disks::{JudgedDisks, give_back_logs, judge_disks};
use crate::reopen_fault::{ReopenCause, ReopenFault};
use cw_disk::{Disk, Disks};
use cw_feed::Feeds;
use cw_rows::Cluster;
use cw_topics::{Sides, Topics};
use cw_types::Name;
use cw_world::{Logs, World};
use std::alloc::{AllocError, Global};

/// Opens eight disks as a cluster of this group, with this scheduled delay in milliseconds and these feeds: its state
/// is the one for which the files stand, without workers, at the moment 0. `Damaged` names the first harm, its disk and
/// the place of the gate; `StoreFault` a disk whose count of faults rose, and `Memory` want of memory. With each `Err`
/// the disks come back.
pub fn reopen<D: Disk>(
    alloc: Global,
    disks: Disks<D>,
    feeds: Feeds,
    group: Name,
    delay: u64,
) -> Result<World<D>, ReopenFault<D>>
    // Its state is the one for which its logs stand, and these are what the files hold.
    ensures stands { IfOk result (λ world. StandFor (stored_of world.state) world.state) }
    ensures files { IfOk result (λ world. (files : DiskFiles) → TellAll D.Disk disks files →
        FilesHold files (stored_of world.state)) }
    ensures setting { IfOk result (λ world. IsSetBy group delay feeds world.setting) }
    ensures agreed { IfOk result (λ world. TellsWhetherFeedsAgree world.setting world.state) }

    // The logs hold just this, and are opened from the disks that were handed in.
    ensures logs { IfOk result (λ world. HoldAll D.Disk (stored_of world.state) world.logs) }
    ensures from { IfOk result (λ world. AreFrom D.Disk disks world.logs) }

    // What stands for a state meets no harm, and is opened as that state. So is what a stop leaves of it.
    ensures again { (files : DiskFiles) (stored : Stored) (s : State) → TellAll D.Disk disks files →
        StandForLists files stored → StandFor stored s →
        MatchResult result (λ world. IsSameBesidesSides s world.state) (λ fault. IsNoDamage fault.cause) }
    ensures left { (files : DiskFiles) (stored : Stored) (s : State) → TellAll D.Disk disks files →
        LeaveLists D.Disk disks stored → StandFor stored s →
        MatchResult result (λ world. IsSameBesidesSides s world.state) (λ fault. IsNoDamage fault.cause) }

    // Else why, and the disks come back: a stop left of them what it might have left before, or the same lists.
    ensures cause { IfErr result (IsWhyNot D.Disk disks) }
    ensures stay { IfErr result (λ fault. DisksStay D.Disk disks fault.disks) }

    // No disk's count of faults fell.
    ensures later { MatchResult result (λ world. NoneFell D.Disk disks (all_disks_of world.logs))
        (λ fault. NoneFell D.Disk disks fault.disks) }
{
    match judge_disks(alloc, disks) {
        Ok(judged) => build(alloc, judged, feeds, group, delay),
        Err(fault) => Err(fault),
    }
}

// The world over logs and frames that were judged.
fn build<D: Disk>(
    alloc: Global,
    judged: JudgedDisks<D>,
    feeds: Feeds,
    group: Name,
    delay: u64,
) -> Result<World<D>, ReopenFault<D>>
    requires sound { IsSoundly (stored_by judged) judged.frames }
    requires logs { AreLogsOf D.Disk (stored_by judged) judged }
    ensures state { IfOk result (λ world. world.state ≡ opened_by judged) }
    ensures setting { IfOk result (λ world. IsSetBy group delay feeds world.setting) }
    ensures agreed { IfOk result (λ world. TellsWhetherFeedsAgree world.setting world.state) }
    ensures logs { IfOk result (λ world. world.logs ≡ logs_in judged) }
    ensures memory { IfErr result (λ fault. fault.cause ≡ Memory) }
    ensures disks { IfErr result (λ fault. fault.disks ≡ all_disks_of (logs_in judged)) }
{
    feeds.are_short();
    let sides = Sides {
        config: judged.config.number(),
        offsets: judged.offsets.number(),
        status: judged.status.number(),
    };
    let JudgedDisks {
        config,
        offsets,
        status,
        txn,
        batches,
        frames,
    } = judged;
    match cluster_of(alloc, frames, &sides, feeds, group, delay) {
        Ok(cluster) => Ok(World::new(
            cluster,
            Logs {
                config,
                offsets,
                status,
                txn,
                batches,
            },
        )),
        Err(AllocError) => Err(ReopenFault {
            disks: give_back_logs(config, offsets, status, txn, batches),
            cause: ReopenCause::Memory,
        }),
    }
}

// The cluster in memory over frames that are allowed and safe, which a disk can hold.
fn cluster_of(
    alloc: Global,
    frames: FramesRead,
    sides: &Sides,
    feeds: Feeds,
    group: Name,
    delay: u64,
) -> Result<Cluster, AllocError>
    requires allowed { AreSound (allowing_of frames) }
    requires safe { AreSound (safety_of frames) }
    requires size { length_of (map data_body frames.batches) < 2 ^ 64 }
    ensures state { IfOk result (λ cluster. cluster.state ≡
        opened_as frames sides.now.config sides.now.offsets sides.now.status) }
    ensures setting { IfOk result (λ cluster. IsSetBy group delay feeds cluster.setting) }
    ensures agreed { IfOk result (λ cluster. TellsWhetherFeedsAgree cluster.setting cluster.state) }
{
    let entries = EntryList::of(alloc, frames.entries())?;
    let agreed = feeds_agree(&feeds, &entries, frames.batches())?;
    let topics = topics_of(alloc, frames, sides)?;
    Ok(Cluster::opened(alloc, topics, group, delay, feeds, agreed))
}

// What these frames hold, and what follows from it.
fn topics_of(alloc: Global, frames: FramesRead, sides: &Sides) -> Result<Topics, AllocError>
    requires allowed { AreSound (allowing_of frames) }
    requires safe { AreSound (safety_of frames) }
    requires size { length_of (map data_body frames.batches) < 2 ^ 64 }
    ensures { IfOk result (λ topics. opened_of topics ≡
        opened_as frames sides.now.config sides.now.offsets sides.now.status) }
{
    let FramesRead {
        config,
        offsets,
        status,
        txn,
        batches,
    } = frames;
    Topics::opened(
        alloc,
        config.as_slice(),
        offsets.as_slice(),
        status.as_slice(),
        txn.as_slice(),
        batches,
        sides,
    )
}
