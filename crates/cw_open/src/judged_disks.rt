//! Eight disks, opened and judged.
ghost use Rattle.std.specs.Prelude.{◌≡◌, IfOk, IfErr};
ghost use Rattle.cw_model.specs.StandsFor.{Stored};
ghost use Rattle.cw_world.specs.Ending.{disks_of as all_disks_of};
ghost use Rattle.cw_world.specs.Logs.{logs_of, disk_of};
ghost use Rattle.cw_open.specs.Contents.{SaysWhatIsRead, frames_of, gates_of, logs_read};
ghost use Rattle.cw_open.specs.Judged.{AreFoundInSome, AreLogsOf, IsMetOn, IsSoundly, IsWhyNot, SaysMet, judged_of};
ghost use Rattle.cw_open.specs.Judged.{side_in, stored_by};
ghost use Rattle.cw_open.specs.Opened.{logs_in};
ghost use Rattle.cw_open.specs.OpenedFrom.{AreFrom, DisksStay};
ghost use Rattle.cw_open.specs.Reopened.{DiskFiles, FilesHold, OnReopenCause, TellAll};

use crate::contents::{ReadDisks, Unreadable, read_disks};
use crate::first_harm::{FirstHarm, judge};
use crate::frames::FramesRead;
use crate::gates::Gates;
use crate::opening::{OpenedPair, OpenedTopic};
use crate::read_logs::{ReadLogs, disk_of};
use crate::reopen_fault::{ReopenCause, ReopenFault};
use cw_disk::{Disk, Disks};
use cw_log::{Harm, TopicLog};
use cw_pair::PairLog;
use cw_types::{DiskName, LogName};
use std::alloc::{AllocError, Global};

/// The five logs of eight disks, and their frames: each is allowed at its place, and safe.
#[derive(Drop)]
pub struct JudgedDisks<D: Disk> {
    /// The config log.
    pub config: PairLog<D>,
    /// The offset log.
    pub offsets: PairLog<D>,
    /// The status log.
    pub status: PairLog<D>,
    /// The transaction log.
    pub txn: TopicLog<D>,
    /// The data log.
    pub batches: TopicLog<D>,
    /// What they hold, read.
    pub frames: FramesRead,
}

/// A harm of a frame, and where its gate stands.
#[derive(Clone, Copy, Drop)]
pub(crate) struct FrameHarm {
    pub(crate) log: LogName,
    pub(crate) at: u64,
    pub(crate) harm: Harm,
}

/// Opens the five logs of eight disks in their order, reads all of them and judges all frames. The first harm is that
/// of the first log whose files have one; else the first body that can't be read, then the first frame that isn't
/// allowed, both Content, then the first that isn't safe: of a frame the disk is that of its log's chosen side, and
/// the place that of its gate. With each `Err` the disks come back.
pub fn judge_disks<D: Disk>(
    alloc: Global,
    disks: Disks<D>,
) -> Result<JudgedDisks<D>, ReopenFault<D>>
    ensures sound { IfOk result (λ judged. IsSoundly (stored_by judged) judged.frames) }
    ensures logs { IfOk result (λ judged. AreLogsOf D.Disk (stored_by judged) judged) }
    ensures from { IfOk result (λ judged. AreFrom D.Disk disks (logs_in judged)) }
    ensures files { IfOk result (λ judged. (files : DiskFiles) → TellAll D.Disk disks files →
        FilesHold files (stored_by judged)) }
    ensures cause { IfErr result (IsWhyNot D.Disk disks) }
    ensures stay { IfErr result (λ fault. DisksStay D.Disk disks fault.disks) }
{
    match read_disks(alloc, disks) {
        Ok(read) => judge_read(alloc, read),
        Err(fault) => Err(fault),
    }
}

// Judges what was read.
fn judge_read<D: Disk>(alloc: Global, read: ReadDisks<D>) -> Result<JudgedDisks<D>, ReopenFault<D>>
    ensures same { IfOk result (λ judged. judged ≡ judged_of read.logs) }
    ensures found { IfOk result (λ _. AreFoundInSome read.logs) }
    ensures sound { IfOk result (λ judged. (stored : Stored) →
        SaysWhatIsRead (frames_of read.logs) (gates_of read.logs) stored read.unreadable →
        SaysMet stored (frames_of read.logs) None) }
    ensures cause { IfErr result (λ fault. OnReopenCause
        (λ at place harm. (stored : Stored) →
        SaysWhatIsRead (frames_of read.logs) (gates_of read.logs) stored read.unreadable →
        IsMetOn (judged_of read.logs) stored at place harm)
        (λ at count. ⊥) (Unit {0}) fault.cause) }
    ensures disks { IfErr result (λ fault. fault.disks ≡ all_disks_of (logs_read read.logs)) }
{
    let ReadDisks { logs, unreadable } = read;
    let (judged, gates) = split(logs);
    match first_met(alloc, &judged.frames, &gates, unreadable) {
        Ok(None) => Ok(judged),
        Ok(Some(met)) => {
            let disk = chosen_disk(&judged, met.log);
            Err(ReopenFault {
                disks: give_back(judged),
                cause: ReopenCause::Damaged {
                    disk,
                    at: met.at,
                    harm: met.harm,
                },
            })
        }
        Err(AllocError) => Err(ReopenFault {
            disks: give_back(judged),
            cause: ReopenCause::Memory,
        }),
    }
}

// The logs and their frames, and where the gates of these stand.
fn split<D: Disk>(logs: ReadLogs<D>) -> (JudgedDisks<D>, Gates)
    ensures judged { result.0 ≡ judged_of logs }
    ensures gates { result.1 ≡ gates_of logs }
    ensures found { AreFoundInSome logs }
{
    let ReadLogs {
        config,
        offsets,
        status,
        txn,
        batches,
    } = logs;
    let OpenedPair { log: config, found } = config;
    let (config_frames, config_gates) = found.into_parts();
    let OpenedPair {
        log: offsets,
        found,
    } = offsets;
    let (offsets_frames, offsets_gates) = found.into_parts();
    let OpenedPair { log: status, found } = status;
    let (status_frames, status_gates) = found.into_parts();
    let OpenedTopic { log: txn, found } = txn;
    let (txn_frames, txn_gates) = found.into_parts();
    let OpenedTopic {
        log: batches,
        found,
    } = batches;
    let (batches_frames, batches_gates) = found.into_parts();
    let frames = FramesRead::new(
        config_frames,
        offsets_frames,
        status_frames,
        txn_frames,
        batches_frames,
    );
    let judged = JudgedDisks {
        config,
        offsets,
        status,
        txn,
        batches,
        frames,
    };
    let gates = Gates {
        config: config_gates,
        offsets: offsets_gates,
        status: status_gates,
        txn: txn_gates,
        batches: batches_gates,
    };
    (judged, gates)
}

// The first harm of what was read, if there is one.
fn first_met(
    alloc: Global,
    frames: &FramesRead,
    gates: &Gates,
    unreadable: Option<Unreadable>,
) -> Result<Option<FrameHarm>, AllocError>
    ensures { IfOk result (λ met. (stored : Stored) → SaysWhatIsRead frames.now gates.now stored unreadable →
        SaysMet stored frames.now met) }
{
    if let Some(unread) = unreadable {
        return Ok(Some(FrameHarm {
            log: unread.log,
            at: unread.at,
            harm: Harm::Content,
        }));
    }
    match judge(alloc, frames)? {
        Some(FirstHarm::NotAllowed(place)) => Ok(Some(FrameHarm {
            log: place.log,
            at: gates.place(place.log, place.at),
            harm: Harm::Content,
        })),
        Some(FirstHarm::Unsafe(place)) => Ok(Some(FrameHarm {
            log: place.log,
            at: gates.place(place.log, place.at),
            harm: Harm::Unsafe,
        })),
        None => Ok(None),
    }
}

// The disk of a log's chosen side.
fn chosen_disk<D: Disk>(judged: &JudgedDisks<D>, log: LogName) -> DiskName
    ensures { result ≡ disk_of log (side_in log judged.now) }
{
    match log {
        LogName::Config => disk_of(log, judged.config.side()),
        LogName::Offsets => disk_of(log, judged.offsets.side()),
        LogName::Status => disk_of(log, judged.status.side()),
        LogName::Txn => DiskName::Txn,
        LogName::Batches => DiskName::Batches,
    }
}

// The disks of the logs.
fn give_back<D: Disk>(judged: JudgedDisks<D>) -> Disks<D>
    ensures { result ≡ all_disks_of (logs_in judged) }
{
    give_back_logs(
        judged.config,
        judged.offsets,
        judged.status,
        judged.txn,
        judged.batches,
    )
}

/// The disks of these logs.
pub(crate) fn give_back_logs<D: Disk>(
    config: PairLog<D>,
    offsets: PairLog<D>,
    status: PairLog<D>,
    txn: TopicLog<D>,
    batches: TopicLog<D>,
) -> Disks<D>
    ensures { result ≡ all_disks_of (logs_of config offsets status txn batches) }
{
    let (config_a, config_b) = config.give_back();
    let (offsets_a, offsets_b) = offsets.give_back();
    let (status_a, status_b) = status.give_back();
    Disks {
        config_a,
        config_b,
        offsets_a,
        offsets_b,
        status_a,
        status_b,
        txn: txn.give_back(),
        batches: batches.give_back(),
    }
}
