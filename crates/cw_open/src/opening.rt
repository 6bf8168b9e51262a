//! Opens a log, and reads all of it in the one pass over its file.
ghost use Rattle.std.specs.Prelude.{◌≡◌, IfOk, IfErr};
ghost use Rattle.cw_disk.specs.Told.{Told};
ghost use Rattle.cw_types.specs.Faults.{Rose};
ghost use Rattle.cw_log.specs.Log.{IsDamaged, OnCause, kind_of};
ghost use Rattle.cw_pair.specs.Pair.{IsPairDamaged};
ghost use Rattle.cw_pair.specs.State.{faults_of};
ghost use Rattle.cw_open.specs.OpenedFrom.{PairStays, TopicStays};
ghost use Rattle.cw_open.specs.OpenedLogs.{OpensPair, OpensTopic};

use crate::found::FoundFrames;
use crate::reading::LogFrame;
use cw_disk::Disk;
use cw_log::{BodyLog, Harm, OpenCause, OpenFault, TopicLog};
use cw_pair::{PairFault, PairLog};
use cw_types::LogName;
use std::alloc::Global;

// The most bytes of a log.
const MOST: u64 = 268_435_456;

/// A log on two disks, and what was found in it.
#[derive(Drop)]
pub(crate) struct OpenedPair<D: Disk, A: LogFrame> {
    pub(crate) log: PairLog<D>,
    pub(crate) found: FoundFrames<A>,
}

/// A log on one disk, and what was found in it.
#[derive(Drop)]
pub(crate) struct OpenedTopic<D: Disk, A: LogFrame> {
    pub(crate) log: TopicLog<D>,
    pub(crate) found: FoundFrames<A>,
}

/// Opens the log of this name on two disks. `Damaged` comes just where the files have a harm, and where two disks that
/// tell nothing show another number of bodies or bytes than they then have.
pub(crate) fn open_pair<D: Disk, A: LogFrame>(
    alloc: Global,
    a: D,
    b: D,
    name: LogName,
) -> Result<OpenedPair<D, A>, PairFault<D>>
    ensures opened { IfOk result (OpensPair A.at D.Disk name a b) }
    ensures cause { IfErr result (λ fault. OnCause
        (λ at harm. Told D.Disk a (λ file_a. Told D.Disk b
        (λ file_b. IsPairDamaged (kind_of name) file_a file_b fault.side at harm)))
        (Rose (faults_of D.Disk (record { a = a; b = b }) fault.side)
        (faults_of D.Disk (record { a = fault.a; b = fault.b }) fault.side))
        (Unit {0}) fault.cause) }
    ensures stays { IfErr result (λ fault. PairStays D.Disk name a b (record { a = fault.a; b = fault.b })) }
{
    let mut found = FoundFrames::new(alloc);
    match PairLog::open_with(alloc, a, b, name, MOST, &mut found) {
        Ok(log) => {
            log.rest();
            if !found.counts(log.count(), log.length()) {
                let (a, b) = log.give_back();
                return Err(PairFault {
                    a,
                    b,
                    side: 0,
                    cause: OpenCause::Damaged {
                        at: 0,
                        harm: Harm::Length,
                    },
                });
            }
            Ok(OpenedPair { log, found })
        }
        Err(fault) => Err(fault),
    }
}

/// Opens the log of this name on one disk. `Damaged` comes just where the file has a harm, and where a disk that tells
/// nothing shows another number of bodies or bytes than it then has.
pub(crate) fn open_topic<D: Disk, A: LogFrame>(
    alloc: Global,
    disk: D,
    name: LogName,
) -> Result<OpenedTopic<D, A>, OpenFault<D>>
    ensures opened { IfOk result (OpensTopic A.at D.Disk name disk) }
    ensures cause { IfErr result (λ fault. OnCause
        (λ at harm. Told D.Disk disk (λ file. IsDamaged (kind_of name) file at harm))
        (Rose (D.count disk) (D.count fault.disk))
        (Unit {0}) fault.cause) }
    ensures stays { IfErr result (λ fault. TopicStays D.Disk name disk fault.disk) }
{
    let mut found = FoundFrames::new(alloc);
    match TopicLog::open_with(alloc, disk, name, MOST, &mut found) {
        Ok(log) => {
            log.rest();
            if !found.counts(log.count(), log.length()) {
                return Err(OpenFault {
                    disk: log.give_back(),
                    cause: OpenCause::Damaged {
                        at: 0,
                        harm: Harm::Length,
                    },
                });
            }
            Ok(OpenedTopic { log, found })
        }
        Err(fault) => Err(fault),
    }
}
