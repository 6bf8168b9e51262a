//! Opens the eight disks of a cluster, log after log, and reads all of them.
ghost use Rattle.std.specs.Prelude.{◌≡◌, ◌∷◌, [], IfOk, IfErr};
ghost use Rattle.cw_types.specs.declared.logs.LogName.TheVariants as log;
ghost use Rattle.cw_pair.specs.State.{disks_of, faults_of};
ghost use Rattle.cw_bytes.specs.Reading.{records_at};
ghost use Rattle.cw_offset.specs.BodyReading.{entry_at as stored_at};
ghost use Rattle.cw_data.specs.BodyReading.{entry_at as data_at};
ghost use Rattle.cw_txn.specs.BodyReading.{entries_at};
ghost use Rattle.cw_disk.specs.declared.disks.Disks.{Disks};
ghost use Rattle.cw_open.specs.OpenedFrom.{DisksStay, PairStays, TopicStays};
ghost use Rattle.cw_open.specs.OpenedLogs.{OpensPair, OpensTopic};
ghost use Rattle.cw_open.specs.Reopened.{CauseFrom, OnReopenCause};
ghost use Rattle.cw_log.specs.declared.fault.OpenCause.TheVariants.{Damaged, Failed, Memory};
ghost use Rattle.cw_world.specs.Logs.{disk_of};

use crate::opening::{OpenedPair, OpenedTopic, open_pair, open_topic};
use crate::reopen_fault::{ReopenCause, ReopenFault};
use cw_bytes::Applied;
use cw_data::DataEntry;
use cw_disk::{Disk, Disks};
use cw_log::{OpenCause, OpenFault};
use cw_offset::OffsetEntry;
use cw_pair::PairFault;
use cw_txn::Entry;
use cw_types::{DiskName, Listed, LogName};
use std::alloc::Global;

/// The five logs, opened, and what was found in each.
#[derive(Drop)]
pub(crate) struct ReadLogs<D: Disk> {
    pub(crate) config: OpenedPair<D, Listed<Applied>>,
    pub(crate) offsets: OpenedPair<D, OffsetEntry>,
    pub(crate) status: OpenedPair<D, Listed<Applied>>,
    pub(crate) txn: OpenedTopic<D, Listed<Entry>>,
    pub(crate) batches: OpenedTopic<D, DataEntry>,
}

/// The disk of a side of a log: 0 is side a, any other is side b.
pub(crate) fn disk_of(name: LogName, side: u8) -> DiskName
    ensures { result ≡ disk_of name side }
{
    match name {
        LogName::Config if side == 0 => DiskName::ConfigA,
        LogName::Config => DiskName::ConfigB,
        LogName::Offsets if side == 0 => DiskName::OffsetsA,
        LogName::Offsets => DiskName::OffsetsB,
        LogName::Status if side == 0 => DiskName::StatusA,
        LogName::Status => DiskName::StatusB,
        LogName::Txn => DiskName::Txn,
        LogName::Batches => DiskName::Batches,
    }
}

// Why a pair isn't opened.
fn cause_of_pair<D: Disk>(name: LogName, fault: &PairFault<D>) -> ReopenCause
    ensures { OnReopenCause
        (λ at place harm. (at ≡ disk_of name fault.now.side) × (fault.now.cause ≡ Damaged place harm))
        (λ at count. (at ≡ disk_of name fault.now.side) × (fault.now.cause ≡ Failed) ×
        (count ≡ faults_of D.Disk (record { a = fault.now.a; b = fault.now.b }) fault.now.side))
        (fault.now.cause ≡ Memory) result }
{
    let disk = disk_of(name, fault.side);
    match fault.cause {
        OpenCause::Damaged { at, harm } => ReopenCause::Damaged { disk, at, harm },
        OpenCause::Failed => ReopenCause::StoreFault {
            disk,
            count: count_of(fault),
        },
        OpenCause::Memory => ReopenCause::Memory,
    }
}

// The count of faults of the side that is at fault.
fn count_of<D: Disk>(fault: &PairFault<D>) -> u64
    ensures { result ≡ faults_of D.Disk (record { a = fault.now.a; b = fault.now.b }) fault.now.side }
{
    if fault.side == 0 {
        return fault.a.faults();
    }
    fault.b.faults()
}

// Why a log on one disk isn't opened.
fn cause_of_topic<D: Disk>(name: LogName, fault: &OpenFault<D>) -> ReopenCause
    ensures { OnReopenCause
        (λ at place harm. (at ≡ disk_of name 0) × (fault.now.cause ≡ Damaged place harm))
        (λ at count. (at ≡ disk_of name 0) × (fault.now.cause ≡ Failed) × (count ≡ D.count fault.now.disk))
        (fault.now.cause ≡ Memory) result }
{
    let disk = disk_of(name, 0);
    match fault.cause {
        OpenCause::Damaged { at, harm } => ReopenCause::Damaged { disk, at, harm },
        OpenCause::Failed => ReopenCause::StoreFault {
            disk,
            count: fault.disk.faults(),
        },
        OpenCause::Memory => ReopenCause::Memory,
    }
}

/// Opens the five logs of eight disks in their order, and reads all of them. The first harm of the files themselves is
/// answered at once.
pub(crate) fn open_logs<D: Disk>(
    alloc: Global,
    disks: Disks<D>,
) -> Result<ReadLogs<D>, ReopenFault<D>>
    ensures config { IfOk result (λ logs.
        OpensPair records_at D.Disk log.Config disks.config_a disks.config_b logs.config) }
    ensures offsets { IfOk result (λ logs.
        OpensPair stored_at D.Disk log.Offsets disks.offsets_a disks.offsets_b logs.offsets) }
    ensures status { IfOk result (λ logs.
        OpensPair records_at D.Disk log.Status disks.status_a disks.status_b logs.status) }
    ensures txn { IfOk result (λ logs. OpensTopic entries_at D.Disk log.Txn disks.txn logs.txn) }
    ensures batches { IfOk result (λ logs. OpensTopic data_at D.Disk log.Batches disks.batches logs.batches) }
    ensures cause { IfErr result
        (CauseFrom D.Disk (log.Config ∷ log.Offsets ∷ log.Status ∷ log.Txn ∷ log.Batches ∷ []) disks) }
    ensures stay { IfErr result (λ fault. DisksStay D.Disk disks fault.disks) }
{
    let Disks {
        config_a,
        config_b,
        offsets_a,
        offsets_b,
        status_a,
        status_b,
        txn,
        batches,
    } = disks;
    match open_pair(alloc, config_a, config_b, LogName::Config) {
        Ok(config) => open_offsets(
            alloc, config, offsets_a, offsets_b, status_a, status_b, txn, batches,
        ),
        Err(fault) => {
            let cause = cause_of_pair(LogName::Config, &fault);
            Err(ReopenFault {
                disks: Disks {
                    config_a: fault.a,
                    config_b: fault.b,
                    offsets_a,
                    offsets_b,
                    status_a,
                    status_b,
                    txn,
                    batches,
                },
                cause,
            })
        }
    }
}

// Opens the offset log, and those behind it.
fn open_offsets<D: Disk>(
    alloc: Global,
    config: OpenedPair<D, Listed<Applied>>,
    offsets_a: D,
    offsets_b: D,
    status_a: D,
    status_b: D,
    txn: D,
    batches: D,
) -> Result<ReadLogs<D>, ReopenFault<D>>
    ensures config { IfOk result (λ logs. logs.config ≡ config) }
    ensures offsets { IfOk result (λ logs. OpensPair stored_at D.Disk log.Offsets offsets_a offsets_b logs.offsets) }
    ensures status { IfOk result (λ logs. OpensPair records_at D.Disk log.Status status_a status_b logs.status) }
    ensures txn { IfOk result (λ logs. OpensTopic entries_at D.Disk log.Txn txn logs.txn) }
    ensures batches { IfOk result (λ logs. OpensTopic data_at D.Disk log.Batches batches logs.batches) }
    ensures cause { (all : Disks D) → all.offsets_a ≡ offsets_a → all.offsets_b ≡ offsets_b →
        all.status_a ≡ status_a → all.status_b ≡ status_b → all.txn ≡ txn → all.batches ≡ batches →
        IfErr result (CauseFrom D.Disk (log.Offsets ∷ log.Status ∷ log.Txn ∷ log.Batches ∷ []) all) }
    ensures stay { (all : Disks D) → PairStays D.Disk log.Config all.config_a all.config_b (disks_of config.log) →
        all.offsets_a ≡ offsets_a → all.offsets_b ≡ offsets_b → all.status_a ≡ status_a →
        all.status_b ≡ status_b → all.txn ≡ txn → all.batches ≡ batches →
        IfErr result (λ fault. DisksStay D.Disk all fault.disks) }
{
    match open_pair(alloc, offsets_a, offsets_b, LogName::Offsets) {
        Ok(offsets) => open_status(alloc, config, offsets, status_a, status_b, txn, batches),
        Err(fault) => {
            let cause = cause_of_pair(LogName::Offsets, &fault);
            let (config_a, config_b) = config.log.give_back();
            Err(ReopenFault {
                disks: Disks {
                    config_a,
                    config_b,
                    offsets_a: fault.a,
                    offsets_b: fault.b,
                    status_a,
                    status_b,
                    txn,
                    batches,
                },
                cause,
            })
        }
    }
}

// Opens the status log, and those behind it.
fn open_status<D: Disk>(
    alloc: Global,
    config: OpenedPair<D, Listed<Applied>>,
    offsets: OpenedPair<D, OffsetEntry>,
    status_a: D,
    status_b: D,
    txn: D,
    batches: D,
) -> Result<ReadLogs<D>, ReopenFault<D>>
    ensures config { IfOk result (λ logs. logs.config ≡ config) }
    ensures offsets { IfOk result (λ logs. logs.offsets ≡ offsets) }
    ensures status { IfOk result (λ logs. OpensPair records_at D.Disk log.Status status_a status_b logs.status) }
    ensures txn { IfOk result (λ logs. OpensTopic entries_at D.Disk log.Txn txn logs.txn) }
    ensures batches { IfOk result (λ logs. OpensTopic data_at D.Disk log.Batches batches logs.batches) }
    ensures cause { (all : Disks D) → all.status_a ≡ status_a → all.status_b ≡ status_b → all.txn ≡ txn →
        all.batches ≡ batches →
        IfErr result (CauseFrom D.Disk (log.Status ∷ log.Txn ∷ log.Batches ∷ []) all) }
    ensures stay { (all : Disks D) → PairStays D.Disk log.Config all.config_a all.config_b (disks_of config.log) →
        PairStays D.Disk log.Offsets all.offsets_a all.offsets_b (disks_of offsets.log) →
        all.status_a ≡ status_a → all.status_b ≡ status_b → all.txn ≡ txn → all.batches ≡ batches →
        IfErr result (λ fault. DisksStay D.Disk all fault.disks) }
{
    match open_pair(alloc, status_a, status_b, LogName::Status) {
        Ok(status) => open_txn(alloc, config, offsets, status, txn, batches),
        Err(fault) => {
            let cause = cause_of_pair(LogName::Status, &fault);
            let (config_a, config_b) = config.log.give_back();
            let (offsets_a, offsets_b) = offsets.log.give_back();
            Err(ReopenFault {
                disks: Disks {
                    config_a,
                    config_b,
                    offsets_a,
                    offsets_b,
                    status_a: fault.a,
                    status_b: fault.b,
                    txn,
                    batches,
                },
                cause,
            })
        }
    }
}

// Opens the transaction log, and those behind it.
fn open_txn<D: Disk>(
    alloc: Global,
    config: OpenedPair<D, Listed<Applied>>,
    offsets: OpenedPair<D, OffsetEntry>,
    status: OpenedPair<D, Listed<Applied>>,
    txn: D,
    batches: D,
) -> Result<ReadLogs<D>, ReopenFault<D>>
    ensures config { IfOk result (λ logs. logs.config ≡ config) }
    ensures offsets { IfOk result (λ logs. logs.offsets ≡ offsets) }
    ensures status { IfOk result (λ logs. logs.status ≡ status) }
    ensures txn { IfOk result (λ logs. OpensTopic entries_at D.Disk log.Txn txn logs.txn) }
    ensures batches { IfOk result (λ logs. OpensTopic data_at D.Disk log.Batches batches logs.batches) }
    ensures cause { (all : Disks D) → all.txn ≡ txn → all.batches ≡ batches →
        IfErr result (CauseFrom D.Disk (log.Txn ∷ log.Batches ∷ []) all) }
    ensures stay { (all : Disks D) → PairStays D.Disk log.Config all.config_a all.config_b (disks_of config.log) →
        PairStays D.Disk log.Offsets all.offsets_a all.offsets_b (disks_of offsets.log) →
        PairStays D.Disk log.Status all.status_a all.status_b (disks_of status.log) → all.txn ≡ txn →
        all.batches ≡ batches → IfErr result (λ fault. DisksStay D.Disk all fault.disks) }
{
    match open_topic(alloc, txn, LogName::Txn) {
        Ok(txn) => open_batches(alloc, config, offsets, status, txn, batches),
        Err(fault) => {
            let cause = cause_of_topic(LogName::Txn, &fault);
            let (config_a, config_b) = config.log.give_back();
            let (offsets_a, offsets_b) = offsets.log.give_back();
            let (status_a, status_b) = status.log.give_back();
            Err(ReopenFault {
                disks: Disks {
                    config_a,
                    config_b,
                    offsets_a,
                    offsets_b,
                    status_a,
                    status_b,
                    txn: fault.disk,
                    batches,
                },
                cause,
            })
        }
    }
}

// Opens the data log, and those behind it.
fn open_batches<D: Disk>(
    alloc: Global,
    config: OpenedPair<D, Listed<Applied>>,
    offsets: OpenedPair<D, OffsetEntry>,
    status: OpenedPair<D, Listed<Applied>>,
    txn: OpenedTopic<D, Listed<Entry>>,
    batches: D,
) -> Result<ReadLogs<D>, ReopenFault<D>>
    ensures config { IfOk result (λ logs. logs.config ≡ config) }
    ensures offsets { IfOk result (λ logs. logs.offsets ≡ offsets) }
    ensures status { IfOk result (λ logs. logs.status ≡ status) }
    ensures txn { IfOk result (λ logs. logs.txn ≡ txn) }
    ensures batches { IfOk result (λ logs. OpensTopic data_at D.Disk log.Batches batches logs.batches) }
    ensures cause { (all : Disks D) → all.batches ≡ batches →
        IfErr result (CauseFrom D.Disk (log.Batches ∷ []) all) }
    ensures stay { (all : Disks D) → PairStays D.Disk log.Config all.config_a all.config_b (disks_of config.log) →
        PairStays D.Disk log.Offsets all.offsets_a all.offsets_b (disks_of offsets.log) →
        PairStays D.Disk log.Status all.status_a all.status_b (disks_of status.log) →
        TopicStays D.Disk log.Txn all.txn txn.log.disk → all.batches ≡ batches →
        IfErr result (λ fault. DisksStay D.Disk all fault.disks) }
{
    match open_topic(alloc, batches, LogName::Batches) {
        Ok(batches) => Ok(ReadLogs {
            config,
            offsets,
            status,
            txn,
            batches,
        }),
        Err(fault) => {
            let cause = cause_of_topic(LogName::Batches, &fault);
            let (config_a, config_b) = config.log.give_back();
            let (offsets_a, offsets_b) = offsets.log.give_back();
            let (status_a, status_b) = status.log.give_back();
            Err(ReopenFault {
                disks: Disks {
                    config_a,
                    config_b,
                    offsets_a,
                    offsets_b,
                    status_a,
                    status_b,
                    txn: txn.log.give_back(),
                    batches: fault.disk,
                },
                cause,
            })
        }
    }
}
