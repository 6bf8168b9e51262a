//! The audit of eight disks.
ghost use Rattle.std.specs.Prelude.{◌≡◌, ◌≤◌, ◌⊎◌, ◌↔◌, ℕ, IfOk, IsTrue};
ghost use Rattle.cw_bytes.specs.Frames.{joined};
ghost use Rattle.cw_io.specs.Told.{with_back};
ghost use Rattle.cw_log.specs.declared.fault.Harm.{Harm};
ghost use Rattle.cw_model.specs.Committed.{Agrees};
ghost use Rattle.cw_model.specs.State.{Cluster};
ghost use Rattle.cw_model.specs.StandsFor.{Stored, StandFor};
ghost use Rattle.cw_open.specs.Judged.{AreLogsOf, HasFirstHarm, IsSoundly, stored_by};
ghost use Rattle.cw_open.specs.Leaving.{StandForLists};
ghost use Rattle.cw_open.specs.Opened.{logs_in, opened_by};
ghost use Rattle.cw_open.specs.OpenedFrom.{DisksStay};
ghost use Rattle.cw_open.specs.Reopened.{DiskFiles, FailedAt, NoneFell, TellAll, disk_in};
ghost use Rattle.cw_types.specs.Faults.{Rose};
ghost use Rattle.cw_types.specs.declared.logs.DiskName.{DiskName};
ghost use Rattle.cw_world.specs.Ending.{disks_of};
ghost use Rattle.cw_audit.specs.declared.end.AuditEnd.TheVariants.{Done, WriteFault, StoreFault, Damaged, Memory};
ghost use Rattle.cw_audit.specs.Audited.{HasReport, HasReportOf, IsOpen, IsRefused, Writes};

use crate::end::{AuditEnd, Audited};
use crate::printing::report;
use cw_disk::{Disk, Disks};
use cw_feed::Feeds;
use cw_io::{Sink, write_all};
use cw_open::{EntryList, FramesRead, JudgedDisks, feeds_agree, files_open_one_way, judge_disks};
use cw_types::Name;
use std::alloc::{AllocError, Global};

/// Prints what the logs on the disks of a stopped cluster hold, and whether these feeds are those of which its
/// committed records were read. The disks are opened and judged as for any run, which may make or cut a log, and come
/// back at each end.
pub fn audit<D: Disk, O: Sink>(
    alloc: Global,
    disks: Disks<D>,
    feeds: &Feeds,
    group: &Name,
    output: &mut O,
) -> Audited<D>
    // At Done the whole report on the state that the disks held was written, at WriteFault a first part of it, and
    // nothing at any other end. What a stop leaves of the disks stands for the same lists as before.
    ensures written { Writes O.Sink (HasReportOf D.Disk disks feeds.now group.now) output.old output.new result.end }
    ensures stay { DisksStay D.Disk disks result.disks }

    // Whatever state the files stand for, its report is the one that was written.
    ensures one_text { (files : DiskFiles) → TellAll D.Disk disks files → (stored : Stored) (s : Cluster) →
        StandForLists files stored → StandFor stored s → result.end ≡ Done →
        HasReport feeds.now group.now s (λ text. O.held output.new ≡ with_back text (O.held output.old)) }

    // Damaged comes exactly where the files have a harm, unless a disk fails or memory is wanting before, and tells a
    // first one.
    ensures damaged_only { (disk : DiskName) (at : ℕ) (harm : Harm) → result.end ≡ Damaged disk at harm →
        (files : DiskFiles) → TellAll D.Disk disks files → HasFirstHarm files disk at harm }
    ensures damaged { (files : DiskFiles) → TellAll D.Disk disks files → (disk : DiskName) (at : ℕ) (harm : Harm) →
        HasFirstHarm files disk at harm → IsRefused result.end }

    // A fault comes only where its object's count of faults rose, and no count falls.
    ensures store_fault { (disk : DiskName) (count : ℕ) → result.end ≡ StoreFault disk count →
        FailedAt D.count disks result.disks disk count }
    ensures write_fault { result.end ≡ WriteFault → Rose (O.faults output.old) (O.faults output.new) }
    ensures later_disks { NoneFell D.Disk disks result.disks }
    ensures later_out { O.faults output.old ≤ O.faults output.new }

    // Over disks that stand for a state all is printed where no count rises, unless memory is wanting.
    ensures complete { (files : DiskFiles) → TellAll D.Disk disks files → (stored : Stored) (s : Cluster) →
        StandForLists files stored → StandFor stored s → ¬ Rose (O.faults output.old) (O.faults output.new) →
        ((disk : DiskName) → ¬ Rose (D.count (disk_in disk disks)) (D.count (disk_in disk result.disks))) →
        (result.end ≡ Done) ⊎ (result.end ≡ Memory) }
{
    files_open_one_way();
    match judge_disks(alloc, disks) {
        Ok(judged) => print(alloc, judged, feeds, group, output),
        Err(fault) => Audited {
            end: AuditEnd::of(fault.cause),
            disks: fault.disks,
        },
    }
}

// Prints the report on disks that were judged, and gives them back.
fn print<D: Disk, O: Sink>(
    alloc: Global,
    judged: JudgedDisks<D>,
    feeds: &Feeds,
    group: &Name,
    output: &mut O,
) -> Audited<D>
    requires sound { IsSoundly (stored_by judged) judged.frames }
    requires logs { AreLogsOf D.Disk (stored_by judged) judged }
    ensures written { Writes O.Sink (HasReport feeds.now group.now (opened_by judged)) output.old output.new
        result.end }
    ensures ends { IsOpen result.end }
    ensures disks { result.disks ≡ disks_of (logs_in judged) }
    ensures rose { result.end ≡ WriteFault → Rose (O.faults output.old) (O.faults output.new) }
    ensures later { O.faults output.old ≤ O.faults output.new }
{
    let end = write_report(alloc, &judged, feeds, group, output);
    Audited {
        end,
        disks: give_back(judged),
    }
}

// Writes the report on disks that were judged.
fn write_report<D: Disk, O: Sink>(
    alloc: Global,
    judged: &JudgedDisks<D>,
    feeds: &Feeds,
    group: &Name,
    output: &mut O,
) -> AuditEnd
    requires sound { IsSoundly (stored_by judged.now) judged.now.frames }
    requires logs { AreLogsOf D.Disk (stored_by judged.now) judged.now }
    ensures written { Writes O.Sink (HasReport feeds.now group.now (opened_by judged.now)) output.old output.new
        result }
    ensures ends { IsOpen result }
    ensures rose { result ≡ WriteFault → Rose (O.faults output.old) (O.faults output.new) }
    ensures later { O.faults output.old ≤ O.faults output.new }
{
    match text_of(alloc, judged, feeds, group) {
        Ok(text) => write_text(output, text.as_slice()),
        Err(AllocError) => AuditEnd::Memory,
    }
}

// Writes a whole text.
fn write_text<O: Sink>(output: &mut O, text: &[u8]) -> AuditEnd
    ensures written { Writes O.Sink (λ P. P text.now) output.old output.new result }
    ensures ends { IsOpen result }
    ensures rose { result ≡ WriteFault → Rose (O.faults output.old) (O.faults output.new) }
    ensures later { O.faults output.old ≤ O.faults output.new }
{
    match write_all(output, text) {
        Ok(()) => AuditEnd::Done,
        Err(_) => AuditEnd::WriteFault,
    }
}

// The report on disks that were judged, over these feeds.
fn text_of<D: Disk>(
    alloc: Global,
    judged: &JudgedDisks<D>,
    feeds: &Feeds,
    group: &Name,
) -> Result<Vec<u8>, AllocError>
    requires sound { IsSoundly (stored_by judged.now) judged.now.frames }
    requires logs { AreLogsOf D.Disk (stored_by judged.now) judged.now }
    ensures { IfOk result (λ text. HasReport feeds.now group.now (opened_by judged.now) (λ all. text.items ≡ all)) }
{
    let agrees = agree(alloc, feeds, &judged.frames)?;
    let text = report(alloc, judged, group, agrees)?;
    Ok(text)
}

// Whether these feeds are those of which the committed records of these frames were read.
fn agree(alloc: Global, feeds: &Feeds, frames: &FramesRead) -> Result<bool, AllocError>
    ensures { IfOk result (λ agrees.
        IsTrue agrees ↔ Agrees feeds.now (joined frames.now.txn) frames.now.batches) }
{
    let entries = EntryList::of(alloc, frames.entries())?;
    let agrees = feeds_agree(feeds, &entries, frames.batches())?;
    Ok(agrees)
}

// The disks of logs that were judged.
fn give_back<D: Disk>(judged: JudgedDisks<D>) -> Disks<D>
    ensures { result ≡ disks_of (logs_in judged) }
{
    let (config_a, config_b) = judged.config.give_back();
    let (offsets_a, offsets_b) = judged.offsets.give_back();
    let (status_a, status_b) = judged.status.give_back();
    Disks {
        config_a,
        config_b,
        offsets_a,
        offsets_b,
        status_a,
        status_b,
        txn: judged.txn.give_back(),
        batches: judged.batches.give_back(),
    }
}
