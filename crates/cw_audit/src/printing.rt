//! The report on a stopped cluster.
ghost use Rattle.std.specs.Prelude.{◌≡◌, ◌++◌, ℕ, List, length, IfOk, OnOk};
ghost use Rattle.cw_bytes.specs.Frames.{joined};
ghost use Rattle.cw_config.specs.Compaction.{configs_in};
ghost use Rattle.cw_log.specs.Log.{length_of};
ghost use Rattle.cw_model.specs.StandsFor.{AreSound, allowing_of, safety_of};
ghost use Rattle.cw_open.specs.Judged.{AreLogsOf, IsSoundly, stored_by};
ghost use Rattle.cw_open.specs.Opened.{opened_by};
ghost use Rattle.cw_audit.specs.Listed.{id_lines, offsets_lines, tasks_lines};
ghost use Rattle.cw_audit.specs.Report.{audit_text, log_lines, size_line};

use crate::connectors::write_connectors;
use crate::ids::write_ids;
use crate::lines::{feeds_line, log_line};
use crate::parts::write_parts;
use cw_disk::Disk;
use cw_log::BodyLog;
use cw_open::{FramesRead, JudgedDisks};
use cw_topics::{Sides, Topics};
use cw_txn::Entry;
use cw_types::{Listed, LogName, Name};
use std::alloc::{AllocError, Global};

/// The report on disks that were opened and judged: what is printed of the state that they were opened to, in a group
/// of this name, where the feeds agree or don't.
#[tactic(auto, unfolding(crate::specs::Report::audit_text))]
pub fn report<D: Disk>(
    alloc: Global,
    judged: &JudgedDisks<D>,
    group: &Name,
    agrees: bool,
) -> Result<Vec<u8>, AllocError>
    requires sound { IsSoundly (stored_by judged.now) judged.now.frames }
    requires logs { AreLogsOf D.Disk (stored_by judged.now) judged.now }
    ensures { IfOk result (λ text. text.items ≡ audit_text group.now (opened_by judged.now) agrees) }
{
    let mut text = log_lines(alloc, judged)?;
    write_lists(alloc, &mut text, &judged.frames, group)?;
    text.extend_from_slice(feeds_line(agrees))?;
    Ok(text)
}

// Puts all that is listed behind a report.
fn write_lists(
    alloc: Global,
    text: &mut Vec<u8>,
    frames: &FramesRead,
    group: &Name,
) -> Result<(), AllocError>
    requires allowed { AreSound (allowing_of frames.now) }
    requires safe { AreSound (safety_of frames.now) }
    ensures { OnOk result (text.new.items ≡ text.old.items ++ id_lines group.now (joined frames.now.txn) ++
        offsets_lines (joined frames.now.txn) ++ tasks_lines (configs_in frames.now.config)) }
{
    let topics = topics_of(alloc, frames)?;
    write_topics(alloc, text, group, frames.entries(), &topics)
}

// Puts what the frames of the transaction log, and what follows from them and from the config log, list.
fn write_topics(
    alloc: Global,
    text: &mut Vec<u8>,
    group: &Name,
    frames: &[Listed<Entry>],
    topics: &Topics,
) -> Result<(), AllocError>
    requires { topics.now.entries.entries ≡ joined frames.now }
    ensures { OnOk result (text.new.items ≡ text.old.items ++ id_lines group.now (joined frames.now) ++
        offsets_lines (joined frames.now) ++ tasks_lines topics.now.configs) }
{
    let coordinator = topics.coordinator();
    write_ids(alloc, text, group, frames, coordinator)?;
    write_parts(alloc, text, frames, coordinator)?;
    write_connectors(alloc, text, topics.records(), topics.configs())
}

// What follows from the config log and the transaction log.
fn topics_of(alloc: Global, frames: &FramesRead) -> Result<Topics, AllocError>
    requires allowed { AreSound (allowing_of frames.now) }
    requires safe { AreSound (safety_of frames.now) }
    ensures configs { IfOk result (λ topics. topics.configs ≡ configs_in frames.now.config) }
    ensures entries { IfOk result (λ topics. topics.entries.entries ≡ joined frames.now.txn) }
{
    // Nothing is asked of the other logs, nor of the sides.
    let sides = Sides {
        config: 0,
        offsets: 0,
        status: 0,
    };
    let topics = Topics::opened(
        alloc,
        frames.configs(),
        &[],
        &[],
        frames.entries(),
        Vec::new(alloc),
        &sides,
    )?;
    Ok(topics)
}

fn log_lines<D: Disk>(alloc: Global, judged: &JudgedDisks<D>) -> Result<Vec<u8>, AllocError>
    requires { AreLogsOf D.Disk (stored_by judged.now) judged.now }
    ensures { IfOk result (λ text. text.items ≡ log_lines (stored_by judged.now)) }
{
    let mut text = Vec::new(alloc);
    write_log(alloc, &mut text, LogName::Config, &judged.config)?;
    write_log(alloc, &mut text, LogName::Offsets, &judged.offsets)?;
    write_log(alloc, &mut text, LogName::Status, &judged.status)?;
    write_log(alloc, &mut text, LogName::Txn, &judged.txn)?;
    write_log(alloc, &mut text, LogName::Batches, &judged.batches)?;
    Ok(text)
}

// Puts the line of a log behind a report.
fn write_log<L: BodyLog>(
    alloc: Global,
    text: &mut Vec<u8>,
    name: LogName,
    log: &L,
) -> Result<(), AllocError>
    ensures { (list : List (List ℕ)) → L.size log.now ≡ length list → L.bytes log.now ≡ length_of list →
        OnOk result (text.new.items ≡ text.old.items ++ size_line name list) }
{
    let line = log_line(alloc, name, log.count(), log.length())?;
    text.extend_from_slice(line.as_slice())
}
