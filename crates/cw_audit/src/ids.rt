//! The ids of producers in a report.
ghost use Rattle.std.specs.Prelude.{◌≡◌, ◌++◌, ◌∷◌, [], OnOk};
ghost use Rattle.std.specs.BTreeMap.{insert_entry};
ghost use Rattle.cw_bytes.specs.Frames.{joined};
ghost use Rattle.cw_types.specs.Order.{name_cmp};
ghost use Rattle.cw_types.specs.Text.{tid_text};
ghost use Rattle.cw_audit.specs.Listed.{id_line, id_lines};
ghost use Rattle.cw_audit.specs.Rows.{with_ids};

use crate::lines::tid_line;
use crate::rows::Rows;
use cw_txn::{Coordinator, Entry};
use cw_types::{Listed, Name, Tid, tid_text};
use std::alloc::{AllocError, Global};

/// Puts the lines of the ids with an epoch of at least 1 behind a report. The frames are those of the coordinator's
/// entries.
pub(crate) fn write_ids(
    alloc: Global,
    report: &mut Vec<u8>,
    group: &Name,
    frames: &[Listed<Entry>],
    coordinator: &Coordinator,
) -> Result<(), AllocError>
    requires { coordinator.now.entries ≡ joined frames.now }
    ensures { OnOk result (report.new.items ≡ report.old.items ++ id_lines group.now (joined frames.now)) }
{
    let mut rows = Rows::new(alloc);
    for frame in frames {
        put_frame(alloc, &mut rows, group, frame.as_slice(), coordinator)?;
    }
    rows.write(report)?;
    Ok(())
}

fn put_frame(
    alloc: Global,
    rows: &mut Rows,
    group: &Name,
    frame: &[Entry],
    coordinator: &Coordinator,
) -> Result<(), AllocError>
    ensures { OnOk result (rows.new ≡ with_ids group.now coordinator.now.entries frame.now rows.old) }
{
    for entry in frame {
        put_entry(alloc, rows, group, entry, coordinator)?;
    }
    Ok(())
}

fn put_entry(
    alloc: Global,
    rows: &mut Rows,
    group: &Name,
    entry: &Entry,
    coordinator: &Coordinator,
) -> Result<(), AllocError>
    ensures { OnOk result (rows.new ≡ with_ids group.now coordinator.now.entries (entry.now ∷ []) rows.old) }
{
    match entry {
        Entry::Bump(tid) => put_id(alloc, rows, group, tid, coordinator),
        Entry::Commit { .. } => Ok(()),
        Entry::Set { .. } => Ok(()),
    }
}

fn put_id(
    alloc: Global,
    rows: &mut Rows,
    group: &Name,
    tid: &Tid,
    coordinator: &Coordinator,
) -> Result<(), AllocError>
    ensures { OnOk result (rows.new ≡ insert_entry name_cmp rows.old (tid_text group.now tid.now)
        (id_line group.now coordinator.now.entries tid.now)) }
{
    let text = tid_text(alloc, group, tid)?;
    let line = tid_line(alloc, text.as_slice(), coordinator.epoch_of(tid))?;
    rows.put(text, line)
}
