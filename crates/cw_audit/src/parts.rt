//! The parts of connectors in a report.
ghost use Rattle.std.specs.Prelude.{◌≡◌, ◌++◌, ◌∷◌, [], IfOk, OnOk, false, map};
ghost use Rattle.std.specs.List.{flat_map};
ghost use Rattle.std.specs.BTreeMap.{insert_entry};
ghost use Rattle.cw_bytes.specs.Frames.{joined};
ghost use Rattle.cw_keys.specs.Parts.{is_raw, part_text};
ghost use Rattle.cw_types.specs.Order.{name_cmp};
ghost use Rattle.cw_audit.specs.Listed.{offsets_line, offsets_lines, parts_of};
ghost use Rattle.cw_audit.specs.Rows.{with_parts};

use crate::lines::part_line;
use crate::rows::Rows;
use cw_keys::write_part;
use cw_txn::{Coordinator, Entry, SetOffset};
use cw_types::{Listed, PartKey, Span};
use std::alloc::{AllocError, Global};

/// Puts the lines of the connectors' parts that these frames name behind a report. They are those of the coordinator's
/// entries.
pub(crate) fn write_parts(
    alloc: Global,
    report: &mut Vec<u8>,
    frames: &[Listed<Entry>],
    coordinator: &Coordinator,
) -> Result<(), AllocError>
    requires { coordinator.now.entries ≡ joined frames.now }
    ensures { OnOk result (report.new.items ≡ report.old.items ++ offsets_lines (joined frames.now)) }
{
    let mut rows = Rows::new(alloc);
    for frame in frames {
        put_frame(alloc, &mut rows, frame.as_slice(), coordinator)?;
    }
    rows.write(report)?;
    Ok(())
}

fn put_frame(
    alloc: Global,
    rows: &mut Rows,
    frame: &[Entry],
    coordinator: &Coordinator,
) -> Result<(), AllocError>
    ensures { OnOk result (rows.new ≡ with_parts coordinator.now.entries (flat_map parts_of frame.now) rows.old) }
{
    for entry in frame {
        put_entry(alloc, rows, entry, coordinator)?;
    }
    Ok(())
}

fn put_entry(
    alloc: Global,
    rows: &mut Rows,
    entry: &Entry,
    coordinator: &Coordinator,
) -> Result<(), AllocError>
    ensures { OnOk result (rows.new ≡ with_parts coordinator.now.entries (parts_of entry.now) rows.old) }
{
    match entry {
        Entry::Bump(_) => Ok(()),
        Entry::Commit { spans, .. } => put_spans(alloc, rows, spans.as_slice(), coordinator),
        Entry::Set { list, .. } => put_offsets(alloc, rows, list.as_slice(), coordinator),
    }
}

fn put_spans(
    alloc: Global,
    rows: &mut Rows,
    spans: &[Span],
    coordinator: &Coordinator,
) -> Result<(), AllocError>
    ensures { OnOk result (rows.new ≡
        with_parts coordinator.now.entries (map (λ span. span.part) spans.now) rows.old) }
{
    for span in spans {
        put_part(alloc, rows, &span.part, coordinator)?;
    }
    Ok(())
}

fn put_offsets(
    alloc: Global,
    rows: &mut Rows,
    list: &[SetOffset],
    coordinator: &Coordinator,
) -> Result<(), AllocError>
    ensures { OnOk result (rows.new ≡
        with_parts coordinator.now.entries (map (λ set. set.part) list.now) rows.old) }
{
    for set in list {
        put_part(alloc, rows, &set.part, coordinator)?;
    }
    Ok(())
}

// A part of a script is not listed.
fn put_part(
    alloc: Global,
    rows: &mut Rows,
    part: &PartKey,
    coordinator: &Coordinator,
) -> Result<(), AllocError>
    ensures { OnOk result (rows.new ≡ with_parts coordinator.now.entries (part.now ∷ []) rows.old) }
{
    if is_raw(part) {
        return Ok(());
    }
    put_owned(alloc, rows, part, coordinator)
}

fn is_raw(part: &PartKey) -> bool
    ensures { result ≡ is_raw part.now }
{
    match part {
        PartKey::Raw(_) => true,
        PartKey::File { .. } => false,
        PartKey::Seq { .. } => false,
        PartKey::Sink { .. } => false,
    }
}

fn put_owned(
    alloc: Global,
    rows: &mut Rows,
    part: &PartKey,
    coordinator: &Coordinator,
) -> Result<(), AllocError>
    requires { is_raw part.now ≡ false }
    ensures { OnOk result (rows.new ≡ insert_entry name_cmp rows.old (part_text part.now)
        (offsets_line coordinator.now.entries part.now)) }
{
    let key = part_key(alloc, part)?;
    let base = coordinator.base_of(part);
    let end = coordinator.end_of(part);
    let line = part_line(alloc, key.as_slice(), base, end)?;
    rows.put(key, line)
}

fn part_key(alloc: Global, part: &PartKey) -> Result<Vec<u8>, AllocError>
    requires { is_raw part.now ≡ false }
    ensures { IfOk result (λ key. key.items ≡ part_text part.now) }
{
    match write_part(alloc, part) {
        Ok(key) => Ok(key),
        Err(_) => Err(AllocError),
    }
}
