//! Where each part begins and ends.
ghost use Rattle.std.specs.Prelude.{◌≡◌, ◌↔◌, ◌∷◌, [], All, IfOk, OnOk, IsTrue, is_some};
ghost use Rattle.std.specs.Str.{bytes_eq};
ghost use Rattle.std.specs.BTreeMap.{get};
ghost use Rattle.cw_types.specs.Same.{part_order};
ghost use Rattle.cw_txn.specs.History.{GoesOn};
ghost use Rattle.cw_txn.specs.Walk.{IsSpanTest};
ghost use Rattle.cw_txn.specs.Tables.{history_at, is_of, HasPart, KeepsParts, SameParts, MovesRow, MovesEnds};
ghost use Rattle.cw_txn.specs.Tables.{SetsParts};

use crate::entry::SetOffset;
use crate::history::History;
use cw_tables::{has_row, make_row, set_row};
use cw_types::{Name, PartKey, Span};
use std::alloc::AllocError;
use std::collections::BTreeMap;

/// Whether a part is a connector's.
pub fn is_of(part: &PartKey, connector: &Name) -> bool
    ensures { result ≡ is_of connector.now part.now }
{
    match part {
        PartKey::Raw(_) => false,
        PartKey::File {
            connector: owner,
            ..
        } => same_names(owner, connector),
        PartKey::Seq {
            connector: owner,
            ..
        } => same_names(owner, connector),
        PartKey::Sink {
            connector: owner,
            ..
        } => same_names(owner, connector),
    }
}

/// Whether two names are one.
pub fn same_names(a: &Name, b: &Name) -> bool
    ensures { result ≡ bytes_eq a.now b.now }
{
    a == b
}

/// Rows for the parts of spans, which read as before.
pub fn make_span_parts(
    parts: &mut BTreeMap<PartKey, History>,
    spans: &[Span],
) -> Result<(), AllocError>
    ensures same { SameParts parts.old parts.new }
    ensures kept { KeepsParts parts.old parts.new }
    ensures there { OnOk result (All (λ span. HasPart parts.new span.part) spans.now) }
{
    for span in spans {
        make_part(parts, &span.part)?;
    }
    Ok(())
}

/// Rows for the parts of offsets, which read as before.
pub fn make_set_parts(
    parts: &mut BTreeMap<PartKey, History>,
    list: &[SetOffset],
) -> Result<(), AllocError>
    ensures same { SameParts parts.old parts.new }
    ensures kept { KeepsParts parts.old parts.new }
    ensures there { OnOk result (All (λ set. HasPart parts.new set.part) list.now) }
{
    for set in list {
        make_part(parts, &set.part)?;
    }
    Ok(())
}

fn make_part(parts: &mut BTreeMap<PartKey, History>, part: &PartKey) -> Result<(), AllocError>
    ensures same { SameParts parts.old parts.new }
    ensures kept { KeepsParts parts.old parts.new }
    ensures there { OnOk result (HasPart parts.new part.now) }
{
    if has_row(parts, part) {
        return Ok(());
    }
    make_row(parts, part.copy()?, History::UNSET)
}

/// The end of each span's part, in its row or in a new one. It says whether every part chains.
pub fn put_ends(parts: &mut BTreeMap<PartKey, History>, spans: &[Span]) -> Result<bool, AllocError>
    ensures moved { OnOk result (MovesEnds parts.old parts.new spans.now) }
    ensures chains { IfOk result (IsSpanTest parts.old spans.now) }
{
    let mut chains = true;
    for span in spans {
        let goes_on = put_end(parts, span)?;
        chains = chains && goes_on;
    }
    Ok(chains)
}

// The end of one span's part. It says whether the span goes on from where it was.
fn put_end(parts: &mut BTreeMap<PartKey, History>, span: &Span) -> Result<bool, AllocError>
    ensures moved { OnOk result (MovesEnds parts.old parts.new (span.now ∷ [])) }
    ensures goes_on { IfOk result (λ on. IsTrue on ↔ GoesOn (history_at parts.old span.now.part) span.now) }
{
    match move_row(parts, span) {
        Some(before) => Ok(before.goes_on(span)),
        None => {
            parts.insert(span.part.copy()?, History::UNSET.ended(span.to))?;
            Ok(History::UNSET.goes_on(span))
        }
    }
}

/// The end of each span's part, in its row.
pub fn move_ends(parts: &mut BTreeMap<PartKey, History>, spans: &[Span])
    requires { All (λ span. HasPart parts.old span.part) spans.now }
    ensures moved { MovesEnds parts.old parts.new spans.now }
    ensures kept { KeepsParts parts.old parts.new }
{
    for span in spans {
        move_end(parts, span);
    }
}

fn move_end(parts: &mut BTreeMap<PartKey, History>, span: &Span)
    requires { HasPart parts.old span.now.part }
    ensures moved { MovesEnds parts.old parts.new (span.now ∷ []) }
    ensures kept { KeepsParts parts.old parts.new }
{
    let _ = move_row(parts, span);
}

// Moves the end of a part that has a row, and gives what the row was.
fn move_row(parts: &mut BTreeMap<PartKey, History>, span: &Span) -> Option<History>
    ensures before { result ≡ get part_order parts.old span.now.part }
    ensures moved { MovesRow (is_some result) parts.old parts.new span.now }
{
    match parts.get_mut(&span.part) {
        Some(row) => {
            let before = *row;
            *row = before.ended(span.to);
            Some(before)
        }
        None => None,
    }
}

/// The offsets of parts, in their rows.
pub fn set_histories(parts: &mut BTreeMap<PartKey, History>, list: &[SetOffset])
    requires { All (λ set. HasPart parts.old set.part) list.now }
    ensures moved { SetsParts parts.old parts.new list.now }
    ensures kept { KeepsParts parts.old parts.new }
{
    for set in list {
        set_history(parts, set);
    }
}

fn set_history(parts: &mut BTreeMap<PartKey, History>, set: &SetOffset)
    requires { HasPart parts.old set.now.part }
    ensures moved { SetsParts parts.old parts.new (set.now ∷ []) }
    ensures kept { KeepsParts parts.old parts.new }
{
    set_row(
        parts,
        &set.part,
        History {
            base: set.to.unwrap_or(0),
            end: set.to,
        },
    );
}
