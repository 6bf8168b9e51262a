//! Which parts a producer of each kind may write of.
ghost use Rattle.std.specs.Prelude.{◌≡◌, ◌↔◌, IsTrue, IfOk, OnOk, All, map, Some, true, is_none, if◌then◌else◌};
ghost use Rattle.std.specs.List.{IsDistinct};
ghost use Rattle.std.specs.Option.{option_copied};
ghost use Rattle.std.specs.BTreeMap.{get, is_at};
ghost use Rattle.cw_types.specs.declared.ids.PartKey.{PartKey};
ghost use Rattle.cw_types.specs.Same.{same_part, connector_of, part_order};
ghost use Rattle.cw_txn.specs.Allowed.{IsRaw, IsSourceOf, IsSinkOf, CommitsOwn, SetsOwn};

use crate::entry::SetOffset;
use crate::parts::{is_of, same_names};
use cw_types::{Name, PartKey, Span, Tid};
use std::alloc::{AllocError, Global};
use std::collections::BTreeMap;

/// Whether the spans are of the producer's own parts, and a script's number is its place in the log.
pub fn commits_own(tid: &Tid, number: u64, place: u64, spans: &[Span]) -> bool
    ensures { IsTrue result ↔ CommitsOwn tid.now number place (map (λ span. span.part) spans.now) }
{
    match tid {
        Tid::Lead => false,
        Tid::Task(id) => are_sources_of(&id.connector, spans),
        Tid::Raw(_) => number == place && are_raw(spans),
    }
}

/// Whether the offsets are of the producer's own parts.
pub fn sets_own(tid: &Tid, list: &[SetOffset]) -> bool
    ensures { IsTrue result ↔ SetsOwn tid.now (map (λ set. set.part) list.now) }
{
    match tid {
        Tid::Lead => are_of_one_connector(list),
        Tid::Task(id) => are_sinks_of(&id.connector, list),
        Tid::Raw(_) => false,
    }
}

fn are_raw(spans: &[Span]) -> bool
    ensures { IsTrue result ↔ All (λ span. IsRaw span.part) spans.now }
{
    spans.iter().all(|span| is_raw(&span.part))
}

fn are_sources_of(connector: &Name, spans: &[Span]) -> bool
    ensures { IsTrue result ↔ All (λ span. IsSourceOf connector.now span.part) spans.now }
{
    spans.iter().all(|span| is_source_of(connector, &span.part))
}

fn are_sinks_of(connector: &Name, list: &[SetOffset]) -> bool
    ensures { IsTrue result ↔ All (λ set. IsSinkOf connector.now set.part) list.now }
{
    list.iter().all(|set| is_sink_of(connector, &set.part))
}

// Whether one connector has all these parts.
fn are_of_one_connector(list: &[SetOffset]) -> bool
    ensures { IsTrue result ↔ SetsOwn Tid.Lead (map (λ set. set.part) list.now) }
{
    match list {
        [] => true,
        [first, ..] => match connector_of(&first.part) {
            None => false,
            Some(connector) => are_of(connector, list),
        },
    }
}

fn are_of(connector: &Name, list: &[SetOffset]) -> bool
    ensures { IsTrue result ↔ All (λ set. connector_of set.part ≡ Some connector.now) list.now }
{
    list.iter().all(|set| is_owned(connector, &set.part))
}

fn is_owned(connector: &Name, part: &PartKey) -> bool
    ensures { IsTrue result ↔ (connector_of part.now ≡ Some connector.now) }
{
    is_of(part, connector)
}

fn connector_of(part: &PartKey) -> Option<&Name>
    ensures { option_copied result ≡ connector_of part.now }
{
    match part {
        PartKey::Raw(_) => None,
        PartKey::File { connector, .. } => Some(connector),
        PartKey::Seq { connector, .. } => Some(connector),
        PartKey::Sink { connector, .. } => Some(connector),
    }
}

fn is_raw(part: &PartKey) -> bool
    ensures { IsTrue result ↔ IsRaw part.now }
{
    match part {
        PartKey::Raw(_) => true,
        PartKey::File { .. } => false,
        PartKey::Seq { .. } => false,
        PartKey::Sink { .. } => false,
    }
}

fn is_source_of(connector: &Name, part: &PartKey) -> bool
    ensures { IsTrue result ↔ IsSourceOf connector.now part.now }
{
    match part {
        PartKey::Raw(_) => false,
        PartKey::File {
            connector: owner,
            ..
        } => same_names(owner, connector),
        PartKey::Seq {
            connector: owner,
            ..
        } => same_names(owner, connector),
        PartKey::Sink { .. } => false,
    }
}

fn is_sink_of(connector: &Name, part: &PartKey) -> bool
    ensures { IsTrue result ↔ IsSinkOf connector.now part.now }
{
    match part {
        PartKey::Raw(_) => false,
        PartKey::File { .. } => false,
        PartKey::Seq { .. } => false,
        PartKey::Sink {
            connector: owner,
            ..
        } => same_names(owner, connector),
    }
}

/// Whether no part is in two of the offsets. Its only error is want of memory.
pub fn are_of_distinct_parts(alloc: Global, list: &[SetOffset]) -> Result<bool, AllocError>
    ensures { IfOk result (λ distinct. IsTrue distinct ↔ IsDistinct same_part (map (λ set. set.part) list.now)) }
{
    let mut noted = BTreeMap::new(alloc);
    for set in list {
        let first = note(&mut noted, &set.part)?;
        if !first {
            return Ok(false);
        }
    }
    Ok(true)
}

// Notes a part, and says whether it is a new one.
fn note(noted: &mut BTreeMap<PartKey, bool>, part: &PartKey) -> Result<bool, AllocError>
    ensures new { IfOk result (λ new. new ≡ is_none (get part_order noted.old part.now)) }
    ensures noted { OnOk result ((q : PartKey) → get part_order noted.new q ≡
        (if is_at (part_order part.now) q then Some true else get part_order noted.old q)) }
{
    let earlier = noted.insert(part.copy()?, true)?;
    Ok(earlier.is_none())
}
