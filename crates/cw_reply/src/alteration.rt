//! Alterations of offsets, as a body tells them (KIP-875).
ghost use Rattle.std.specs.Prelude.{◌≡◌, ◌^◌, IfOk, Some, map, option_map, option_and_then, codes, is_some};
ghost use Rattle.std.specs.List.{filter_map, list_any};
ghost use Rattle.cw_types.specs.Same.{same_part};
ghost use Rattle.serde_json.specs.View.{view, items_view};
ghost use Rattle.cw_keys.specs.Offsets.{offset_name};
ghost use Rattle.cw_rest.specs.Offsets as offsets;
ghost use Rattle.cw_reply.specs.Alterations.{alteration_in};

use crate::body::has_members;
use cw_keys::{count_at, name_at, offset_name, u64_at};
use cw_txn::SetOffset;
use cw_types::{Name, PartKey};
use serde_json::Value;
use std::alloc::{AllocError, Global};

// An offset that is to be altered, as JSON tells it.
#[derive(Clone, Copy, Drop)]
pub(crate) struct Alteration<'a> {
    partition: &'a Value,
    offset: &'a Value,
}

// An element of the list: an object with a partition, an offset and no other member.
fn alteration_of(value: &Value) -> Option<Alteration<'_>>
    ensures { option_map alteration_in result ≡ offsets.alteration_of (view value.now) }
{
    if !has_members(2, value) {
        return None;
    }
    let partition = value.get("partition")?;
    let offset = value.get("offset")?;
    Some(Alteration { partition, offset })
}

// What all elements are, where each is an alteration.
fn alterations_in_items<'a>(
    alloc: Global,
    items: &'a [Value],
) -> Result<Option<Vec<Alteration<'a>>>, AllocError>
    ensures { IfOk result (λ list. option_map (λ list. map alteration_in list.items) list ≡
        offsets.each_of offsets.alteration_of (offsets.elements_of (items_view items.now))) }
{
    let mut list = Vec::new(alloc);
    for item in items {
        match alteration_of(item) {
            Some(alteration) => list.push(alteration)?,
            None => return Ok(None),
        }
    }
    Ok(Some(list))
}

// The part of a connector that a feed's name, a sequence's number or a topic's name stands for.
fn part_in(
    alloc: Global,
    connector: &Name,
    partition: &Value,
) -> Result<Option<PartKey>, AllocError>
    ensures { IfOk result (λ part. part ≡ offsets.part_in connector.now (view partition.now)) }
{
    if has_members(1, partition) {
        if let Some(feed) = name_at(alloc, "filename", partition)? {
            let connector = connector.copy()?;
            return Ok(Some(PartKey::File { connector, feed }));
        }
        return match count_at("sequence", partition) {
            Some(index) => {
                let connector = connector.copy()?;
                Ok(Some(PartKey::Seq { connector, index }))
            }
            None => Ok(None),
        };
    }
    if !has_members(2, partition) || u64_at("kafka_partition", partition) != Some(0) {
        return Ok(None);
    }
    match name_at(alloc, "kafka_topic", partition)? {
        Some(topic) => {
            let connector = connector.copy()?;
            Ok(Some(PartKey::Sink { connector, topic }))
        }
        None => Ok(None),
    }
}

// The parts that alterations name.
fn parts_in(
    alloc: Global,
    connector: &Name,
    list: &[Alteration<'_>],
) -> Result<Vec<PartKey>, AllocError>
    ensures { IfOk result (λ parts. parts.items ≡
        filter_map (offsets.part_of connector.now) (map alteration_in list.now)) }
{
    let mut parts = Vec::new(alloc);
    for alteration in list {
        if let Some(part) = part_in(alloc, connector, alteration.partition)? {
            parts.push(part)?;
        }
    }
    Ok(parts)
}

// Whether a part is one of these.
fn is_among(part: &PartKey, others: &[PartKey]) -> bool
    ensures { result ≡ list_any (same_part part.now) others.now }
{
    for other in others {
        if part == other {
            return true;
        }
    }
    false
}

// Whether a part stands twice among these.
#[tactic(auto, using(crate::proofs::Tasks::repeat_at))]
fn has_repeat(parts: &[PartKey]) -> bool
    ensures { result ≡ offsets.has_repeat parts.now }
{
    for (place, part) in parts.iter().enumerate() {
        if is_among(part, &parts[place + 1..]) {
            return true;
        }
    }
    false
}

// Whether there are 1 to 1,000 alterations, and no part is named twice.
fn are_offsets(alloc: Global, connector: &Name, list: &[Alteration<'_>]) -> Result<bool, AllocError>
    ensures { IfOk result (λ is. is ≡ offsets.is_list_of_offsets connector.now (map alteration_in list.now)) }
{
    if list.is_empty() || list.len() > 1000 {
        return Ok(false);
    }
    Ok(!has_repeat(&parts_in(alloc, connector, list)?))
}

// The alterations that a body's value tells of a connector.
pub(crate) fn alterations_of<'a>(
    alloc: Global,
    connector: &Name,
    value: &'a Value,
) -> Result<Option<Vec<Alteration<'a>>>, AllocError>
    ensures { IfOk result (λ list. option_map (λ list. map alteration_in list.items) list ≡
        offsets.alterations_by connector.now (view value.now)) }
{
    if !has_members(1, value) {
        return Ok(None);
    }
    let Some(items) = value.get("offsets").and_then(Value::as_array) else {
        return Ok(None);
    };
    let Some(list) = alterations_in_items(alloc, items.as_slice())? else {
        return Ok(None);
    };
    if are_offsets(alloc, connector, &list)? {
        Ok(Some(list))
    } else {
        Ok(None)
    }
}

// Whether a part is one of a connector's type.
pub(crate) fn is_of_type(is_source: bool, part: &PartKey) -> bool
    ensures { result ≡ offsets.is_of_type is_source part.now }
{
    match part {
        PartKey::Raw(_) => false,
        PartKey::File { .. } | PartKey::Seq { .. } => is_source,
        PartKey::Sink { .. } => !is_source,
    }
}

// A position below 2^48, as the offset of a part.
fn position_in(part: &PartKey, value: &Value) -> Option<Option<u64>>
    ensures { result ≡ offsets.position_in part.now (view value.now) }
{
    if !has_members(1, value) {
        return None;
    }
    match u64_at(offset_name(part), value) {
        Some(to) if to < 281474976710656 => Some(Some(to)),
        _ => None,
    }
}

// The offset of a part that a value tells, or null for none.
fn offset_in(part: &PartKey, value: &Value) -> Option<Option<u64>>
    ensures { result ≡ offsets.offset_in part.now (view value.now) }
{
    match value {
        Value::Null => Some(None),
        Value::Object(_) => position_in(part, value),
        _ => None,
    }
}

// What an alteration sets of a connector of a type.
fn set_of(
    alloc: Global,
    is_source: bool,
    connector: &Name,
    alteration: &Alteration<'_>,
) -> Result<Option<SetOffset>, AllocError>
    ensures { IfOk result (λ set. set ≡ offsets.set_by is_source connector.now (alteration_in alteration.now)) }
{
    let Some(part) = part_in(alloc, connector, alteration.partition)? else {
        return Ok(None);
    };
    if !is_of_type(is_source, &part) {
        return Ok(None);
    }
    match offset_in(&part, alteration.offset) {
        Some(to) => Ok(Some(SetOffset { part, to })),
        None => Ok(None),
    }
}

// What they set in their order, where each sets an offset.
pub(crate) fn sets_by(
    alloc: Global,
    is_source: bool,
    connector: &Name,
    list: &[Alteration<'_>],
) -> Result<Option<Vec<SetOffset>>, AllocError>
    ensures { IfOk result (λ sets. option_map (λ sets. sets.items) sets ≡
        offsets.sets_by is_source connector.now (map alteration_in list.now)) }
{
    let mut sets = Vec::new(alloc);
    for alteration in list {
        match set_of(alloc, is_source, connector, alteration)? {
            Some(set) => sets.push(set)?,
            None => return Ok(None),
        }
    }
    Ok(Some(sets))
}
