//! The offsets of a connector, and what alterations and resets of them are answered (KIP-875).
ghost use Rattle.std.specs.Prelude.{◌≡◌, ◌∷◌, [], false, IfOk, OnOk, map, unwrap_or, option_map, option_and_then};
ghost use Rattle.std.specs.Prelude.{codes};
ghost use Rattle.serde_json.specs.View.{view};
ghost use Rattle.serde_json.specs.Written.{has_float};
ghost use Rattle.cw_keys.specs.Counts.{count_data};
ghost use Rattle.cw_keys.specs.Offsets.{offset_name};
ghost use Rattle.cw_txn.specs.History.{end_of};
ghost use Rattle.cw_rest.specs.Messages.{replied};
ghost use Rattle.cw_rest.specs.Messages as refusals;
ghost use Rattle.cw_rest.specs.Offsets as offsets;
ghost use Rattle.cw_rest.specs.Offsets.{alterations_in};
ghost use Rattle.cw_rest.specs.Pages as page;
ghost use Rattle.cw_rest.specs.Replies as replies;
ghost use Rattle.cw_route.specs.declared.reply.Reply.{Reply};
ghost use Rattle.cw_reply.specs.Alterations.{alteration_in};
ghost use Rattle.cw_reply.specs.View.{seen_in};

use crate::alteration::{Alteration, alterations_of, sets_by};
use crate::message::{bad_body, bad_offset, no_connector, not_stopped, rebalancing, replied};
use crate::page::{is_source, message_value};
use crate::placed::{Placed, in_order};
use crate::replies::is_there;
use crate::view::View;
use cw_json::read_value;
use cw_keys::{Target, text_of_name};
use cw_route::Reply;
use cw_txn::SetOffset;
use cw_types::{Name, PartKey};
use serde_json::{Value, json};
use std::alloc::{AllocError, Global};
use std::collections::BTreeSet;

/// A part as a partition of Connect's offsets (KIP-875). Its only error is want of memory.
pub fn partition_value(alloc: Global, part: &PartKey) -> Result<Value, AllocError>
    ensures value { IfOk result (λ value. view value ≡ offsets.partition_of part.now) }
    ensures whole { OnOk result (has_float (offsets.partition_of part.now) ≡ false) }
{
    match part {
        PartKey::Raw(_) => Ok(Value::Null),
        PartKey::File { feed, .. } => {
            let feed = text_of_name(feed);
            json!(in alloc; {"filename": feed})
        }
        PartKey::Seq { index, .. } => {
            let index = *index;
            json!(in alloc; {"sequence": index})
        }
        PartKey::Sink { topic, .. } => {
            let topic = text_of_name(topic);
            json!(in alloc; {"kafka_partition": 0u32, "kafka_topic": topic})
        }
    }
}

// Where a part ends, as an offset.
fn end_value(alloc: Global, part: &PartKey, seen: &View<'_>) -> Result<Value, AllocError>
    ensures { IfOk result (λ value. view value ≡
        count_data (offset_name part.now) (unwrap_or (end_of part.now seen.now.txn.now.entries) 0)) }
{
    let end = seen.txn.end_of(part).unwrap_or(0);
    match part {
        PartKey::Raw(_) | PartKey::File { .. } | PartKey::Seq { .. } =>
            json!(in alloc; {"position": end}),
        PartKey::Sink { .. } => json!(in alloc; {"kafka_offset": end}),
    }
}

// The offset of a part.
fn offset_value(alloc: Global, part: &PartKey, seen: &View<'_>) -> Result<Value, AllocError>
    ensures { IfOk result (λ value. view value ≡ page.offset_info (seen_in seen.now) part.now) }
{
    let offset = end_value(alloc, part, seen)?;
    let partition = partition_value(alloc, part)?;
    json!(in alloc; {"offset": offset, "partition": partition})
}

// The offsets of parts, each in its place.
fn offset_values(
    alloc: Global,
    parts: &BTreeSet<Placed>,
    seen: &View<'_>,
) -> Result<Vec<Value>, AllocError>
    ensures { IfOk result (λ values. map view values.items ≡
        map (λ placed. page.offset_info (seen_in seen.now) placed.part) parts.now.keys) }
{
    let mut values = Vec::new(alloc);
    for placed in parts {
        values.push(offset_value(alloc, &placed.part, seen)?)?;
    }
    Ok(values)
}

// A list of offsets.
fn list_value(alloc: Global, values: Vec<Value>) -> Result<Value, AllocError>
    ensures { IfOk result (λ value. view value ≡
        page.object_of ((codes "offsets", page.list_of (map view values.items)) ∷ [])) }
{
    let values = Value::Array(values);
    json!(in alloc; {"offsets": values})
}

// Whether a connector is a source.
fn is_source_of(name: &Name, seen: &View<'_>) -> bool
    ensures { result ≡ page.is_source (page.config_seen name.now (seen_in seen.now)) }
{
    is_source(seen.config.config(name))
}

// The offsets of a connector.
fn offsets_value(alloc: Global, name: &Name, seen: &View<'_>) -> Result<Value, AllocError>
    ensures { IfOk result (λ value. view value ≡ page.offset_infos name.now (seen_in seen.now)) }
{
    let parts = seen.txn.parts_of(name)?;
    let parts = in_order(alloc, is_source_of(name, seen), &parts)?;
    let values = offset_values(alloc, &parts, seen)?;
    list_value(alloc, values)
}

// The offsets of a connector are told.
pub(crate) fn offsets(alloc: Global, name: &Name, seen: &View<'_>) -> Result<Reply, AllocError>
    ensures { IfOk result (λ reply. reply ≡ replies.if_there name.now (seen_in seen.now)
        (replied 200 (page.offset_infos name.now (seen_in seen.now)))) }
{
    if !is_there(name, seen) {
        return no_connector(alloc, name);
    }
    let offsets = offsets_value(alloc, name, seen)?;
    replied(alloc, 200, &offsets)
}

// That something was done, as its text tells.
fn told(alloc: Global, text: &str) -> Result<Reply, AllocError>
    ensures { IfOk result (λ reply. reply ≡ replied 200 (page.message text.now)) }
{
    let message = message_value(alloc, text)?;
    replied(alloc, 200, &message)
}

// That something was done to a stopped connector's offsets, as its text tells; another isn't stopped.
fn told_if_stopped(
    alloc: Global,
    name: &Name,
    seen: &View<'_>,
    are_good: bool,
    text: &str,
) -> Result<Reply, AllocError>
    ensures { IfOk result (λ reply. reply ≡ replies.if_stopped seen.now.ready (seen_in seen.now) name.now
        (replies.unless are_good refusals.bad_offset (replied 200 (page.message text.now)))) }
{
    if !seen.ready {
        return rebalancing(alloc);
    }
    if !is_there(name, seen) {
        return no_connector(alloc, name);
    }
    match seen.config.target(name) {
        Target::Started | Target::Paused => not_stopped(alloc),
        Target::Stopped => {
            if are_good {
                told(alloc, text)
            } else {
                bad_offset(alloc)
            }
        }
    }
}

// Offsets are reset.
pub(crate) fn reset(alloc: Global, name: &Name, seen: &View<'_>) -> Result<Reply, AllocError>
    ensures { IfOk result (λ reply. reply ≡ replies.reset_reply seen.now.ready (seen_in seen.now) name.now) }
{
    let text = "The offsets for this connector have been reset successfully";
    told_if_stopped(alloc, name, seen, true, text)
}

// Offsets are altered, as far as a body was read.
fn altered(
    alloc: Global,
    name: &Name,
    list: &[Alteration<'_>],
    seen: &View<'_>,
) -> Result<Reply, AllocError>
    ensures { IfOk result (λ reply. reply ≡
        replies.alter_reply seen.now.ready (seen_in seen.now) name.now (map alteration_in list.now)) }
{
    let sets = sets_by(alloc, is_source_of(name, seen), name, list)?;
    let text = "The offsets for this connector have been altered successfully";
    told_if_stopped(alloc, name, seen, sets.is_some(), text)
}

// Offsets are altered.
pub(crate) fn alter(
    alloc: Global,
    name: &Name,
    body: &[u8],
    seen: &View<'_>,
) -> Result<Reply, AllocError>
    ensures { IfOk result (λ reply. reply ≡ replies.unless_bad (alterations_in name.now body.now)
        (replies.alter_reply seen.now.ready (seen_in seen.now) name.now)) }
{
    let Some(value) = read_value(alloc, body)? else {
        return bad_body(alloc);
    };
    match alterations_of(alloc, name, &value)? {
        Some(list) => altered(alloc, name, &list, seen),
        None => bad_body(alloc),
    }
}

// What the alterations in a body's value set.
fn sets_told(
    alloc: Global,
    name: &Name,
    value: &Value,
    seen: &View<'_>,
) -> Result<Option<Vec<SetOffset>>, AllocError>
    ensures { IfOk result (λ sets. option_map (λ sets. sets.items) sets ≡
        option_and_then (replies.sets_of name.now (seen_in seen.now))
        (offsets.alterations_by name.now (view value.now))) }
{
    match alterations_of(alloc, name, value)? {
        Some(list) => sets_by(alloc, is_source_of(name, seen), name, &list),
        None => Ok(None),
    }
}

/// The offsets that a body alters of a connector, by the connector's type; none where the body isn't that of such a
/// call, or an offset is none of that type (KIP-875). Want of memory is the only error.
pub fn sets_in(
    alloc: Global,
    name: &Name,
    body: &[u8],
    seen: &View<'_>,
) -> Result<Option<Vec<SetOffset>>, AllocError>
    ensures { IfOk result (λ sets. option_map (λ sets. sets.items) sets ≡
        option_and_then (replies.sets_of name.now (seen_in seen.now)) (alterations_in name.now body.now)) }
{
    match read_value(alloc, body)? {
        Some(value) => sets_told(alloc, name, &value, seen),
        None => Ok(None),
    }
}

// Parts that have their places, without these.
fn parts_in(alloc: Global, placed: &BTreeSet<Placed>) -> Result<Vec<PartKey>, AllocError>
    ensures { IfOk result (λ parts. parts.items ≡ map (λ placed. placed.part) placed.now.keys) }
{
    let mut parts = Vec::new(alloc);
    for place in placed {
        parts.push(place.part.copy()?)?;
    }
    Ok(parts)
}

/// The parts of a connector, by its type, that have offsets, in the order in which they are told (KIP-875). Want of
/// memory is the only error.
pub fn parts_seen(alloc: Global, name: &Name, seen: &View<'_>) -> Result<Vec<PartKey>, AllocError>
    ensures { IfOk result (λ parts. parts.items ≡ page.parts_seen name.now (seen_in seen.now)) }
{
    let parts = seen.txn.parts_of(name)?;
    let placed = in_order(alloc, is_source_of(name, seen), &parts)?;
    parts_in(alloc, &placed)
}
