//! Which offsets a call sets (KIP-875).
ghost use Rattle.std.specs.Prelude.{◌≡◌, [], IfOk, unwrap_or, option_and_then};
ghost use Rattle.cw_rest.specs.Offsets.{alterations_in};
ghost use Rattle.cw_rest.specs.Operations as operation;
ghost use Rattle.cw_rest.specs.Replies.{offsets_of, sets_of};
ghost use Rattle.cw_reply.specs.View.{seen_in};

use cw_reply::{View, parts_seen, sets_in};
use cw_route::Call;
use cw_txn::SetOffset;
use cw_types::{Name, PartKey};
use std::alloc::{AllocError, Global};

/// The offsets that a call alters, or those of all the connector's parts, which a reset removes; none for another call.
/// Want of memory is the only error.
pub fn offsets_of(alloc: Global, seen: &View<'_>, call: &Call) -> Result<Vec<SetOffset>, AllocError>
    ensures { IfOk result (λ list. list.items ≡ offsets_of (seen_in seen.now) call.now) }
{
    match call {
        Call::Alter(name, body) => altered(alloc, name, body.as_slice(), seen),
        Call::Reset(name) => removals(alloc, &parts_seen(alloc, name, seen)?),
        Call::Refused(_)
        | Call::Connectors
        | Call::Create(_)
        | Call::Info(_)
        | Call::Delete(_)
        | Call::Config(_)
        | Call::PutConfig(_, _)
        | Call::Status(_)
        | Call::Tasks(_)
        | Call::TaskStatus(_)
        | Call::Pause(_)
        | Call::Resume(_)
        | Call::Stop(_)
        | Call::Restart(_)
        | Call::RestartTask(_)
        | Call::Offsets(_)
        | Call::Plugins => Ok(Vec::new(alloc)),
    }
}

// The offsets that a body alters.
fn altered(
    alloc: Global,
    name: &Name,
    body: &[u8],
    seen: &View<'_>,
) -> Result<Vec<SetOffset>, AllocError>
    ensures { IfOk result (λ list. list.items ≡
        unwrap_or (option_and_then (sets_of name.now (seen_in seen.now)) (alterations_in name.now body.now)) []) }
{
    match sets_in(alloc, name, body, seen)? {
        Some(sets) => Ok(sets),
        None => Ok(Vec::new(alloc)),
    }
}

// The offsets of these parts are removed.
fn removals(alloc: Global, parts: &[PartKey]) -> Result<Vec<SetOffset>, AllocError>
    ensures { IfOk result (λ list. list.items ≡ operation.removals parts.now) }
{
    let mut list = Vec::new(alloc);
    for part in parts {
        let part = part.copy()?;
        list.push(SetOffset { part, to: None })?;
    }
    Ok(list)
}
