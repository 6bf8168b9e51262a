//! Which operation of a leader a call of the REST API asks for.
ghost use Rattle.std.specs.Prelude.{◌≡◌, true, Some, IfOk};
ghost use Rattle.std.specs.Option.{option_map};
ghost use Rattle.cw_plugin.specs.Checks.{is_name};
ghost use Rattle.cw_rest.specs.Bodies.{asked_in, config_in};
ghost use Rattle.cw_rest.specs.Replies.{offsets_of};
ghost use Rattle.cw_reply.specs.View.{seen_in};
ghost use Rattle.cw_herder.specs.Named.{IsNamed, IsNamedIn};
ghost use Rattle.cw_herder.specs.declared.op.Op.TheVariants as op;
ghost use Rattle.cw_herder.specs.Submits.{configs_op, asked_op, config_op};

use crate::op::Op;
use cw_keys::{Target, text_of_name};
use cw_ops::offsets_of;
use cw_reply::{Asked, View, asked_in, config_in};
use cw_route::Call;
use cw_types::{Listed, Name};
use std::alloc::{AllocError, Global};

/// The operation of a call that writes configs, where it succeeds; none for another call. A connector that is made must
/// have a name, as it has wherever the call succeeds. Want of memory is the only error.
pub(crate) fn configs_op(alloc: Global, call: &Call) -> Result<Option<Op>, AllocError>
    ensures { IfOk result (λ op. IsNamed call.now → op ≡ configs_op call.now) }
{
    match call {
        Call::Create(body) => created(alloc, body.as_slice()),
        Call::PutConfig(name, body) => configured(alloc, name, body.as_slice()),
        Call::Delete(name) => Ok(Some(Op::Delete(name.copy()?))),
        Call::Pause(name) => Ok(Some(Op::SetTarget(name.copy()?, Target::Paused))),
        Call::Resume(name) => Ok(Some(Op::SetTarget(name.copy()?, Target::Started))),
        Call::Stop(name) => Ok(Some(Op::SetTarget(name.copy()?, Target::Stopped))),
        Call::Refused(_)
        | Call::Connectors
        | Call::Info(_)
        | Call::Config(_)
        | Call::Status(_)
        | Call::Tasks(_)
        | Call::TaskStatus(_)
        | Call::Restart(_)
        | Call::RestartTask(_)
        | Call::Offsets(_)
        | Call::Alter(_, _)
        | Call::Reset(_)
        | Call::Plugins => Ok(None),
    }
}

// A connector that a body asks for.
fn created(alloc: Global, body: &[u8]) -> Result<Option<Op>, AllocError>
    ensures { IfOk result (λ op. IsNamedIn (asked_in body.now) → op ≡ option_map asked_op (asked_in body.now)) }
{
    match asked_in(alloc, body)? {
        Some(asked) => made(alloc, asked),
        None => Ok(None),
    }
}

// A connector that is asked for.
fn made(alloc: Global, asked: Asked) -> Result<Option<Op>, AllocError>
    ensures { IfOk result (λ made. is_name asked.name ≡ true → made ≡ Some (op.Connector asked.name asked.config)) }
{
    match Name::from_bytes(alloc, asked.name.as_str().as_bytes())? {
        Some(name) => Ok(Some(Op::Connector(name, asked.config))),
        None => Ok(None),
    }
}

// The config that a body gives a connector.
fn configured(alloc: Global, name: &Name, body: &[u8]) -> Result<Option<Op>, AllocError>
    ensures { IfOk result (λ op. op ≡ option_map (config_op name.now) (config_in name.now body.now)) }
{
    match config_in(alloc, text_of_name(name), body)? {
        Some(config) => Ok(Some(Op::Connector(name.copy()?, config))),
        None => Ok(None),
    }
}

/// The operation that sets the offsets of a call (KIP-875).
pub(crate) fn offsets_op(
    alloc: Global,
    seen: &View<'_>,
    call: &Call,
    name: &Name,
) -> Result<Op, AllocError>
    ensures { IfOk result (λ asked. asked ≡ op.Offsets name.now (offsets_of (seen_in seen.now) call.now)) }
{
    let list = offsets_of(alloc, seen, call)?;
    Ok(Op::Offsets(name.copy()?, Listed::new(list)))
}
