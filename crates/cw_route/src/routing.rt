//! Which call a method and a target are.
ghost use Rattle.std.specs.Prelude.{◌≡◌, ◌==◌, IfOk, position};
ghost use Rattle.std.specs.List.{list_all};
ghost use Rattle.matchit.specs.Params.{walk};
ghost use Rattle.cw_types.specs.Answers.{Gives};
ghost use Rattle.cw_types.specs.Name.{is_name_byte};
ghost use Rattle.cw_route.specs.Parts.{EachIsText};
ghost use Rattle.cw_route.specs.Calls.{path_in, query_in, call_of, call_at, call_for};

use crate::call::{Call, RouteFault};
use crate::operation::{Operation, operation_at};
use crate::page::router;
use crate::part::{name_in, task_in};
use cw_types::Listed;
use matchit::Params;
use std::alloc::{AllocError, Global};
use std::str;

/// The call of a method, a target and a body. The target is a path, and a query behind the first `?`.
/// Paths are matched before their escapes are undone. NotFound comes where the table doesn't have the
/// path, then NotAllowed where it has it with other methods, then BadQuery for a query that isn't empty,
/// then BadPath for a part that is no name or, for a task, no number below 2^32. The table is Connect's.
pub fn route(alloc: Global, method: &[u8], target: &[u8], body: &[u8]) -> Result<Call, RouteFault>
    ensures { Gives RouteFault.Memory result (call_of method.now target.now body.now) }
{
    let (path, query) = cut_target(target);
    call_at(alloc, method, path, query, body)
}

// Where the first `?` of a target stands.
fn query_mark(target: &[u8]) -> Option<usize>
    ensures { result ≡ position (λ b. b == 63) target.now }
{
    target.iter().position(|byte| *byte == b'?')
}

// The path and the query of a target.
fn cut_target(target: &[u8]) -> (&[u8], &[u8])
    ensures path { result.0.now ≡ path_in target.now }
    ensures query { result.1.now ≡ query_in target.now }
{
    match query_mark(target) {
        Some(at) => (&target[..at], &target[at + 1..]),
        None => (target, &[]),
    }
}

// Whether each byte is one that a path may hold.
fn is_plain(path: &[u8]) -> bool
    ensures { result ≡ list_all is_name_byte path.now }
{
    path.iter().all(|byte| (33..=126).contains(byte))
}

// The call at a path.
fn call_at(
    alloc: Global,
    method: &[u8],
    path: &[u8],
    query: &[u8],
    body: &[u8],
) -> Result<Call, RouteFault>
    ensures { Gives RouteFault.Memory result (call_at method.now path.now query.now body.now) }
{
    if !is_plain(path) {
        return Err(RouteFault::NotFound);
    }
    let Ok(text) = str::from_utf8(path) else {
        return Err(RouteFault::NotFound);
    };
    let router = router(alloc)?;
    let Ok(found) = router.at(text) else {
        return Err(RouteFault::NotFound);
    };
    let Some(operation) = operation_at(*found.value, method) else {
        return Err(RouteFault::NotAllowed);
    };
    if query.len() > 0 {
        return Err(RouteFault::BadQuery);
    }
    call_for(alloc, operation, &found.params, body)
}

// A body as calls hold it.
fn kept(alloc: Global, body: &[u8]) -> Result<Listed<u8>, AllocError>
    ensures { IfOk result (λ kept. kept ≡ body.now) }
{
    Ok(Listed::new(body.to_vec(alloc)?))
}

// The call of an operation.
fn call_for(
    alloc: Global,
    operation: Operation,
    params: &Params<'_, '_>,
    body: &[u8],
) -> Result<Call, RouteFault>
    requires { EachIsText (walk params.now.pattern.now params.now.text.now params.now.path.now params.now.names.now 0
        0) }
    ensures { Gives RouteFault.Memory result (call_for operation (walk params.now.pattern.now params.now.text.now
        params.now.path.now params.now.names.now 0 0) body.now) }
{
    match operation {
        Operation::Connectors => Ok(Call::Connectors),
        Operation::Plugins => Ok(Call::Plugins),
        Operation::Create => Ok(Call::Create(kept(alloc, body)?)),
        Operation::Info => Ok(Call::Info(name_in(alloc, params)?)),
        Operation::Delete => Ok(Call::Delete(name_in(alloc, params)?)),
        Operation::Config => Ok(Call::Config(name_in(alloc, params)?)),
        Operation::PutConfig => {
            let name = name_in(alloc, params)?;
            Ok(Call::PutConfig(name, kept(alloc, body)?))
        }
        Operation::Status => Ok(Call::Status(name_in(alloc, params)?)),
        Operation::Tasks => Ok(Call::Tasks(name_in(alloc, params)?)),
        Operation::TaskStatus => Ok(Call::TaskStatus(task_in(alloc, params)?)),
        Operation::Pause => Ok(Call::Pause(name_in(alloc, params)?)),
        Operation::Resume => Ok(Call::Resume(name_in(alloc, params)?)),
        Operation::Stop => Ok(Call::Stop(name_in(alloc, params)?)),
        Operation::Restart => Ok(Call::Restart(name_in(alloc, params)?)),
        Operation::RestartTask => Ok(Call::RestartTask(task_in(alloc, params)?)),
        Operation::Offsets => Ok(Call::Offsets(name_in(alloc, params)?)),
        Operation::Alter => {
            let name = name_in(alloc, params)?;
            Ok(Call::Alter(name, kept(alloc, body)?))
        }
        Operation::Reset => Ok(Call::Reset(name_in(alloc, params)?)),
    }
}
