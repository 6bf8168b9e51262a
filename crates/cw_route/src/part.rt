//! The parts of a path that parameters took: names and tasks, escaped.
ghost use Rattle.std.specs.Prelude.{◌≡◌, ◌^◌, ◌-◌, IfOk};
ghost use Rattle.matchit.specs.Params.{walk};
ghost use Rattle.percent_encoding.specs.Percent as spec;
ghost use Rattle.cw_types.specs.Answers.{Gives};
ghost use Rattle.cw_types.specs.Decimal.{number_of};
ghost use Rattle.cw_types.specs.Name.{name_of};
ghost use Rattle.cw_types.specs.Task.{task_of_parts};
ghost use Rattle.cw_route.specs.Parts.{name_in, task_in, EachIsText};

use crate::call::RouteFault;
use cw_types::{Name, TaskId};
use matchit::Params;
use percent_encoding::percent_decode;
use std::alloc::{AllocError, Global};

// A part with its escapes undone.
fn unescaped(alloc: Global, part: &str) -> Result<Vec<u8>, AllocError>
    ensures { IfOk result (λ bytes. bytes.items ≡ spec.percent_decode part.now) }
{
    let mut bytes = Vec::new(alloc);
    percent_decode(part.as_bytes()).append_to(&mut bytes)?;
    Ok(bytes)
}

// The name that a part is.
fn read_name(alloc: Global, part: &str) -> Result<Option<Name>, AllocError>
    ensures { IfOk result (λ name. name ≡ name_of (spec.percent_decode part.now)) }
{
    let bytes = unescaped(alloc, part)?;
    Name::from_bytes(alloc, &bytes)
}

// The task that two parts are.
fn read_task(alloc: Global, name: &str, index: &str) -> Result<Option<TaskId>, AllocError>
    ensures { IfOk result (λ id. id ≡ task_of_parts
        (name_of (spec.percent_decode name.now)) (number_of (2 ^ 32 - 1) (spec.percent_decode index.now))) }
{
    let connector = unescaped(alloc, name)?;
    let index = unescaped(alloc, index)?;
    TaskId::from_bytes(alloc, &connector, &index)
}

// The name that the first parameter is.
pub(crate) fn name_in(alloc: Global, params: &Params<'_, '_>) -> Result<Name, RouteFault>
    requires { EachIsText (walk params.now.pattern.now params.now.text.now params.now.path.now params.now.names.now 0
        0) }
    ensures { Gives RouteFault.Memory result (name_in (walk params.now.pattern.now params.now.text.now
        params.now.path.now params.now.names.now 0 0)) }
{
    let Some((_, part)) = params.iter().next() else {
        return Err(RouteFault::BadPath);
    };
    match read_name(alloc, part)? {
        Some(name) => Ok(name),
        None => Err(RouteFault::BadPath),
    }
}

// The task that the first two parameters are.
pub(crate) fn task_in(alloc: Global, params: &Params<'_, '_>) -> Result<TaskId, RouteFault>
    requires { EachIsText (walk params.now.pattern.now params.now.text.now params.now.path.now params.now.names.now 0
        0) }
    ensures { Gives RouteFault.Memory result (task_in (walk params.now.pattern.now params.now.text.now
        params.now.path.now params.now.names.now 0 0)) }
{
    let mut parts = params.iter();
    let Some((_, name)) = parts.next() else {
        return Err(RouteFault::BadPath);
    };
    let Some((_, index)) = parts.next() else {
        return Err(RouteFault::BadPath);
    };
    match read_task(alloc, name, index)? {
        Some(id) => Ok(id),
        None => Err(RouteFault::BadPath),
    }
}
