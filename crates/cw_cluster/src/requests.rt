//! A request of a script to a worker (Kafka Connect's REST API).
ghost use Rattle.std.specs.Prelude.{◌≡◌, ◌≢◌, ◌⊎◌, ◌<◌, ◌++◌, length, Option, Err, IfOk};
ghost use Rattle.cw_io.specs.Shelf.{Files};
ghost use Rattle.cw_script.specs.declared.directive.Directive.TheVariants as directive;
ghost use Rattle.cw_edges.specs.Requests.{call_of};
ghost use Rattle.cw_herder.specs.Submits.{Submits};
ghost use Rattle.cw_run.specs.Flight.{failed_line};
ghost use Rattle.cw_cluster.specs.Breaking.{IsAlive};
ghost use Rattle.cw_cluster.specs.Playing.{PlaysDirective};

use crate::answers::Answers;
use crate::events::number_of;
use crate::outcome::Outcome;
use cw_disk::Disk;
use cw_herder::submit;
use cw_lines::DriveEnd;
use cw_model::WorldFault;
use cw_reply::failed_reply;
use cw_route::{Call, Reply, RouteFault, route};
use cw_types::Name;
use cw_world::World;
use std::alloc::{AllocError, Global};

/// Plays a request to a worker, and says its reply: a log that is full and a lead that was lost have replies, too, and
/// so has a disk that fails, which ends the script. A worker that was killed replies nothing.
pub(crate) fn play_rest<D: Disk>(
    alloc: Global,
    world: &mut World<D>,
    worker: u64,
    method: &[u8],
    target: &[u8],
    body: &[u8],
    answers: &mut Answers,
) -> Result<(), DriveEnd>
    requires there { worker < length world.old.state.rows }
    requires alive { IsAlive D.Disk world.old }
    ensures played { (files : Option Files) →
        PlaysDirective D.Disk (directive.Rest worker method.now target.now body.now) world.old world.new files files
        answers.old answers.new result }
    ensures outlet { result ≢ Err DriveEnd.OutletFault }
{
    world.is_safe();
    match ask(alloc, world, worker, method, target, body) {
        Ok(reply) => {
            let done = Ok(Outcome::Replied(reply));
            answers.say(world.cluster().group_name(), worker, done)
        }
        Err(WorldFault::StoreFault { disk, count }) => {
            say_failed(alloc, world.cluster().group_name(), worker, answers);
            Err(DriveEnd::StoreFault { disk, count })
        }
        Err(fault) => answers.say(world.cluster().group_name(), worker, Err(fault)),
    }
}

// A request through a worker. Where memory is wanting to read it, nothing is done.
fn ask<D: Disk>(
    alloc: Global,
    world: &mut World<D>,
    worker: u64,
    method: &[u8],
    target: &[u8],
    body: &[u8],
) -> Result<Reply, WorldFault>
    requires { worker < length world.old.state.rows }
    ensures { Submits D.Disk worker (call_of method.now target.now body.now) world.old world.new result }
{
    let Ok(call) = call_of(alloc, method, target, body) else {
        return Err(WorldFault::Memory);
    };
    let number = number_of(world, worker);
    submit(alloc, world, number, &call)
}

// The call that a request is; one that is none is a call that is refused.
fn call_of(alloc: Global, method: &[u8], target: &[u8], body: &[u8]) -> Result<Call, AllocError>
    ensures { IfOk result (λ call. call ≡ call_of method.now target.now body.now) }
{
    match route(alloc, method, target, body) {
        Ok(call) => Ok(call),
        Err(fault) => match fault {
            RouteFault::Memory => Err(AllocError),
            _ => Ok(Call::Refused(fault)),
        },
    }
}

// Replies to a request that a disk failed in it, where there is memory for that.
fn say_failed(alloc: Global, group: &Name, worker: u64, answers: &mut Answers)
    ensures { (answers.new ≡ answers.old) ⊎ (answers.new ≡ answers.old ++ failed_line) }
{
    if let Ok(reply) = failed_reply(alloc) {
        let _ = answers.say(group, worker, Ok(Outcome::Replied(reply)));
    }
}
