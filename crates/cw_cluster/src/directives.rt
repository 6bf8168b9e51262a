//! Plays a directive of a script over a world.
ghost use Rattle.std.specs.Prelude.{◌≡◌, ◌≢◌, ◌<◌, length, Option, None, Err};
ghost use Rattle.cw_io.specs.Shelf.{Files};
ghost use Rattle.cw_script.specs.Spelling.{IsSayable};
ghost use Rattle.cw_world.specs.World.{Acts};
ghost use Rattle.cw_run.specs.Run.{missing, unless_worker, unless_instance};
ghost use Rattle.cw_cluster.specs.Breaking.{IsAlive};
ghost use Rattle.cw_cluster.specs.Events.{event_of, subject_of, IsPlain};
ghost use Rattle.cw_cluster.specs.Playing.{PlaysDirective};

use crate::answers::Answers;
use crate::events::{
    clock, commit, compact, deaf, expire, hear, held, init, kill, member, spawn, take, tick,
};
use crate::outcome::Outcome;
use cw_disk::Disk;
use cw_lines::DriveEnd;
use cw_model::WorldFault;
use cw_rows::Cluster;
use cw_script::{Directive, LineKind};
use cw_world::World;
use std::alloc::{AllocError, Global};

/// Plays a directive that makes one event or looks at the cluster, and says its answer.
pub(crate) fn play<D: Disk>(
    alloc: Global,
    world: &mut World<D>,
    directive: &Directive,
    answers: &mut Answers,
) -> Result<(), DriveEnd>
    requires sayable { IsSayable directive.now }
    requires there { missing directive.now world.old.state ≡ None }
    requires plain { IsPlain directive.now }
    requires alive { IsAlive D.Disk world.old }
    ensures played { (files : Option Files) →
        PlaysDirective D.Disk directive.now world.old world.new files files answers.old answers.new result }
    ensures outlet { result ≢ Err DriveEnd.OutletFault }
{
    world.is_safe();
    let done = act(alloc, world, directive);
    answers.say(world.cluster().group_name(), subject_of(directive), done)
}

// The event of a directive, or what is looked at.
fn act<D: Disk>(
    alloc: Global,
    world: &mut World<D>,
    directive: &Directive,
) -> Result<Outcome, WorldFault>
    requires sayable { IsSayable directive.now }
    requires there { missing directive.now world.old.state ≡ None }
    requires plain { IsPlain directive.now }
    ensures { Acts D.Disk (event_of world.old.setting directive.now) world.old world.new result }
{
    match directive {
        Directive::Init(n) => init(world, *n),
        Directive::Commit { id, epoch, pairs } => {
            commit(alloc, world, *id, *epoch, pairs.as_slice())
        }
        Directive::Spawn => spawn(world),
        Directive::Kill(w) => kill(world, *w),
        Directive::Deaf(w) => deaf(world, *w),
        Directive::Hear(w) => hear(world, *w),
        Directive::Expire(w) => expire(world, *w),
        Directive::Clock(to) => Ok(clock(world, *to)),
        Directive::Tick(w) => tick(alloc, world, *w),
        Directive::Held(w) => held(world, *w),
        Directive::Member(w) => Ok(member(world, *w)),
        Directive::Take { topic, from } => take(alloc, world, topic, *from),
        Directive::Compact(log) => compact(world, *log),
        Directive::Step(_) | Directive::Settle(_) | Directive::Rest { .. } => unreachable!(),
    }
}

// The worker, the instance or the producer that a directive names, 0 where it names none.
fn subject_of(directive: &Directive) -> u64
    ensures { result ≡ subject_of directive.now }
{
    match directive {
        Directive::Init(n) => u64::from(*n),
        Directive::Commit { id, .. } => u64::from(*id),
        Directive::Kill(w)
        | Directive::Deaf(w)
        | Directive::Hear(w)
        | Directive::Expire(w)
        | Directive::Tick(w)
        | Directive::Held(w)
        | Directive::Member(w) => *w,
        Directive::Rest { worker, .. } => *worker,
        Directive::Step(i) => *i,
        Directive::Spawn
        | Directive::Clock(_)
        | Directive::Settle(_)
        | Directive::Take { .. }
        | Directive::Compact(_) => 0,
    }
}

/// What is wrong with a directive that names a worker or an instance that never was.
pub(crate) fn missing(directive: &Directive, cluster: &Cluster) -> Option<LineKind>
    ensures { result ≡ missing directive.now cluster.now.state }
{
    match directive {
        Directive::Kill(w)
        | Directive::Deaf(w)
        | Directive::Hear(w)
        | Directive::Expire(w)
        | Directive::Tick(w)
        | Directive::Held(w)
        | Directive::Member(w) => unless_worker(*w, cluster),
        Directive::Rest { worker, .. } => unless_worker(*worker, cluster),
        Directive::Step(i) => unless_instance(*i, cluster),
        Directive::Init(_)
        | Directive::Commit { .. }
        | Directive::Spawn
        | Directive::Clock(_)
        | Directive::Settle(_)
        | Directive::Take { .. }
        | Directive::Compact(_) => None,
    }
}

fn unless_worker(w: u64, cluster: &Cluster) -> Option<LineKind>
    ensures { result ≡ unless_worker w cluster.now.state }
{
    if w < u64::from(cluster.workers()) {
        None
    } else {
        Some(LineKind::NoWorker)
    }
}

fn unless_instance(i: u64, cluster: &Cluster) -> Option<LineKind>
    ensures { result ≡ unless_instance i cluster.now.state }
{
    if i < cluster.instances() {
        None
    } else {
        Some(LineKind::NoInstance)
    }
}
