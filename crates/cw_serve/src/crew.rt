//! How the threads are started and joined.
ghost use Rattle.std.specs.Prelude.{◌≡◌, ◌+◌, ◌<◌, ◌≤◌, vec_len, vec_capacity, IfOk};
ghost use Rattle.cw_line.specs.Sides.{name_of};

use crate::cleaning::clean;
use crate::common::Common;
use crate::handling::{Handler, handle};
use crate::herding::herd;
use crate::naming::Begun;
use crate::running::run;
use cw_disk::Disk;
use cw_io::{Link, Outlet};
use cw_line::Line;
use cw_net::{Clock, Gate};
use std::alloc::{AllocError, Global};
use std::sync::Wait;
use std::thread::{JoinHandle, Scope, Threads, scope_env};
use std::{mem, thread};

// What a thread does that handles no connections.
#[derive(Clone, Copy, Debug, PartialEq, Eq, Drop)]
enum Job {
    Herder(u32),
    Runner(u32),
    Cleaner,
}

/// Handlers: those that wait to be started, and those that were joined, with room for all.
#[derive(Drop)]
pub struct Crew<J: Begun, L: Link> {
    pub waiting: Vec<Handler<J, L>>,
    pub done: Vec<Handler<J, L>>,
    pub ghost room: { vec_len waiting + vec_len done ≤ vec_capacity done },
}

impl<J: Begun, L: Link> Crew<J, L> {
    /// A crew of these handlers.
    pub fn new(alloc: Global, waiting: Vec<Handler<J, L>>) -> Result<Crew<J, L>, AllocError>
        ensures { IfOk result (λ crew. (vec_len crew.waiting ≡ vec_len waiting) × (vec_len crew.done ≡ 0)) }
    {
        Ok(Crew {
            done: Vec::with_capacity(alloc, waiting.len())?,
            waiting,
        })
    }

    // A crew of nobody.
    fn nobody(alloc: Global) -> Crew<J, L> {
        Crew {
            waiting: Vec::new(alloc),
            done: Vec::new(alloc),
        }
    }
}

// Handlers that run, and those that were joined. There is room for all of them in each list.
#[derive(Drop)]
struct Team<J: Begun, L: Link> {
    running: Vec<JoinHandle<Handler<J, L>>>,
    done: Vec<Handler<J, L>>,
    size: usize,
    ghost fits: { vec_len running + vec_len done ≤ size },
    ghost room: { (size ≤ vec_capacity running) × (size ≤ vec_capacity done) },
}

impl<J: Begun, L: Link> Team<J, L> {
    // Joins all that run.
    fn joined<R: Threads>(self, rt: &R) -> Vec<Handler<J, L>>
        ensures { vec_len result ≡ vec_len self.running + vec_len self.done }
    {
        let Team {
            mut running,
            mut done,
            size: _,
        } = self;
        while let Some(handle) = running.pop() {
            done.push_reserved(handle.join(rt));
        }
        done
    }
}

/// Starts all threads, and joins them: this ends once all links were accepted and none waits.
pub fn work_all<J, D, U, C, G, L, R, W>(
    rt: &R,
    alloc: Global,
    common: &Common<J, D, U, C, W>,
    gate: &G,
    line: &Line<L>,
    crew: &mut Crew<J, L>,
)
where
    J: Begun + Send + Sync,
    D: Disk + Send,
    U: Outlet + Send,
    C: Clock + Send,
    G: Gate + Sync,
    L: Link + Send + Drop,
    R: Threads + Wait + std::rt::Clock + Sync,
    W: Wait + Drop + Send,
    requires seat { name_of line.now ≡ J.table }
    ensures { vec_len crew.new.done ≡ vec_len crew.old.waiting + vec_len crew.old.done }
{
    let mine = mem::replace(crew, Crew::nobody(alloc));
    *crew = work_in_scope(rt, alloc, common, gate, line, mine);
}

// The same in a scope of its own.
fn work_in_scope<J, D, U, C, G, L, R, W>(
    rt: &R,
    alloc: Global,
    common: &Common<J, D, U, C, W>,
    gate: &G,
    line: &Line<L>,
    crew: Crew<J, L>,
) -> Crew<J, L>
where
    J: Begun + Send + Sync,
    D: Disk + Send,
    U: Outlet + Send,
    C: Clock + Send,
    G: Gate + Sync,
    L: Link + Send + Drop,
    R: Threads + Wait + std::rt::Clock + Sync,
    W: Wait + Drop + Send,
    requires seat { name_of line.now ≡ J.table }
    ensures { vec_len result.done ≡ vec_len crew.waiting + vec_len crew.done }
{
    thread::scope(
        scope_env(),
        rt,
        move |scope| -> Crew<J, L>
            requires { name_of line.now ≡ J.table }
            ensures { vec_len result.done ≡ vec_len crew.waiting + vec_len crew.done }
        {
            start_others(scope, rt, alloc, common, gate);
            start_handlers(scope, rt, alloc, common, line, crew)
        },
    )
}

// Starts the herders, the task runners and the cleaner. The scope joins them.
fn start_others<'s, E, J, D, U, C, G, R, W>(
    scope: &Scope<'s, E>,
    rt: &'s R,
    alloc: Global,
    common: &'s Common<J, D, U, C, W>,
    gate: &'s G,
)
where
    J: Begun + Send + Sync + 's,
    D: Disk + Send + 's,
    U: Outlet + Send + 's,
    C: Clock + Send + 's,
    G: Gate + Sync,
    R: Wait + std::rt::Clock + Sync,
    W: Wait + Drop + Send + 's,
{
    for w in 0..common.workers {
        start(scope, rt, alloc, common, gate, Job::Herder(w));
    }
    for runner in 0..common.runners {
        start(scope, rt, alloc, common, gate, Job::Runner(runner));
    }
    start(scope, rt, alloc, common, gate, Job::Cleaner);
}

// Starts one of these threads. Where none can be made, its work is done here.
fn start<'s, E, J, D, U, C, G, R, W>(
    scope: &Scope<'s, E>,
    rt: &'s R,
    alloc: Global,
    common: &'s Common<J, D, U, C, W>,
    gate: &'s G,
    job: Job,
)
where
    J: Begun + Send + Sync + 's,
    D: Disk + Send + 's,
    U: Outlet + Send + 's,
    C: Clock + Send + 's,
    G: Gate + Sync,
    R: Wait + std::rt::Clock + Sync,
    W: Wait + Drop + Send + 's,
{
    if let Err(refused) = scope.spawn(move || work(rt, alloc, common, gate, job)) {
        (refused.value)();
    }
}

// What such a thread does.
fn work<J: Begun, D: Disk, U: Outlet, C: Clock, G: Gate, R: Wait + std::rt::Clock, W: Wait + Drop>(
    rt: &R,
    alloc: Global,
    common: &Common<J, D, U, C, W>,
    gate: &G,
    job: Job,
) {
    match job {
        Job::Herder(w) => herd(rt, alloc, common, gate, w),
        Job::Runner(runner) => run(rt, alloc, common, gate, runner),
        Job::Cleaner => clean(rt, common, gate),
    }
}

// Starts the handlers that wait, and joins them. Where there is no memory for that, their work is done here.
fn start_handlers<'s, E, J, D, U, C, L, R, W>(
    scope: &Scope<'s, E>,
    rt: &'s R,
    alloc: Global,
    common: &'s Common<J, D, U, C, W>,
    line: &'s Line<L>,
    crew: Crew<J, L>,
) -> Crew<J, L>
where
    J: Begun + Send + Sync + 's,
    D: Disk + Send + 's,
    U: Outlet + Send + 's,
    C: Clock + Send + 's,
    L: Link + Send + Drop + 's,
    R: Threads + Wait + std::rt::Clock + Sync,
    W: Wait + Drop + Send + 's,
    requires seat { name_of line.now ≡ J.table }
    ensures { vec_len result.done ≡ vec_len crew.waiting + vec_len crew.done }
{
    let Crew { waiting, done } = crew;
    let size = waiting.len() + done.len();
    let done = match Vec::with_capacity(alloc, size) {
        Ok(running) => {
            let team = Team {
                running,
                done,
                size,
            };
            handle_in_threads(scope, rt, alloc, common, line, waiting, team)
        }
        Err(AllocError) => handle_here(rt, alloc, common, line, waiting, done),
    };
    let waiting = Vec::new(alloc);
    Crew { waiting, done }
}

// Starts a thread for each handler that waits, and joins all.
fn handle_in_threads<'s, E, J, D, U, C, L, R, W>(
    scope: &Scope<'s, E>,
    rt: &'s R,
    alloc: Global,
    common: &'s Common<J, D, U, C, W>,
    line: &'s Line<L>,
    mut waiting: Vec<Handler<J, L>>,
    mut team: Team<J, L>,
) -> Vec<Handler<J, L>>
where
    J: Begun + Send + Sync + 's,
    D: Disk + Send + 's,
    U: Outlet + Send + 's,
    C: Clock + Send + 's,
    L: Link + Send + Drop + 's,
    R: Threads + Wait + std::rt::Clock + Sync,
    W: Wait + Drop + Send + 's,
    requires seat { name_of line.now ≡ J.table }
    requires room { vec_len waiting + (vec_len team.running + vec_len team.done) ≤ team.size }
    ensures { vec_len result ≡ vec_len waiting + (vec_len team.running + vec_len team.done) }
{
    while let Some(handler) = waiting.pop() {
        start_handler(scope, rt, alloc, common, line, handler, &mut team);
    }
    team.joined(rt)
}

// Starts a handler. Where no thread can be made, its work is done here.
fn start_handler<'s, E, J, D, U, C, L, R, W>(
    scope: &Scope<'s, E>,
    rt: &'s R,
    alloc: Global,
    common: &'s Common<J, D, U, C, W>,
    line: &'s Line<L>,
    handler: Handler<J, L>,
    team: &mut Team<J, L>,
)
where
    J: Begun + Send + Sync + 's,
    D: Disk + Send + 's,
    U: Outlet + Send + 's,
    C: Clock + Send + 's,
    L: Link + Send + Drop + 's,
    R: Wait + std::rt::Clock + Sync,
    W: Wait + Drop + Send + 's,
    requires seat { name_of line.now ≡ J.table }
    requires room { vec_len team.old.running + vec_len team.old.done < team.old.size }
    ensures size { team.new.size ≡ team.old.size }
    ensures one { vec_len team.new.running + vec_len team.new.done ≡
        vec_len team.old.running + vec_len team.old.done + 1 }
{
    let Team {
        running,
        done,
        size: _,
    } = team;
    let job = move || -> Handler<J, L>
        requires { name_of line.now ≡ J.table }
    { handle(rt, alloc, common, line, handler) };
    match scope.spawn(job) {
        Ok(handle) => running.push_reserved(handle),
        Err(refused) => done.push_reserved((refused.value)()),
    }
}

// Does the work of all handlers here, one behind the other.
fn handle_here<J, D, U, C, L, R, W>(
    rt: &R,
    alloc: Global,
    common: &Common<J, D, U, C, W>,
    line: &Line<L>,
    mut waiting: Vec<Handler<J, L>>,
    mut done: Vec<Handler<J, L>>,
) -> Vec<Handler<J, L>>
where
    J: Begun,
    D: Disk,
    U: Outlet,
    L: Link + Drop,
    R: Wait + std::rt::Clock,
    W: Wait + Drop,
    requires seat { name_of line.now ≡ J.table }
    requires room { vec_len waiting + vec_len done ≤ vec_capacity done }
    ensures { vec_len result ≡ vec_len waiting + vec_len done }
{
    while let Some(handler) = waiting.pop() {
        done.push_reserved(handle(rt, alloc, common, line, handler));
    }
    done
}
