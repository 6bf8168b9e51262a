//! The command `serve`: a cluster is opened, and a server runs over it.
ghost use Rattle.std.specs.Prelude.{◌≡◌, ◌≤◌, [], ℕ};
ghost use Rattle.cw_log.specs.declared.fault.Harm.{Harm};
ghost use Rattle.cw_open.specs.Judged.{HasFirstHarm};
ghost use Rattle.cw_open.specs.Reopened.{DiskFiles, FailedAt, NoneFell, TellAll};
ghost use Rattle.cw_types.specs.Faults.{Rose};
ghost use Rattle.cw_types.specs.declared.logs.DiskName.{DiskName};
ghost use Rattle.cw_words.specs.Asked.{IsServedInRange};
ghost use Rattle.cw_world.specs.Ending.{disks_of};
ghost use Rattle.cw_run.specs.Reaches.{HaveNames};
ghost use Rattle.cw_cluster.specs.Breaking.{IsAlive, tell_all};
ghost use Rattle.cw_serve.specs.Starting.{AreServed};
ghost use Rattle.cw_connect.specs.declared.status.Status.TheVariants.{StoreFault, Damaged, ShelfFault};
ghost use Rattle.cw_connect.specs.declared.status.Status.TheVariants.{OutletFault, NetFault};
ghost use Rattle.cw_connect.specs.Served.{IsServedOver, IsServeRun};

use crate::opening::open_cluster;
use crate::status::Status;
use crate::top::Outcome;
use cw_disk::{Disk, Disks};
use cw_feed::Feeds;
use cw_io::{Outlet, Shelf};
use cw_net::{Clock, Gate, Listener};
use cw_serve::{Served, Sizes, serve};
use cw_turns::give_back;
use cw_words::ServeOptions;
use cw_world::{Journal, World};
use std::alloc::Global;
use std::sync::Wait;
use std::thread::Threads;

/// Loads the feeds, once for the task runners and once for the cluster, opens the disks, and serves the links that the
/// listener gives.
pub(crate) fn open_and_serve<R, D, H, U, N, C, G>(
    rt: &R,
    alloc: Global,
    options: ServeOptions,
    disks: Disks<D>,
    shelf: &mut H,
    outlet: U,
    net: N,
    clock: C,
    gate: &G,
) -> Outcome<D, U, N>
where
    R: Threads + Wait + std::rt::Clock + Sync,
    D: Disk + Send,
    H: Shelf,
    U: Outlet + Send,
    N: Listener,
    C: Clock + Send + Drop,
    G: Gate + Sync,
    requires ranges { IsServedInRange options }
    ensures runs { IsServeRun D.Disk H.Shelf N.Listener N.Link.Link options result.status shelf.old disks
        result.disks outlet result.outlet net result.net result.journal result.receipts.items }
    ensures damaged_only { (disk : DiskName) (at : ℕ) (harm : Harm) → result.status ≡ Damaged disk at harm →
        (files : DiskFiles) → TellAll D.Disk disks files → HasFirstHarm files disk at harm }
    ensures store_fault { (disk : DiskName) (count : ℕ) → result.status ≡ StoreFault disk count →
        FailedAt D.count disks result.disks disk count }
    ensures shelf_fault { result.status ≡ ShelfFault → Rose (H.faults shelf.old) (H.faults shelf.new) }
    ensures outlet_fault { result.status ≡ OutletFault → Rose (U.faults outlet) (U.faults result.outlet) }
    ensures net_fault { result.status ≡ NetFault → Rose (N.faults net) (N.faults result.net) }
    ensures later_shelf { H.faults shelf.old ≤ H.faults shelf.new }
    ensures later_outlet { U.faults outlet ≤ U.faults result.outlet }
    ensures later_net { N.faults net ≤ N.faults result.net }
    ensures later_disks { NoneFell D.Disk disks result.disks }
{
    let sizes = sizes_of(&options);
    match Feeds::load(alloc, shelf) {
        Ok(feeds) => match open_cluster(alloc, options.shared, disks, shelf) {
            Ok(world) => serve_opened(rt, alloc, world, feeds, sizes, outlet, net, clock, gate),
            Err(refusal) => Outcome {
                status: refusal.status,
                disks: refusal.disks,
                outlet,
                net,
                journal: Journal::none(),
                receipts: Vec::new(alloc),
            },
        },
        Err(fault) => Outcome {
            status: Status::of_shelf(fault),
            disks,
            outlet,
            net,
            journal: Journal::none(),
            receipts: Vec::new(alloc),
        },
    }
}

// How many workers, threads and connections the words ask for.
fn sizes_of(options: &ServeOptions) -> Sizes
    ensures { result ≡ record {
      workers = options.now.workers;
      runners = options.now.runners;
      handlers = options.now.handlers;
      conns = options.now.conns;
    } }
{
    Sizes {
        workers: options.workers,
        runners: options.runners,
        handlers: options.handlers,
        conns: options.conns,
    }
}

// Serves the links that the listener gives over a cluster that was opened.
fn serve_opened<R, D, U, N, C, G>(
    rt: &R,
    alloc: Global,
    world: World<D>,
    feeds: Feeds,
    sizes: Sizes,
    outlet: U,
    net: N,
    clock: C,
    gate: &G,
) -> Outcome<D, U, N>
where
    R: Threads + Wait + std::rt::Clock + Sync,
    D: Disk + Send,
    U: Outlet + Send,
    N: Listener,
    C: Clock + Send + Drop,
    G: Gate + Sync,
    requires alive { IsAlive D.Disk world }
    requires fresh { (world.state.rows ≡ []) × (world.state.journal ≡ []) }
    requires names { HaveNames world.setting }
    requires sizes { AreServed sizes }
    ensures over { IsServedOver D.Disk N.Listener N.Link.Link sizes.conns world.setting world.state
        (tell_all D.Disk world.logs) result.status result.disks net result.net result.journal result.receipts.items }
    ensures store_fault { (disk : DiskName) (count : ℕ) → result.status ≡ StoreFault disk count →
        FailedAt D.count (disks_of world.logs) result.disks disk count }
    ensures outlet_fault { result.status ≡ OutletFault → Rose (U.faults outlet) (U.faults result.outlet) }
    ensures net_fault { result.status ≡ NetFault → Rose (N.faults net) (N.faults result.net) }
    ensures later_outlet { U.faults outlet ≤ U.faults result.outlet }
    ensures later_net { N.faults net ≤ N.faults result.net }
    ensures later_disks { NoneFell D.Disk (disks_of world.logs) result.disks }
{
    let Served {
        world,
        outlet,
        net,
        receipts,
        end,
    } = serve(rt, alloc, world, feeds, sizes, outlet, net, clock, gate);
    let (disks, journal) = give_back(world);
    Outcome {
        status: Status::of_serve(end),
        disks,
        outlet,
        net,
        journal,
        receipts,
    }
}
