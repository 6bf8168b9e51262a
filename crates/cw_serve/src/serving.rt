//! The server.
ghost use Rattle.std.specs.Prelude.{◌≡◌, ◌+◌, ◌≤◌, ◌⊎◌, ℕ, [], length, true, None, Some};
ghost use Rattle.cw_types.specs.Faults.{Rose};
ghost use Rattle.cw_types.specs.declared.logs.DiskName.{DiskName};
ghost use Rattle.cw_desk.specs.declared.comparing.Disagree.{Disagree};
ghost use Rattle.cw_desk.specs.Comparing.{AreTheJournal};
ghost use Rattle.cw_cluster.specs.Breaking.{IsAlive};
ghost use Rattle.cw_run.specs.Reaches.{HaveNames};
ghost use Rattle.cw_turns.specs.Going.{GoesOn, start_of};
ghost use Rattle.cw_serve.specs.Starting.{AreServed};
ghost use Rattle.cw_serve.specs.Serving.{IsAgreed, Differs};
ghost use Rattle.cw_serve.specs.Talking.{HaveTalked};

use crate::ends::{ServeEnd, Served};
use crate::named::{Given, serve_named, unserved};
use crate::sizes::Sizes;
use cw_board::History;
use cw_disk::Disk;
use cw_feed::Feeds;
use cw_io::Outlet;
use cw_line::{Opened, open_line};
use cw_net::{Clock, Gate, Listener};
use cw_world::World;
use std::alloc::Global;
use std::marker::Brand;
use std::sync::Wait;
use std::sync::ledger::Blank;
use std::thread::Threads;

/// Serves Kafka Connect's REST API over the links of a listener, while the workers' herders tick and their tasks run,
/// each in a thread of its own. It ends behind so many connections, or where the listener ends or fails. Where a disk
/// or the outlet fails, or herders or tasks want memory, these end before, and calls are answered on. Over each link
/// that was accepted there is one connection, and the entries of all connections are those of the receipts. The feeds
/// are those of the world, loaded again. A server that can't begin for want of memory gives all back.
#[tactic(auto, using(crate::proofs::Begun::begun))]
pub fn serve<R, D, U, N, C, G>(
    rt: &R,
    alloc: Global,
    world: World<D>,
    feeds: Feeds,
    sizes: Sizes,
    outlet: U,
    net: N,
    clock: C,
    gate: &G,
) -> Served<D, U, N>
where
    R: Threads + Wait + std::rt::Clock + Sync,
    D: Disk + Send,
    U: Outlet + Send,
    N: Listener,
    C: Clock + Send + Drop,
    G: Gate + Sync,
    requires fresh { (world.state.rows ≡ []) × (world.state.journal ≡ []) }
    requires alive { IsAlive D.Disk world }
    requires names { HaveNames world.setting }
    requires sizes { AreServed sizes }
    ensures goes_on { GoesOn D.Disk (start_of D.Disk world) result.world }
    ensures ledger { IsAgreed result.end → AreTheJournal result.world.state.journal result.receipts.items }
    ensures differs { (d : Disagree) → result.end ≡ ServeEnd.Disagree d → Differs result.world d }
    ensures done { result.end ≡ ServeEnd.Done → (result.world.state.closed ≡ None) ×
        ((length (N.given result.net) ≡ length (N.given net) + sizes.conns) ⊎ (N.ended result.net ≡ true)) }
    ensures talked { HaveTalked N.Listener N.Link.Link (IsAgreed result.end) net result.net result.receipts.items }
    ensures given { length (N.given net) ≤ length (N.given result.net) }
    ensures most { length (N.given result.net) ≤ length (N.given net) + sizes.conns }
    ensures store { (disk : DiskName) (count : ℕ) → result.end ≡ ServeEnd.StoreFault disk count →
        result.world.state.closed ≡ Some (disk, count) }
    ensures closed { (disk : DiskName) (count : ℕ) → result.world.state.closed ≡ Some (disk, count) →
        IsAgreed result.end → result.end ≡ ServeEnd.StoreFault disk count }
    ensures outlet_fault { result.end ≡ ServeEnd.OutletFault → Rose (U.faults outlet) (U.faults result.outlet) }
    ensures net_fault { result.end ≡ ServeEnd.NetFault → Rose (N.faults net) (N.faults result.net) }
    ensures later_outlet { U.faults outlet ≤ U.faults result.outlet }
    ensures later_net { N.faults net ≤ N.faults result.net }
{
    let Ok(opened) = open_line::<N::Link>(alloc, sizes.conns) else {
        return unserved(alloc, world, outlet, net);
    };
    let Opened { line, pass } = opened;
    let blank = Blank::new(u64::from(sizes.handlers) + 2);
    let given = Given {
        world,
        feeds,
        sizes,
        outlet,
        net,
        clock,
    };
    serve_named::<Brand, R, D, U, N, C, G>(
        rt,
        alloc,
        given,
        gate,
        blank,
        &line,
        pass,
        History::new(),
    )
}
