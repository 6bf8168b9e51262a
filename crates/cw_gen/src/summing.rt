//! What the run of a whole script comes to.
ghost use Rattle.std.specs.Prelude.{◌≡◌, ◌≤◌, ◌<◌, ◌^◌, [], true, IfOk, IfErr, is_some, codes, length};
ghost use Rattle.cw_types.specs.declared.logs.DiskName.{DiskName};
ghost use Rattle.cw_model.specs.Cases.{empty_cluster};
ghost use Rattle.cw_model.specs.Facts.{AreFacts};
ghost use Rattle.cw_model.specs.Reopening.{stored_of};
ghost use Rattle.cw_open.specs.Leaving.{LeaveLists};
ghost use Rattle.cw_open.specs.Reopened.{disk_in};
ghost use Rattle.cw_cluster.specs.Breaking.{IsAlive, tell_all};
ghost use Rattle.cw_gen.specs.Counts.{committed_count};
ghost use Rattle.cw_gen.specs.Playing.{AreBehind, AreSums, EndsSo};
ghost use Rattle.cw_gen.specs.Scripts.{making, run_of, setting_of};

use crate::commits::count_commits;
use crate::making::{Unfinished, make};
use crate::nowhere::Nowhere;
use crate::opening::open;
use crate::records::count_records;
use crate::steady_disk::SteadyDisk;
use cw_cluster::{Begun, Player, Running};
use cw_disk::{Disk, Disks};
use cw_io::Outlet;
use cw_types::{Name, NameFault};
use cw_world::World;
use std::alloc::{AllocError, Global};
use std::marker::Brand;

/// What a run came to.
#[derive(Clone, Copy, Drop)]
pub(crate) struct Sums {
    /// The transactions that were committed.
    pub(crate) commits: u64,
    /// The answers that a step was fenced.
    pub(crate) fenced: u64,
    /// The committed records.
    pub(crate) records: u64,
}

/// What is behind a script.
pub(crate) struct Behind<D> {
    pub(crate) disks: Disks<D>,
    pub(crate) fenced: u64,
    pub(crate) records: u64,
}

/// Makes a script of so many directives from a number on, and sums up its run over empty disks in memory.
pub(crate) fn sum_up(
    alloc: Global,
    start: u64,
    count: u64,
    group: Name,
    delay: u64,
) -> Result<Sums, Unfinished>
    requires { count ≤ 1000000 }
    ensures sums { IfOk result (AreSums (setting_of group delay) start count) }
    ensures ends { IfErr result (EndsSo (run_of (setting_of group delay)
        (making (setting_of group delay) start count).lines)) }
{
    let topic = topic(alloc)?;
    let world = open(alloc, empty_disks(alloc), group, delay)?;
    let behind = play_all::<Brand, SteadyDisk, Nowhere>(
        alloc, world, Nowhere, &topic, start, count,
    )?;
    let Behind {
        disks,
        fenced,
        records,
    } = behind;
    let Disks {
        config_a,
        config_b,
        offsets_a,
        offsets_b,
        status_a,
        status_b,
        txn,
        batches,
    } = disks;
    drop((config_a, config_b, offsets_a, offsets_b));
    drop((status_a, status_b, batches));
    let commits = count_commits(alloc, txn)?;
    Ok(Sums {
        commits,
        fenced,
        records,
    })
}

// Eight disks without a byte.
fn empty_disks(alloc: Global) -> Disks<SteadyDisk>
    ensures { (name : DiskName) → (disk_in name result).held.bytes.items ≡ [] }
{
    Disks {
        config_a: SteadyDisk::new(alloc),
        config_b: SteadyDisk::new(alloc),
        offsets_a: SteadyDisk::new(alloc),
        offsets_b: SteadyDisk::new(alloc),
        status_a: SteadyDisk::new(alloc),
        status_b: SteadyDisk::new(alloc),
        txn: SteadyDisk::new(alloc),
        batches: SteadyDisk::new(alloc),
    }
}

// Plays the script over an empty cluster, and looks at what it leaves.
fn play_all<K: Begun, D: Disk + Drop, U: Outlet + Drop>(
    alloc: Global,
    world: World<D>,
    outlet: U,
    topic: &Name,
    start: u64,
    count: u64,
) -> Result<Behind<D>, Unfinished>
    requires setting { world.setting ≡ K.setting }
    requires told { is_some (U.files outlet) ≡ K.told }
    requires steady { (disk : D) → D.count disk ≡ 0 }
    requires lasting { (outlet : U) → U.faults outlet ≡ 0 }
    requires few { count ≤ 1000000 }
    requires no_feeds { world.setting.feeds ≡ [] }
    requires state { world.state ≡ empty_cluster }
    requires alive { IsAlive D.Disk world }
    requires tells { tell_all D.Disk world.logs ≡ true }
    requires topic { topic.now ≡ codes "t" }
    ensures behind { IfOk result (AreBehind D.Disk world.setting start count) }
    ensures ends { IfErr result (EndsSo (run_of world.setting (making world.setting start count).lines)) }
{
    let running: Running<K, D, U> = Running::new(alloc, world, outlet);
    play_over(alloc, Player::new(running), topic, start, count)
}

// The same of a player over that cluster, which has answered nothing.
fn play_over<K: Begun, D: Disk + Drop, U: Outlet + Drop>(
    alloc: Global,
    player: Player<K, D, U>,
    topic: &Name,
    start: u64,
    count: u64,
) -> Result<Behind<D>, Unfinished>
    requires steady { (disk : D) → D.count disk ≡ 0 }
    requires lasting { (outlet : U) → U.faults outlet ≡ 0 }
    requires few { count ≤ 1000000 }
    requires no_feeds { player.running.world.setting.feeds ≡ [] }
    requires state { player.running.world.state ≡ empty_cluster }
    requires alive { IsAlive D.Disk player.running.world }
    requires tells { tell_all D.Disk player.running.world.logs ≡ true }
    requires silent { player.answers ≡ [] }
    requires topic { topic.now ≡ codes "t" }
    ensures behind { IfOk result (AreBehind D.Disk player.running.world.setting start count) }
    ensures ends { IfErr result (EndsSo (run_of player.running.world.setting
        (making player.running.world.setting start count).lines)) }
{
    let mut player = player;
    match make(alloc, &mut player, start, count) {
        Ok(fenced) => Ok(look(player, fenced, topic)),
        Err(why) => {
            drop(player.into_running().give_back());
            Err(why)
        }
    }
}

// Looks at what a script left that came to its end.
fn look<K: Begun, D: Disk + Drop, U: Outlet + Drop>(
    player: Player<K, D, U>,
    fenced: u64,
    topic: &Name,
) -> Behind<D>
    requires alive { IsAlive D.Disk player.running.world }
    requires tells { tell_all D.Disk player.running.world.logs ≡ true }
    requires topic { topic.now ≡ codes "t" }
    ensures fenced { result.fenced ≡ fenced }
    ensures records { result.records ≡ committed_count (codes "t") player.running.world.state.entries
        player.running.world.state.batches }
    ensures disks { LeaveLists D.Disk result.disks (stored_of player.running.world.state) }
    ensures facts { AreFacts player.running.world.setting player.running.world.state }
    ensures few { length player.running.world.state.entries < 2 ^ 64 }
{
    player.world().is_safe();
    let cluster = player.world().cluster();
    // Each of the entries has a place that is a u64.
    let _length = cluster.coordinator().length();
    let records = count_records(cluster.data_state(), cluster.coordinator(), topic);
    let (disks, _outlet) = player.into_running().give_back();
    Behind {
        disks,
        fenced,
        records,
    }
}

// The topic of the source.
fn topic(alloc: Global) -> Result<Name, AllocError>
    ensures { IfOk result (λ name. name ≡ codes "t") }
{
    match Name::read(alloc, b"t") {
        Ok(name) => Ok(name),
        Err(NameFault::Memory) => Err(AllocError),
        Err(NameFault::Empty | NameFault::TooLong | NameFault::BadByte(_)) => unreachable!(),
    }
}
