//! Drives a script over a world and an outlet.
ghost use Rattle.std.specs.Prelude.{◌≡◌, ◌≤◌, [], Some, is_some};
ghost use Rattle.cw_types.specs.Faults.{Rose};
ghost use Rattle.cw_lines.specs.Due.{DrivesOver};
ghost use Rattle.cw_lines.specs.Players.{NoneFell, Caused, player_of};
ghost use Rattle.cw_world.specs.Ending.{disks_of};
ghost use Rattle.cw_run.specs.Rules.{drive_rules};
ghost use Rattle.cw_cluster.specs.Breaking.{IsAlive, ran_of};
ghost use Rattle.cw_cluster.specs.Driven.{IsLeft, IsLeftBroken, faults_at, faults_of};

use crate::begun::Begun;
use crate::player::Player;
use crate::running::Running;
use cw_disk::{Disk, Disks};
use cw_io::{Outlet, Sink, Source};
use cw_lines::{DriveEnd, drive_lines};
use cw_world::World;
use std::alloc::Global;
use std::marker::Brand;

/// What a driven script leaves.
pub struct Driven<D, U> {
    /// How it ended.
    pub end: DriveEnd,
    /// The eight disks.
    pub disks: Disks<D>,
    /// The outlet.
    pub outlet: U,
}

/// Plays the script that the input holds over a world and an outlet: each line does to the cluster what its run says,
/// and the answers to all lines that were read are written before more is read. At the end the disks hold the cluster
/// that is left, whatever a stop leaves of them, and the outlet has what its sinks' tasks handed out.
pub fn drive<D: Disk, I: Source, O: Sink, U: Outlet>(
    alloc: Global,
    world: World<D>,
    outlet: U,
    input: &mut I,
    output: &mut O,
) -> Driven<D, U>
    requires alive { IsAlive D.Disk world }
    ensures drives { DrivesOver I.Source O.Sink (player_of drive_rules world.setting) (drive_rules.amid world.setting)
        result.end (ran_of D.Disk U.Outlet world outlet) input.old input.new output.old output.new
        (IsLeft D.Disk U.Outlet result.disks result.outlet)
        (IsLeftBroken D.Disk U.Outlet world.setting result.disks result.outlet) }

    // A script without a byte changes nothing.
    ensures idle { I.left input.old ≡ Some [] → (result.disks ≡ disks_of world.logs) × (result.outlet ≡ outlet) }
    ensures caused { Caused (Rose (I.faults input.old) (I.faults input.new))
        (Rose (O.faults output.old) (O.faults output.new)) (faults_of D.Disk U.Outlet world outlet)
        (faults_at D.Disk U.Outlet result.disks result.outlet) result.end }
    ensures later { NoneFell (faults_of D.Disk U.Outlet world outlet)
        (faults_at D.Disk U.Outlet result.disks result.outlet) }
    ensures later_in { I.faults input.old ≤ I.faults input.new }
    ensures later_out { O.faults output.old ≤ O.faults output.new }
    ensures told { is_some (U.files result.outlet) ≡ is_some (U.files outlet) }
{
    drive_begun::<Brand, D, I, O, U>(alloc, world, outlet, input, output)
}

// The same, where it is known what the cluster is set to and whether the outlet tells its files.
fn drive_begun<K: Begun, D: Disk, I: Source, O: Sink, U: Outlet>(
    alloc: Global,
    world: World<D>,
    outlet: U,
    input: &mut I,
    output: &mut O,
) -> Driven<D, U>
    requires setting { world.setting ≡ K.setting }
    requires told { is_some (U.files outlet) ≡ K.told }
    requires alive { IsAlive D.Disk world }
    ensures drives { DrivesOver I.Source O.Sink (player_of drive_rules world.setting) (drive_rules.amid world.setting)
        result.end (ran_of D.Disk U.Outlet world outlet) input.old input.new output.old output.new
        (IsLeft D.Disk U.Outlet result.disks result.outlet)
        (IsLeftBroken D.Disk U.Outlet world.setting result.disks result.outlet) }
    ensures idle { I.left input.old ≡ Some [] → (result.disks ≡ disks_of world.logs) × (result.outlet ≡ outlet) }
    ensures caused { Caused (Rose (I.faults input.old) (I.faults input.new))
        (Rose (O.faults output.old) (O.faults output.new)) (faults_of D.Disk U.Outlet world outlet)
        (faults_at D.Disk U.Outlet result.disks result.outlet) result.end }
    ensures later { NoneFell (faults_of D.Disk U.Outlet world outlet)
        (faults_at D.Disk U.Outlet result.disks result.outlet) }
    ensures later_in { I.faults input.old ≤ I.faults input.new }
    ensures later_out { O.faults output.old ≤ O.faults output.new }
    ensures told { is_some (U.files result.outlet) ≡ is_some (U.files outlet) }
{
    let running: Running<K, D, U> = Running::new(alloc, world, outlet);
    let mut player = Player::new(running);
    let end = drive_lines(alloc, &mut player, input, output);
    let Player {
        running,
        answers: _,
    } = player;
    let (disks, outlet) = running.give_back();
    Driven { end, disks, outlet }
}
