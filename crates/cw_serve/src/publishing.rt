//! What each worker has read of the config log is put on the board.
ghost use Rattle.std.specs.Prelude.{◌≡◌, ◌≢◌, ◌<◌, ◌≤◌, ◌-◌, ℕ, take, drop, true, false, length, slice_index};
ghost use Rattle.cw_model.specs.Lookups.{row_of};
ghost use Rattle.cw_serve.specs.Boarding.{IsBoarded};

use crate::naming::Begun;
use cw_board::BoardWriter;
use cw_config::ConfigRecord;
use cw_disk::Disk;
use cw_topics::applied_of;
use cw_world::World;
use std::alloc::Global;
use std::sync::Wait;

/// How many records of the config log a worker has read.
pub fn read_of<D: Disk>(world: &World<D>, w: u32) -> u64
    requires { (row_of w world.now.state).live ≡ true }
    ensures { result ≡ (row_of w world.now.state).prefix }
{
    world.cluster().row_of(w).prefix
}

// The records of the config log from a place to another.
fn records_between<D: Disk>(world: &World<D>, from: u64, to: u64) -> &[ConfigRecord]
    requires from { from ≤ to }
    requires to { to ≤ length world.now.state.configs }
    ensures { result.now ≡ take (to - from) (drop from world.now.state.configs) }
{
    &world.cluster().config_records()[from as usize..to as usize]
}

// Puts on the board what a worker has read of the config log since, and all that was given before. It answers whether
// any of what was given isn't published then: memory may be wanting. It waits for the views that are out.
fn put_read<J: Begun, D: Disk, W: Wait + Drop>(
    alloc: Global,
    world: &World<D>,
    board: &mut BoardWriter<J, W>,
    given: &mut Vec<u64>,
    w: u32,
) -> bool
    requires worker { w < J.workers }
    requires live { (row_of w world.now.state).live ≡ true }
    requires boarded { IsBoarded J.workers board.old given.old.items true world.now.state }
    ensures boarded { IsBoarded J.workers board.new given.new.items result world.now.state }
    ensures all { result ≡ false → slice_index given.new.items w ≡ (row_of w world.now.state).prefix }
    ensures others { (v : ℕ) → v ≢ w → slice_index given.new.items v ≡ slice_index given.old.items v }
{
    world.is_safe();
    let at = w as usize;
    let from = given[at];
    let to = read_of(world, w);
    let Ok(applied) = applied_of(alloc, records_between(world, from, to)) else {
        return true;
    };
    match board.put(w, &applied) {
        Ok(_) => {
            given[at] = to;
            false
        }
        Err(fault) => {
            given[at] = from + fault.given;
            true
        }
    }
}

/// Puts it where there is something to be put: behind it what a worker has read is published, or it answers that not
/// all is which was given to the board.
pub fn publish_read<J: Begun, D: Disk, W: Wait + Drop>(
    alloc: Global,
    world: &World<D>,
    board: &mut BoardWriter<J, W>,
    given: &mut Vec<u64>,
    lacks: bool,
    w: u32,
) -> bool
    requires worker { w < J.workers }
    requires live { (row_of w world.now.state).live ≡ true }
    requires boarded { IsBoarded J.workers board.old given.old.items lacks world.now.state }
    ensures boarded { IsBoarded J.workers board.new given.new.items result world.now.state }
    ensures all { result ≡ false → slice_index given.new.items w ≡ (row_of w world.now.state).prefix }
    ensures others { (v : ℕ) → v ≢ w → slice_index given.new.items v ≡ slice_index given.old.items v }
{
    if !lacks && given[w as usize] == read_of(world, w) {
        return false;
    }
    put_read(alloc, world, board, given, w)
}
