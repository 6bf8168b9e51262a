//! A turn of the desk: a call is answered, and kept in the journal.
ghost use Rattle.std.specs.Prelude.{◌≡◌, ◌++◌, [], ◌∷◌, true, ℕ, length, IfOk, OnErr};
ghost use Rattle.cw_model.specs.Grows.{Grows};
ghost use Rattle.cw_model.specs.Lookups.{row_of};
ghost use Rattle.cw_desk.specs.Turns.{IsTurn};
ghost use Rattle.cw_turns.specs.Going.{Start, GoesOn};

use crate::closed::tell_closed;
use crate::naming::holds_name;
use cw_desk::turn;
use cw_disk::Disk;
use cw_route::Call;
use cw_world::{Receipt, World};
use std::alloc::{AllocError, Global};

/// A call through a worker that lives is answered and kept in the journal, as the desk does it. Where a disk has
/// failed it is told so at once, and no log is touched. The only error is want of memory, which keeps nothing; the call
/// may then have been done, or have stopped behind its write.
pub fn answer<D: Disk>(
    alloc: Global,
    world: &mut World<D>,
    w: u32,
    call: Call,
) -> Result<Receipt, AllocError>
    requires { (row_of w world.old.state).live ≡ true }
    ensures turn { IsTurn D.Disk w call world.old world.new result }
    ensures goes_on { (start : Start) → GoesOn D.Disk start world.old → GoesOn D.Disk start world.new }
    ensures asked { IfOk result (λ receipt. (receipt.entry.worker ≡ w) × (receipt.entry.call ≡ call)) }
    ensures shows { IfOk result (λ receipt. (receipt.number ≡ length world.old.state.journal) ×
        (receipt.name ≡ world.old.name)) }
    ensures kept { IfOk result (λ receipt. world.new.state.journal ≡ world.old.state.journal ++ receipt.entry ∷ []) }
    ensures unkept { OnErr result (world.new.state.journal ≡ world.old.state.journal) }
    ensures grows { Grows world.old.state world.new.state }
    ensures live { (v : ℕ) → (row_of v world.new.state).live ≡ (row_of v world.old.state).live }
    ensures same { (world.new.setting ≡ world.old.setting) × (world.new.name ≡ world.old.name) }
{
    world.is_safe();
    take(alloc, world, w, call)
}

// The call is answered, and its entry kept.
fn take<D: Disk>(
    alloc: Global,
    world: &mut World<D>,
    w: u32,
    call: Call,
) -> Result<Receipt, AllocError>
    requires { (row_of w world.old.state).live ≡ true }
    ensures turn { IsTurn D.Disk w call world.old world.new result }
    ensures goes_on { (start : Start) → GoesOn D.Disk start world.old → GoesOn D.Disk start world.new }
{
    world.is_safe();
    holds_name(&call);
    match world.cluster().closed() {
        Some((disk, count)) => tell_closed(alloc, world, w, call, disk, count),
        None => turn(alloc, world, w, call),
    }
}
