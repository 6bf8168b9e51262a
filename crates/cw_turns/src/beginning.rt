//! A server begins: its workers come.
ghost use Rattle.std.specs.Prelude.{◌≡◌, ◌≤◌, ◌<◌, ◌++◌, ◌∷◌, [], true, ℕ, length, None, OnOk, IfErr};
ghost use Rattle.cw_model.specs.declared.fault.WorldFault.TheVariants.{Memory};
ghost use Rattle.cw_model.specs.Lookups.{row_of, new_row};
ghost use Rattle.cw_turns.specs.Going.{Start, GoesOn};

use cw_disk::Disk;
use cw_model::WorldFault;
use cw_world::World;

/// So many workers come to a cluster that has none. Its only error is want of memory, behind which some of them may
/// have come.
pub fn begin<D: Disk>(world: &mut World<D>, workers: u32) -> Result<(), WorldFault>
    requires fresh { world.old.state.rows ≡ [] }
    requires alive { world.old.state.closed ≡ None }
    requires most { workers ≤ 64 }
    ensures goes_on { (start : Start) → GoesOn D.Disk start world.old → GoesOn D.Disk start world.new }
    ensures journal { world.new.state.journal ≡ world.old.state.journal }
    ensures alive { world.new.state.closed ≡ None }
    ensures same { (world.new.setting ≡ world.old.setting) × (world.new.name ≡ world.old.name) }
    ensures live { OnOk result ((w : ℕ) → w < workers → (row_of w world.new.state).live ≡ true) }
    ensures rows { OnOk result (length world.new.state.rows ≡ workers) }
    ensures wants { IfErr result (λ fault. fault ≡ Memory) }
{
    for w in 0..workers {
        come(world, w)?;
    }
    Ok(())
}

// One more worker comes, and gets the next number.
fn come<D: Disk>(world: &mut World<D>, w: u32) -> Result<(), WorldFault>
    requires alive { world.old.state.closed ≡ None }
    requires next { length world.old.state.rows ≡ w }
    requires most { w < 64 }
    ensures goes_on { (start : Start) → GoesOn D.Disk start world.old → GoesOn D.Disk start world.new }
    ensures journal { world.new.state.journal ≡ world.old.state.journal }
    ensures alive { world.new.state.closed ≡ None }
    ensures same { (world.new.setting ≡ world.old.setting) × (world.new.name ≡ world.old.name) }
    ensures rows { OnOk result (world.new.state.rows ≡ world.old.state.rows ++ new_row ∷ []) }
    ensures wants { IfErr result (λ fault. fault ≡ Memory) }
{
    world.is_safe();
    match world.spawn() {
        Ok(_) => Ok(()),
        Err(fault) => Err(fault),
    }
}
