//! A turn of the desk for a call whose reply was read from a published view: its entry is kept in the journal.
ghost use Rattle.std.specs.Prelude.{◌≡◌, ◌++◌, [], ◌∷◌, true, ℕ, length, IfOk, OnErr};
ghost use Rattle.cw_model.specs.Grows.{Grows};
ghost use Rattle.cw_model.specs.Journal.{IsTrueEntry, MayJournal};
ghost use Rattle.cw_model.specs.Lookups.{row_of};
ghost use Rattle.cw_desk.specs.Turns.{Keeps};
ghost use Rattle.cw_turns.specs.Going.{Start, GoesOn};

use cw_disk::Disk;
use cw_model::JournalEntry;
use cw_world::{Receipt, World};
use std::alloc::AllocError;

/// An entry that was read from a published view, and is true of this world, is kept in the journal. The only error is
/// want of memory, which keeps nothing.
pub fn keep_seen<D: Disk>(world: &mut World<D>, entry: JournalEntry) -> Result<Receipt, AllocError>
    requires board { entry.board ≡ true }
    requires holds { IsTrueEntry world.old.setting world.old.state world.old.state.journal entry }
    ensures keeps { Keeps entry world.old world.new result }
    ensures goes_on { (start : Start) → GoesOn D.Disk start world.old → GoesOn D.Disk start world.new }
    ensures asked { IfOk result (λ receipt. receipt.entry ≡ entry) }
    ensures shows { IfOk result (λ receipt. (receipt.number ≡ length world.old.state.journal) ×
        (receipt.name ≡ world.old.name)) }
    ensures kept { IfOk result (λ receipt. world.new.state.journal ≡ world.old.state.journal ++ receipt.entry ∷ []) }
    ensures unkept { OnErr result (world.new.state.journal ≡ world.old.state.journal) }
    ensures grows { Grows world.old.state world.new.state }
    ensures live { (v : ℕ) → (row_of v world.new.state).live ≡ (row_of v world.old.state).live }
    ensures same { (world.new.setting ≡ world.old.setting) × (world.new.name ≡ world.old.name) }
{
    keep(world, entry)
}

// An entry that may be kept is.
fn keep<D: Disk>(world: &mut World<D>, entry: JournalEntry) -> Result<Receipt, AllocError>
    requires { MayJournal world.old.setting entry world.old.state }
    ensures { Keeps entry world.old world.new result }
{
    match world.journal(entry) {
        Ok(receipt) => Ok(receipt),
        Err(_) => Err(AllocError),
    }
}
