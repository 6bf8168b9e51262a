// A frame that is put behind a closed gate.
ghost use Rattle.std.specs.Prelude.{◌≡◌, ◌≤◌, ◌<◌, ◌+◌, ◌^◌, List, ℕ, Some, [], ◌∷◌, ◌++◌, length, take, OnOk, OnErr};
ghost use Rattle.std.specs.Prelude.{is_some, option_map, vec_capacity};
ghost use Rattle.cw_disk.specs.Told.{Adds, Told};
ghost use Rattle.cw_disk.specs.Disk.{Only};
ghost use Rattle.cw_types.specs.Faults.{Rose};
ghost use Rattle.cw_log.specs.Calls.{IsGated};
ghost use Rattle.cw_log.specs.Log.{field};

use crate::calls::open_gate;
use cw_disk::{Disk, Failed};

// The length, the body and a closed gate, in the room that is there.
#[tactic(auto, unfolding(crate::specs::Log::field))]
fn fill(tail: &mut Vec<u8>, body: &[u8])
    requires few { length body.now < 2 ^ 32 }
    requires room { length body.now + 5 ≤ vec_capacity tail.old }
    ensures bytes { tail.new.items ≡ field body.now ++ 0 ∷ [] }
    ensures size { length tail.new.items ≡ length body.now + 5 }
{
    tail.clear();
    let Ok(()) = tail.extend_from_slice(&(body.len() as u32).to_be_bytes()) else {
        unreachable!()
    };
    let Ok(()) = tail.extend_from_slice(body) else {
        unreachable!()
    };
    let Ok(()) = tail.push(0) else { unreachable!() };
}

// Puts the frame of this body behind the closed gate, which is the last byte, and opens the gate.
pub(crate) fn write_frame<D: Disk>(
    disk: &mut D,
    gate: u64,
    tail: &mut Vec<u8>,
    body: &[u8],
) -> Result<(), Failed>
    requires start { Told D.Disk disk.old (λ file. gate + 1 ≡ length file) }
    requires settled { Told D.Disk disk.old (λ file. Only file (D.may_leave disk.old)) }
    requires few { length body.now < 2 ^ 32 }
    requires frame { length body.now + 5 ≤ vec_capacity tail.old }
    requires bytes { gate + 1 + (length body.now + 5) ≤ D.reserved disk.old }
    requires fits { gate + 1 + (length body.now + 5) < 2 ^ 64 }
    ensures done { OnOk result (D.holds disk.new ≡ option_map
        (λ file. take gate file ++ 1 ∷ (field body.now ++ 0 ∷ [])) (D.holds disk.old)) }
    ensures durable { OnOk result (Told D.Disk disk.new (λ file. Only file (D.may_leave disk.new))) }
    ensures told { is_some (D.holds disk.new) ≡ is_some (D.holds disk.old) }
    ensures left { Told D.Disk disk.old (λ file. (image : List ℕ) → D.may_leave disk.new image →
        IsGated gate file (field body.now ++ 0 ∷ []) image) }
    ensures adds { Told D.Disk disk.old
        (λ file. Adds D.Disk disk.old disk.new (IsGated gate file (field body.now ++ 0 ∷ []))) }
    ensures later { D.count disk.old ≤ D.count disk.new }
    ensures cause { OnErr result (Rose (D.count disk.old) (D.count disk.new)) }
{
    fill(tail, body);
    open_gate(disk, gate, tail)
}
