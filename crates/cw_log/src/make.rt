// How a log is made where there is none.
ghost use Rattle.std.specs.Prelude.{◌≡◌, ◌≤◌, ◌<◌, ◌+◌, ◌^◌, List, ℕ, Some, [], ◌∷◌, ◌++◌, length, OnOk, OnErr};
ghost use Rattle.std.specs.Prelude.{is_some, option_map};
ghost use Rattle.cw_disk.specs.Told.{Adds, Told};
ghost use Rattle.cw_disk.specs.Disk.{Only};
ghost use Rattle.cw_types.specs.Faults.{Rose};
ghost use Rattle.cw_log.specs.Log.{IsUnmade, StandsFor, header, new_log};

use crate::calls::{open_gate, put, shorten};
use cw_disk::{Disk, Failed};

// Leaves one byte 0 of an unmade file of this length.
pub(crate) fn clear<D: Disk>(disk: &mut D, size: u64) -> Result<(), Failed>
    requires length { Told D.Disk disk.old (λ file. size ≡ length file) }
    requires unmade { Told D.Disk disk.old (λ file. IsUnmade file) }
    requires settled { Told D.Disk disk.old (λ file. Only file (D.may_leave disk.old)) }
    requires room { 1 ≤ D.reserved disk.old }
    ensures done { OnOk result (D.holds disk.new ≡ option_map (λ file. 0 ∷ []) (D.holds disk.old)) }
    ensures durable { OnOk result (Told D.Disk disk.new (λ file. Only file (D.may_leave disk.new))) }
    ensures told { is_some (D.holds disk.new) ≡ is_some (D.holds disk.old) }
    ensures left { Told D.Disk disk.old (λ file. (image : List ℕ) → D.may_leave disk.new image → IsUnmade image) }
    ensures adds { Told D.Disk disk.old (λ file. Adds D.Disk disk.old disk.new IsUnmade) }
    ensures room { D.reserved disk.old ≤ D.reserved disk.new }
    ensures later { D.count disk.old ≤ D.count disk.new }
    ensures cause { OnErr result (Rose (D.count disk.old) (D.count disk.new)) }
{
    if size > 1 {
        return shorten(disk, 1);
    }
    put(disk, 0, &[0])
}

// The header behind its gate, of side number 1, and a closed gate.
#[tactic(auto, unfolding(crate::specs::Log::header))]
fn header_of(kind: u8) -> [u8; 16]
    ensures { result ≡ header kind 1 ++ 0 ∷ [] }
{
    [b'C', b'W', b'L', 1, kind, 0, 0, 0, 0, 0, 0, 0, 0, 0, 1, 0]
}

// Makes a log of no body of an unmade file of this length.
pub(crate) fn make<D: Disk>(disk: &mut D, kind: u8, size: u64) -> Result<(), Failed>
    requires length { Told D.Disk disk.old (λ file. size ≡ length file) }
    requires unmade { Told D.Disk disk.old (λ file. IsUnmade file) }
    requires settled { Told D.Disk disk.old (λ file. Only file (D.may_leave disk.old)) }
    requires room { 17 ≤ D.reserved disk.old }
    ensures done { OnOk result (D.holds disk.new ≡ option_map (λ file. new_log kind) (D.holds disk.old)) }
    ensures durable { OnOk result (Told D.Disk disk.new (λ file. Only file (D.may_leave disk.new))) }
    ensures told { is_some (D.holds disk.new) ≡ is_some (D.holds disk.old) }
    ensures left { Told D.Disk disk.old (λ file. (image : List ℕ) → D.may_leave disk.new image →
        StandsFor kind [] image) }
    ensures adds { Told D.Disk disk.old (λ file. Adds D.Disk disk.old disk.new (StandsFor kind [])) }
    ensures room { D.reserved disk.old ≤ D.reserved disk.new }
    ensures later { D.count disk.old ≤ D.count disk.new }
    ensures cause { OnErr result (Rose (D.count disk.old) (D.count disk.new)) }
{
    clear(disk, size)?;
    let tail = header_of(kind);
    open_gate(disk, 0, &tail)
}
