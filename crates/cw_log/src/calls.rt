// Calls of a disk, each with what it does to the images that a stop may leave.
ghost use Rattle.std.specs.Prelude.{◌≡◌, ◌≤◌, ◌<◌, ◌+◌, ◌-◌, ◌^◌, List, ℕ, Some, length, take, drop, min, IfOk, IfErr};
ghost use Rattle.std.specs.Prelude.{OnOk, OnErr, is_some, option_map, ◌++◌, ◌∷◌};
ghost use Rattle.cw_disk.specs.Told.{Adds, Reads, Told};
ghost use Rattle.cw_disk.specs.Disk.{Only, Torn, Cut, written};
ghost use Rattle.cw_types.specs.Faults.{Rose};
ghost use Rattle.cw_log.specs.Calls.{IsGated};
ghost use Rattle.cw_log.specs.State.{OnReadFault};

use crate::ReadFault;
use cw_disk::{Disk, Failed, Memory};

// From an `Ok` on a stop leaves what a read gives.
pub(crate) fn flush<D: Disk>(disk: &mut D) -> Result<(), Failed>
    ensures durable { OnOk result (Told D.Disk disk.old (λ file. Only file (D.may_leave disk.new))) }
    ensures reads { Reads D.Disk disk.old disk.new }
    ensures cause { OnErr result (Rose (D.count disk.old) (D.count disk.new)) }
{
    disk.sync()
}

pub(crate) fn length_of<D: Disk>(disk: &mut D) -> Result<u64, Failed>
    ensures length { IfOk result (λ n. Told D.Disk disk.old (λ file. n ≡ length file)) }
    ensures reads { Reads D.Disk disk.old disk.new }
    ensures cause { OnErr result (Rose (D.count disk.old) (D.count disk.new)) }
{
    disk.len()
}

// Fills `into` from `at` on, as far as the disk has bytes.
pub(crate) fn read<D: Disk>(disk: &mut D, at: u64, into: &mut [u8]) -> Result<usize, Failed>
    ensures within { IfOk result (λ n. n ≤ length into.old) }
    ensures bytes { IfOk result (λ n. Told D.Disk disk.old (λ file. (n ≡ min (length into.old) (length file - at)) ×
        (take n into.new ≡ take n (drop at file)))) }
    ensures reads { Reads D.Disk disk.old disk.new }
    ensures cause { OnErr result (Rose (D.count disk.old) (D.count disk.new)) }
{
    disk.read_at(at, into)
}

// Reads so many bytes from a place on, or fewer where the disk ends, in the place of what `into` held.
pub(crate) fn read_part<D: Disk>(
    disk: &mut D,
    at: u64,
    size: usize,
    into: &mut Vec<u8>,
) -> Result<(), ReadFault>
    ensures bytes { OnOk result (Told D.Disk disk.old (λ file. at + size ≤ length file → into.new.items ≡
        take size (drop at file))) }
    ensures reads { Reads D.Disk disk.old disk.new }
    ensures cause { IfErr result (OnReadFault (Rose (D.count disk.old) (D.count disk.new)) (Unit {0})) }
{
    into.resize(size, 0)?;
    let n = read(disk, at, into.as_mut_slice())?;
    into.truncate(n);
    Ok(())
}

// Takes the memory of writes up to this length.
pub(crate) fn prepare<D: Disk>(disk: &mut D, to: u64) -> Result<(), Memory>
    ensures room { OnOk result (to ≤ D.reserved disk.new) }
    ensures reads { Reads D.Disk disk.old disk.new }
    ensures count { D.count disk.new ≡ D.count disk.old }
{
    disk.reserve(to)
}

// A write and a sync over a disk on which nothing is pending.
pub(crate) fn put<D: Disk>(disk: &mut D, at: u64, from: &[u8]) -> Result<(), Failed>
    requires start { Told D.Disk disk.old (λ file. at ≤ length file) }
    requires settled { Told D.Disk disk.old (λ file. Only file (D.may_leave disk.old)) }
    requires room { at + length from.now ≤ D.reserved disk.old }
    ensures done { OnOk result (D.holds disk.new ≡ option_map (λ file. written file at from.now) (D.holds disk.old)) }
    ensures durable { OnOk result (Told D.Disk disk.new (λ file. Only file (D.may_leave disk.new))) }
    ensures told { is_some (D.holds disk.new) ≡ is_some (D.holds disk.old) }
    ensures left { Told D.Disk disk.old (λ file. (image : List ℕ) → D.may_leave disk.new image →
        Torn at (length from.now) file image) }
    ensures adds { Told D.Disk disk.old (λ file. Adds D.Disk disk.old disk.new (Torn at (length from.now) file)) }
    ensures room { D.reserved disk.old ≤ D.reserved disk.new }
    ensures later { D.count disk.old ≤ D.count disk.new }
    ensures cause { OnErr result (Rose (D.count disk.old) (D.count disk.new)) }
{
    disk.write_at(at, from)?;
    disk.sync()
}

// A cut and a sync over a disk on which nothing is pending.
pub(crate) fn shorten<D: Disk>(disk: &mut D, to: u64) -> Result<(), Failed>
    requires end { Told D.Disk disk.old (λ file. to ≤ length file) }
    requires settled { Told D.Disk disk.old (λ file. Only file (D.may_leave disk.old)) }
    ensures done { OnOk result (D.holds disk.new ≡ option_map (λ file. take to file) (D.holds disk.old)) }
    ensures durable { OnOk result (Told D.Disk disk.new (λ file. Only file (D.may_leave disk.new))) }
    ensures told { is_some (D.holds disk.new) ≡ is_some (D.holds disk.old) }
    ensures left { Told D.Disk disk.old (λ file. (image : List ℕ) → D.may_leave disk.new image → Cut to file image) }
    ensures adds { Told D.Disk disk.old (λ file. Adds D.Disk disk.old disk.new (Cut to file)) }
    ensures room { D.reserved disk.old ≤ D.reserved disk.new }
    ensures later { D.count disk.old ≤ D.count disk.new }
    ensures cause { OnErr result (Rose (D.count disk.old) (D.count disk.new)) }
{
    disk.cut(to)?;
    disk.sync()
}

// What stands behind a closed gate, which is the last byte, and then the gate open: two syncs.
pub(crate) fn open_gate<D: Disk>(disk: &mut D, gate: u64, tail: &[u8]) -> Result<(), Failed>
    requires start { Told D.Disk disk.old (λ file. gate + 1 ≡ length file) }
    requires settled { Told D.Disk disk.old (λ file. Only file (D.may_leave disk.old)) }
    requires room { gate + 1 + length tail.now ≤ D.reserved disk.old }
    requires fits { gate + 1 + length tail.now < 2 ^ 64 }
    ensures done { OnOk result (D.holds disk.new ≡ option_map
        (λ file. take gate file ++ 1 ∷ tail.now) (D.holds disk.old)) }
    ensures durable { OnOk result (Told D.Disk disk.new (λ file. Only file (D.may_leave disk.new))) }
    ensures told { is_some (D.holds disk.new) ≡ is_some (D.holds disk.old) }
    ensures left { Told D.Disk disk.old (λ file. (image : List ℕ) → D.may_leave disk.new image →
        IsGated gate file tail.now image) }
    ensures adds { Told D.Disk disk.old (λ file. Adds D.Disk disk.old disk.new (IsGated gate file tail.now)) }
    ensures room { D.reserved disk.old ≤ D.reserved disk.new }
    ensures later { D.count disk.old ≤ D.count disk.new }
    ensures cause { OnErr result (Rose (D.count disk.old) (D.count disk.new)) }
{
    put(disk, gate + 1, tail)?;
    put(disk, gate, &[1])
}
