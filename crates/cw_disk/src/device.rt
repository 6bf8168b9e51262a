// A disk as a log sees it.
ghost use Rattle.std.specs.Prelude.{◌≡◌, ◌≤◌, ◌<◌, ◌+◌, ◌-◌, ◌^◌, List, ℕ, [], ◌∷◌, Option, Some, length, take, drop};
ghost use Rattle.std.specs.Prelude.{min, IfOk, OnOk, OnErr, is_some, is_err, option_map};
ghost use Rattle.cw_disk.specs.Disk.{Only, Follows, Torn, Cut, IsFirstByte, written, GoesOn, Plan, GoesAsPlanned};
ghost use Rattle.cw_types.specs.Faults.{Rose};

use std::alloc::AllocError;
use thiserror::Error;

/// Want of memory, where it stands alone.
pub type Memory = AllocError;

/// A disk did not do what it was asked for. Its count of faults rose.
#[derive(Clone, Copy, Debug, PartialEq, Eq, Drop, Error)]
#[error("a disk did not do what it was asked for")]
pub struct Failed;

/// A disk: a row of bytes of which a stop of the machine may leave less than a read gives.
///
/// It has five meanings: what it holds, where it tells that; which images a stop at some moment may
/// leave; a count of faults that never falls; a reserved length; and which calls fail, where it tells
/// that. Only `reserve` takes memory.
pub trait Disk {
    /// The bytes that a read gives, where the disk tells them.
    ghost holds: { Self → Option (List ℕ) };

    /// The images that a stop at this moment may leave.
    ghost may_leave: { Self → List ℕ → Type 0 };

    /// The moment, as a number that doesn't fall.
    ghost moment: { Self → ℕ };

    /// The images that a stop at some moment from that one on may have left.
    ghost left_since: { Self → ℕ → List ℕ → Type 0 };

    /// The count of faults, which never falls. At its type's end it stands.
    ghost count: { Self → ℕ };

    /// The reserved length: a write that ends there or before takes no memory.
    ghost reserved: { Self → ℕ };

    /// Which calls fail, where the disk tells it: counted over all calls but `faults` and `reserve`.
    ghost plan: { Self → Option Plan };

    /// The count of faults.
    fn faults(&self) -> u64
        ensures { result ≡ count self.now };

    /// The length in bytes.
    fn len(&mut self) -> Result<u64, Failed>
        ensures len { IfOk result (λ n. (file : List ℕ) → holds self.old ≡ Some file → n ≡ length file) }
        ensures holds { holds self.new ≡ holds self.old }
        ensures reserved { reserved self.old ≤ reserved self.new }
        ensures crash { (image : List ℕ) → may_leave self.new image → may_leave self.old image }
        ensures time { GoesOn moment left_since may_leave self.old self.new }
        ensures later { count self.old ≤ count self.new }
        ensures plan { GoesAsPlanned (plan self.old) (plan self.new) (is_err result) }
        ensures cause { OnErr result (Rose (count self.old) (count self.new)) };

    /// Fills as much of `into` as the disk has from `at` on, and says how much.
    fn read_at(&mut self, at: u64, into: &mut [u8]) -> Result<usize, Failed>
        ensures within { IfOk result (λ n. n ≤ length into.old) }
        ensures bytes { IfOk result (λ n. (file : List ℕ) → holds self.old ≡ Some file →
            (n ≡ min (length into.old) (length file - at)) × (take n into.new ≡ take n (drop at file))) }
        ensures holds { holds self.new ≡ holds self.old }
        ensures reserved { reserved self.old ≤ reserved self.new }
        ensures crash { (image : List ℕ) → may_leave self.new image → may_leave self.old image }
        ensures time { GoesOn moment left_since may_leave self.old self.new }
        ensures later { count self.old ≤ count self.new }
        ensures plan { GoesAsPlanned (plan self.old) (plan self.new) (is_err result) }
        ensures cause { OnErr result (Rose (count self.old) (count self.new)) };

    /// Makes the reserved length at least `to`. It is the only call that takes memory.
    fn reserve(&mut self, to: u64) -> Result<(), Memory>
        ensures room { OnOk result (to ≤ reserved self.new) }
        ensures holds { holds self.new ≡ holds self.old }
        ensures reserved { reserved self.old ≤ reserved self.new }
        ensures crash { (image : List ℕ) → may_leave self.new image → may_leave self.old image }
        ensures time { GoesOn moment left_since may_leave self.old self.new }
        ensures count { count self.new ≡ count self.old }
        ensures plan { plan self.new ≡ plan self.old };

    /// Writes these bytes from `at` on. It starts at or before the end, and ends at or before the
    /// reserved length. The byte 0 over a disk of at most one byte is whole or not there.
    fn write_at(&mut self, at: u64, from: &[u8]) -> Result<(), Failed>
        requires start { (file : List ℕ) → holds self.old ≡ Some file → at ≤ length file }
        requires room { at + length from.now ≤ reserved self.old }
        ensures written { OnOk result (
            holds self.new ≡ option_map (λ file. written file at from.now) (holds self.old)) }
        ensures told { is_some (holds self.new) ≡ is_some (holds self.old) }
        ensures reserved { reserved self.old ≤ reserved self.new }
        ensures crash { Follows (Torn at (length from.now)) (may_leave self.old) (may_leave self.new) }
        ensures first { at ≡ 0 → from.now ≡ 0 ∷ [] → ((image : List ℕ) → may_leave self.old image → length image ≤ 1) →
            (image : List ℕ) → may_leave self.new image → IsFirstByte image }
        ensures time { GoesOn moment left_since may_leave self.old self.new }
        ensures later { count self.old ≤ count self.new }
        ensures plan { GoesAsPlanned (plan self.old) (plan self.new) (is_err result) }
        ensures cause { OnErr result (Rose (count self.old) (count self.new)) };

    /// Cuts it to `to` bytes, which are at most those that are there.
    fn cut(&mut self, to: u64) -> Result<(), Failed>
        requires { (file : List ℕ) → holds self.old ≡ Some file → to ≤ length file }
        ensures cut { OnOk result (holds self.new ≡ option_map (λ file. take to file) (holds self.old)) }
        ensures told { is_some (holds self.new) ≡ is_some (holds self.old) }
        ensures reserved { reserved self.old ≤ reserved self.new }
        ensures crash { Follows (Cut to) (may_leave self.old) (may_leave self.new) }
        ensures time { GoesOn moment left_since may_leave self.old self.new }
        ensures later { count self.old ≤ count self.new }
        ensures plan { GoesAsPlanned (plan self.old) (plan self.new) (is_err result) }
        ensures cause { OnErr result (Rose (count self.old) (count self.new)) };

    /// From an `Ok` on a stop leaves what a read gives.
    fn sync(&mut self) -> Result<(), Failed>
        ensures durable { OnOk result ((file : List ℕ) → holds self.old ≡ Some file → Only file (may_leave self.new)) }
        ensures holds { holds self.new ≡ holds self.old }
        ensures reserved { reserved self.old ≤ reserved self.new }
        ensures crash { (image : List ℕ) → may_leave self.new image → may_leave self.old image }
        ensures time { GoesOn moment left_since may_leave self.old self.new }
        ensures later { count self.old ≤ count self.new }
        ensures plan { GoesAsPlanned (plan self.old) (plan self.new) (is_err result) }
        ensures cause { OnErr result (Rose (count self.old) (count self.new)) };

    /// A disk as it reads is one of its images.
    ghost as_read: { (disk : Self) (file : List ℕ) → holds disk ≡ Some file → may_leave disk file };

    /// This moment is one of those since an earlier one.
    ghost counts_now: { (disk : Self) (t : ℕ) (image : List ℕ) →
        t ≤ moment disk → may_leave disk image → left_since disk t image };

    /// Since this moment there is no other.
    ghost only_now: { (disk : Self) (image : List ℕ) → left_since disk (moment disk) image → may_leave disk image };
}
