// A log on two disks.
ghost use Rattle.std.specs.Prelude.{◌≡◌, ◌⊎◌, ◌≤◌, ◌<◌, ◌+◌, ◌-◌, ◌^◌, ◌&&◌, All, List, ℕ, Option, Some, None, false};
ghost use Rattle.std.specs.Prelude.{true, [], length, IfOk, IfErr, OnOk, OnErr, MatchResult, is_some, option_map};
ghost use Rattle.cw_disk.specs.Disk.{AddsOf};
ghost use Rattle.cw_disk.specs.Told.{Told};
ghost use Rattle.cw_types.specs.Faults.{Rose};
ghost use Rattle.cw_log.specs.Log.{IsBody, OnCause, kind_of, length_of};
ghost use Rattle.cw_log.specs.State.{FailedOn};
ghost use Rattle.cw_log.specs.Compaction.{IsCompactable, OnCompactFault, bodies_in};
ghost use Rattle.cw_pair.specs.Pair.{IsPairDamaged, IsRight, PairStandsFor};
ghost use Rattle.cw_pair.specs.State.{HasSamePair, MayLeave, Opens, OpensPairAs, StandsSince, bodies_of, disks_of};
ghost use Rattle.cw_pair.specs.State.{faults_of, side_of};

use crate::choice::choose;
use crate::open::open_chosen;
use crate::{PairFault, Two};
use cw_disk::Disk;
use cw_log::{BodyVisitor, CompactFault, Nobody};
use cw_types::{LogName, Past};
use std::alloc::Global;
use std::marker::Model;

/// A log of bodies on two disks, whose whole list can be replaced in one step. Whatever moment a stop comes at, what
/// is found again is the list before the call in hand or after it.
#[derive(Drop)]
pub struct PairLog<D: Disk> {
    pub(crate) two: Two<D>,
    // The disks as they were where each call began.
    pub(crate) past: Past<Two<D>>,
    pub(crate) failed: Option<(u8, u64)>,
}

impl<D: Disk> Model for PairLog<D> {
    ghost use Rattle.std.specs.Prelude.{map};
    ghost use Rattle.cw_pair.specs.State.{IsPair, PairState, sides_of};

    ghost Value = { PairState D };

    ghost view = { λ p. record {
      log = p.two.log;
      other = p.two.other;
      on_b = p.two.on_b;
      past = map (λ two. sides_of two.on_b two.log.disk two.other) p.past.items;
      failed = p.failed;
    } };

    ghost invariant = { λ p. IsPair D.holds D.may_leave p.two.log p.two.other };
}

impl<D: Disk> PairLog<D> {
    /// Opens the log of this name on two disks: the side that is made with the greatest number, or side a, which is
    /// then made, where neither is. Each log may have `limit` bytes. Both disks are synced, side a first, and the
    /// chosen one is read in one pass. `Damaged` comes exactly where the pair has a harm, its first one, with its
    /// side; with each `Err` the disks come back.
    pub fn open_log(
        alloc: Global,
        a: D,
        b: D,
        name: LogName,
        limit: u64,
    ) -> Result<PairLog<D>, PairFault<D>>
        // The list is the one that the two files stand for.
        ensures list { IfOk result (λ pair. Told D.Disk a (λ file_a. Told D.Disk b (λ file_b. (bodies : List (List ℕ)) ×
            (bodies_of D.Disk pair ≡ Some bodies) × PairStandsFor (kind_of name) bodies file_a file_b))) }
        ensures told { IfOk result (λ pair. is_some (bodies_of D.Disk pair) ≡
            (is_some (D.holds a) && is_some (D.holds b))) }

        // The side with the greatest number is opened, as a log of one disk; the other one holds what it held.
        ensures side { IfOk result (λ pair. Told D.Disk a (λ file_a. Told D.Disk b
            (λ file_b. IsRight (kind_of name) pair.on_b file_a file_b))) }
        ensures bytes { IfOk result (λ pair. Told D.Disk a (λ file_a. Told D.Disk b (λ file_b.
            OpensPairAs (kind_of name) pair.on_b pair.log.number file_a file_b (D.holds pair.log.disk)
            (D.holds pair.other)))) }
        ensures new { IfOk result (λ pair. (pair.log.kind ≡ kind_of name) × (pair.log.limit ≡ limit) ×
            (pair.log.shut ≡ false) × (pair.failed ≡ None) × (pair.past ≡ [])) }

        ensures cause { IfErr result (λ fault. OnCause
            (λ at harm. (D.holds fault.a ≡ D.holds a) × (D.holds fault.b ≡ D.holds b) × Told D.Disk a
            (λ file_a. Told D.Disk b (λ file_b. IsPairDamaged (kind_of name) file_a file_b fault.side at harm)))
            (Rose (faults_of D.Disk (record { a = a; b = b }) fault.side)
            (faults_of D.Disk (record { a = fault.a; b = fault.b }) fault.side))
            ((D.holds fault.a ≡ D.holds a) × (D.holds fault.b ≡ D.holds b)) fault.cause) }

        // No disk's count of faults fell.
        ensures later { MatchResult result
            (λ pair. (side : ℕ) →
            faults_of D.Disk (record { a = a; b = b }) side ≤ faults_of D.Disk (disks_of pair) side)
            (λ fault. (side : ℕ) → faults_of D.Disk (record { a = a; b = b }) side ≤
            faults_of D.Disk (record { a = fault.a; b = fault.b }) side) }

        // A stop at any moment of the call leaves what it might have left before, or two files that stand for the same.
        ensures any_moment { Told D.Disk a (λ file_a. Told D.Disk b (λ file_b. MatchResult result
            (λ pair. Opens D.Disk (kind_of name) file_a file_b (record { a = a; b = b }) (disks_of pair))
            (λ fault. Opens D.Disk (kind_of name) file_a file_b (record { a = a; b = b })
            (record { a = fault.a; b = fault.b })))) }
    {
        PairLog::open_with(alloc, a, b, name, limit, &mut Nobody)
    }

    /// The same, where a visitor is shown the bodies in the one pass over the chosen file. Behind an `Err` the visitor
    /// may have been shown some of them.
    pub fn open_with<V: BodyVisitor>(
        alloc: Global,
        a: D,
        b: D,
        name: LogName,
        limit: u64,
        visitor: &mut V,
    ) -> Result<PairLog<D>, PairFault<D>>
        // The list is the one that the two files stand for.
        ensures list { IfOk result (λ pair. Told D.Disk a (λ file_a. Told D.Disk b (λ file_b. (bodies : List (List ℕ)) ×
            (bodies_of D.Disk pair ≡ Some bodies) × PairStandsFor (kind_of name) bodies file_a file_b))) }
        ensures told { IfOk result (λ pair. is_some (bodies_of D.Disk pair) ≡
            (is_some (D.holds a) && is_some (D.holds b))) }

        // The side with the greatest number is opened, as a log of one disk; the other one holds what it held.
        ensures side { IfOk result (λ pair. Told D.Disk a (λ file_a. Told D.Disk b
            (λ file_b. IsRight (kind_of name) pair.on_b file_a file_b))) }
        ensures bytes { IfOk result (λ pair. Told D.Disk a (λ file_a. Told D.Disk b (λ file_b.
            OpensPairAs (kind_of name) pair.on_b pair.log.number file_a file_b (D.holds pair.log.disk)
            (D.holds pair.other)))) }
        ensures new { IfOk result (λ pair. (pair.log.kind ≡ kind_of name) × (pair.log.limit ≡ limit) ×
            (pair.log.shut ≡ false) × (pair.failed ≡ None) × (pair.past ≡ [])) }

        ensures cause { IfErr result (λ fault. OnCause
            (λ at harm. (D.holds fault.a ≡ D.holds a) × (D.holds fault.b ≡ D.holds b) × Told D.Disk a
            (λ file_a. Told D.Disk b (λ file_b. IsPairDamaged (kind_of name) file_a file_b fault.side at harm)))
            (Rose (faults_of D.Disk (record { a = a; b = b }) fault.side)
            (faults_of D.Disk (record { a = fault.a; b = fault.b }) fault.side))
            ((D.holds fault.a ≡ D.holds a) × (D.holds fault.b ≡ D.holds b)) fault.cause) }

        // No disk's count of faults fell.
        ensures later { MatchResult result
            (λ pair. (side : ℕ) →
            faults_of D.Disk (record { a = a; b = b }) side ≤ faults_of D.Disk (disks_of pair) side)
            (λ fault. (side : ℕ) → faults_of D.Disk (record { a = a; b = b }) side ≤
            faults_of D.Disk (record { a = fault.a; b = fault.b }) side) }

        // A stop at any moment of the call leaves what it might have left before, or two files that stand for the same.
        ensures any_moment { Told D.Disk a (λ file_a. Told D.Disk b (λ file_b. MatchResult result
            (λ pair. Opens D.Disk (kind_of name) file_a file_b (record { a = a; b = b }) (disks_of pair))
            (λ fault. Opens D.Disk (kind_of name) file_a file_b (record { a = a; b = b })
            (record { a = fault.a; b = fault.b })))) }
        // The visitor was shown its bodies.
        ensures seen { IfOk result (λ pair. V.has_seen visitor.old [] → (bodies : List (List ℕ)) →
            bodies_of D.Disk pair ≡ Some bodies → V.has_seen visitor.new bodies) }
    {
        let mut a = a;
        let mut b = b;
        match choose(&mut a, &mut b, name) {
            Ok(true) => match open_chosen(alloc, b, a, true, name, limit, visitor) {
                Ok(two) => Ok(PairLog {
                    two,
                    past: Past::new(),
                    failed: None,
                }),
                Err(fault) => Err(PairFault {
                    a: fault.other,
                    b: fault.chosen,
                    side: 1,
                    cause: fault.cause,
                }),
            },
            Ok(false) => match open_chosen(alloc, a, b, false, name, limit, visitor) {
                Ok(two) => Ok(PairLog {
                    two,
                    past: Past::new(),
                    failed: None,
                }),
                Err(fault) => Err(PairFault {
                    a: fault.chosen,
                    b: fault.other,
                    side: 0,
                    cause: fault.cause,
                }),
            },
            Err(fault) => Err(PairFault {
                a,
                b,
                side: fault.side,
                cause: fault.cause,
            }),
        }
    }

    /// Replaces the whole list by these bodies, in one step: they are written onto the other side, whole, with the
    /// next side number, and synced before its first gate is opened. Each has 1 to 2^32 - 1 bytes, and together they
    /// fit into 64 bits. `Shut` comes where an earlier call has failed, else `Worn` where there is no next side
    /// number; nothing has changed then.
    pub fn compact(&mut self, bodies: &Vec<Vec<u8>>) -> Result<(), CompactFault>
        requires bodies { All IsBody (bodies_in bodies.now.items) }
        requires fits { length_of (bodies_in bodies.now.items) < 2 ^ 64 }

        ensures bodies { OnOk result (bodies_of D.Disk self.new ≡ option_map
            (λ _. bodies_in bodies.now.items) (bodies_of D.Disk self.old)) }
        ensures count { OnOk result (self.new.log.count ≡ length bodies.now.items) }
        ensures length { OnOk result (self.new.log.length ≡ length_of (bodies_in bodies.now.items)) }
        ensures number { OnOk result (self.new.log.number ≡ self.old.log.number + 1) }
        ensures alive { OnOk result ((self.old.log.shut ≡ false) × (self.new.log.shut ≡ false) ×
            (self.new.failed ≡ self.old.failed)) }

        // Shut exactly where it is due, else Worn exactly where it is due; Failed only where the other disk's count
        // rose.
        ensures fault { IfErr result (OnCompactFault
            (IsCompactable self.old.log × (self.new.log ≡ record self.old.log { shut = true }) ×
            FailedOn (faults_of D.Disk (disks_of self.old)) (faults_of D.Disk (disks_of self.new)) self.new.failed)
            ((self.old.log.shut ≡ true) × (self.new ≡ self.old))
            ((self.old.log.shut ≡ false) × (self.old.log.number ≡ 2 ^ 64 - 1) × (self.new ≡ self.old))
            (IsCompactable self.old.log × HasSamePair self.old self.new)) }
        ensures kept { OnErr result (bodies_of D.Disk self.new ≡ bodies_of D.Disk self.old) }
        ensures kind { self.new.log.kind ≡ self.old.log.kind }
        ensures limit { self.new.log.limit ≡ self.old.log.limit }
        ensures told { is_some (bodies_of D.Disk self.new) ≡ is_some (bodies_of D.Disk self.old) }
        ensures later { (side : ℕ) →
            faults_of D.Disk (disks_of self.old) side ≤ faults_of D.Disk (disks_of self.new) side }

        // A stop at any moment of the call leaves the list before or after.
        ensures any_moment { self.old.log.shut ≡ false → (before : List (List ℕ)) →
            bodies_of D.Disk self.old ≡ Some before →
            AddsOf (λ pair. length pair.past) (StandsSince D.Disk) self.old self.new
            (λ list. (list ≡ before) ⊎ (list ≡ bodies_in bodies.now.items)) }

        // What it leaves now, whichever of the two images, stands for one of them.
        ensures left { self.old.log.shut ≡ false → (before : List (List ℕ)) →
            bodies_of D.Disk self.old ≡ Some before → (image_a image_b : List ℕ) →
            MayLeave D.may_leave (disks_of self.new) image_a image_b →
            PairStandsFor self.old.log.kind before image_a image_b ⊎
            PairStandsFor self.old.log.kind (bodies_in bodies.now.items) image_a image_b }
    {
        let past = self.past.and(&self.two);
        self.two.log.rest();
        match self.two.log.compact_onto(&mut self.two.other, bodies) {
            Ok(()) => {
                self.two.on_b = !self.two.on_b;
                self.past = past;
                Ok(())
            }
            Err(CompactFault::Memory) => {
                self.past = past;
                Err(CompactFault::Memory)
            }
            Err(CompactFault::Failed) => {
                self.past = past;
                self.failed = Some(self.two.other_faults());
                Err(CompactFault::Failed)
            }
            Err(CompactFault::Shut) => Err(CompactFault::Shut),
            Err(CompactFault::Worn) => Err(CompactFault::Worn),
        }
    }

    /// The side number of the chosen side.
    #[inline]
    pub fn number(&self) -> u64
        ensures { result ≡ self.now.log.number }
    {
        self.two.log.number()
    }

    /// The chosen side: 0 is side a, 1 is side b.
    #[inline]
    pub fn side(&self) -> u8
        ensures { result ≡ side_of self.now.on_b }
    {
        if self.two.on_b {
            return 1;
        }
        0
    }

    /// Gives the disks of side a and side b back.
    pub fn give_back(self) -> (D, D)
        ensures disks { record { a = result.0; b = result.1 } ≡ disks_of self }
        ensures rest { self.log.shut ≡ false → (bodies : List (List ℕ)) → bodies_of D.Disk self ≡ Some bodies →
            (image_a image_b : List ℕ) → D.may_leave result.0 image_a → D.may_leave result.1 image_b →
            PairStandsFor self.log.kind bodies image_a image_b }
    {
        let Two { log, other, on_b } = self.two;
        log.rest();
        if on_b {
            return (other, log.give_back());
        }
        (log.give_back(), other)
    }
}
