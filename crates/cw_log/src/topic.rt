// One log on one disk.
ghost use Rattle.std.specs.Prelude.{◌≡◌, ◌⊎◌, ◌≤◌, ◌<◌, ◌+◌, ◌-◌, ◌^◌, ◌++◌, ◌∷◌, [], All, List, ℕ, Option, Some, None};
ghost use Rattle.std.specs.Prelude.{Bool, true, false, length, OnOk, OnErr, IfOk, IfErr, MatchResult, option_map};
ghost use Rattle.std.specs.Prelude.{is_some, is_ok, is_err, if◌then◌else◌, slice_index_or};
ghost use Rattle.cw_disk.specs.Told.{Adds, Reads, Settled, Told};
ghost use Rattle.cw_disk.specs.Disk.{Only};
ghost use Rattle.cw_types.specs.Faults.{Rose};
ghost use Rattle.cw_log.specs.Log.{StandsFor, StandAlike, BeforeOrAfter, HasHead, IsBody, IsDamaged, IsSide, OnCause};
ghost use Rattle.cw_log.specs.Log.{OpensAs, byte_at, kind_of, length_of};
ghost use Rattle.cw_log.specs.State.{LogState, OnAppendFault, OnReadFault, OpensTo, IsSameLog, HasSameList};
ghost use Rattle.cw_log.specs.State.{IsAppendable};
ghost use Rattle.cw_log.specs.Compaction.{IsCompactable, IsReplaced, OnCompactFault, bodies_in};

use crate::calls::prepare;
use crate::compact::replace;
use crate::find::read_one;
use crate::frame::write_frame;
use crate::open::opened;
use crate::{AppendFault, BodyVisitor, CompactFault, Frames, Nobody, OpenFault, ReadFault, Window};
use cw_disk::{Disk, Failed, Memory};
use cw_types::LogName;
use std::alloc::Global;
use std::marker::Model;
use std::mem::swap;

/// A log of bodies on one disk. Whatever moment a stop comes at, what is found again is the list before
/// the append in hand or after it, and never less than what was acknowledged.
#[derive(Drop)]
pub struct TopicLog<D: Disk> {
    alloc: Global,
    disk: D,
    kind: u8,
    number: u64,
    limit: u64,
    frames: Frames,
    tail: Vec<u8>,
    // What was read of the file behind the body that was asked for. An append forgets it.
    ahead: Option<Window>,
    ready: u64,
    shut: bool,
    failed: Option<u64>,
}

impl<D: Disk> Model for TopicLog<D> {
    ghost use Rattle.std.specs.Prelude.{◌+◌, option_map, length};
    ghost use Rattle.cw_log.specs.Log.{bodies_at, places_of};
    ghost use Rattle.cw_log.specs.State.{LogState, IsLog};

    ghost Value = { LogState D };

    ghost view = { λ l. record {
      disk = l.disk;
      kind = l.kind;
      number = l.number;
      bodies = option_map (bodies_at (places_of l.frames)) (D.holds l.disk);
      count = l.frames.count;
      length = l.frames.gate + 1;
      limit = l.limit;
      ready = l.ready;
      shut = l.shut;
      failed = option_map (λ n. (0, n)) l.failed;
    } };

    ghost invariant = { λ l. IsLog D.holds D.may_leave D.reserved
        l.disk l.kind l.number l.ready l.frames l.tail l.ahead l.shut };
}

impl<D: Disk> TopicLog<D> {
    /// Opens the log of this name on a disk, or makes it where the file is unmade. It may have `limit`
    /// bytes. The disk is synced, then read in one pass, and what lies behind the closed gate is cut
    /// off. `Damaged` comes exactly where the file has a harm, its first one; with each `Err` the disk
    /// comes back.
    pub fn open_log(
        alloc: Global,
        disk: D,
        name: LogName,
        limit: u64,
    ) -> Result<TopicLog<D>, OpenFault<D>>
        // The list is the one that the file stands for.
        ensures list { IfOk result (λ log. Told D.Disk disk (λ file. (bodies : List (List ℕ)) ×
            (log.bodies ≡ Some bodies) × StandsFor (kind_of name) bodies file)) }
        ensures told { IfOk result (λ log. is_some log.bodies ≡ is_some (D.holds disk)) }

        // A new log where the file was unmade, else the file up to its first closed gate.
        ensures bytes { IfOk result (λ log. Told D.Disk disk
            (λ file. OpensAs (kind_of name) log.number file (D.holds log.disk))) }
        ensures new { IfOk result (λ log. (log.kind ≡ kind_of name) × (log.limit ≡ limit) × (log.shut ≡ false) ×
            (log.failed ≡ None)) }

        ensures cause { IfErr result (λ fault. OnCause
            (λ at harm. (D.holds fault.disk ≡ D.holds disk) × (Told D.Disk disk
            (λ file. IsDamaged (kind_of name) file at harm)))
            (Rose (D.count disk) (D.count fault.disk))
            (D.holds fault.disk ≡ D.holds disk) fault.cause) }

        // What a stop may leave now it might have left before, or it stands for the same list.
        ensures left { Told D.Disk disk (λ file. MatchResult result
            (λ log. (image : List ℕ) → D.may_leave log.disk image →
            D.may_leave disk image ⊎ StandAlike (kind_of name) file image)
            (λ fault. (image : List ℕ) → D.may_leave fault.disk image →
            D.may_leave disk image ⊎ StandAlike (kind_of name) file image)) }

        // A stop at any moment of the call leaves a file that stands for the same list.
        ensures any_moment { Told D.Disk disk (λ file. MatchResult result
            (λ log. Adds D.Disk disk log.disk (StandAlike (kind_of name) file))
            (λ fault. Adds D.Disk disk fault.disk (StandAlike (kind_of name) file))) }

        // A made file keeps its header, whatever moment a stop comes at.
        ensures head { Told D.Disk disk (λ file. 2 ≤ length file → 0 < byte_at file 0 → MatchResult result
            (λ log. Adds D.Disk disk log.disk (HasHead file))
            (λ fault. Adds D.Disk disk fault.disk (HasHead file))) }
        ensures later { MatchResult result (λ log. D.count disk ≤ D.count log.disk)
            (λ fault. D.count disk ≤ D.count fault.disk) }
    {
        TopicLog::open_with(alloc, disk, name, limit, &mut Nobody)
    }

    /// The same, where a visitor is shown the bodies in the one pass over the file. Behind an `Err` the visitor
    /// may have been shown some of them.
    pub fn open_with<V: BodyVisitor>(
        alloc: Global,
        disk: D,
        name: LogName,
        limit: u64,
        visitor: &mut V,
    ) -> Result<TopicLog<D>, OpenFault<D>>
        // The list is the one that the file stands for.
        ensures list { IfOk result (λ log. Told D.Disk disk (λ file. (bodies : List (List ℕ)) ×
            (log.bodies ≡ Some bodies) × StandsFor (kind_of name) bodies file)) }
        ensures told { IfOk result (λ log. is_some log.bodies ≡ is_some (D.holds disk)) }

        // A new log where the file was unmade, else the file up to its first closed gate.
        ensures bytes { IfOk result (λ log. Told D.Disk disk
            (λ file. OpensAs (kind_of name) log.number file (D.holds log.disk))) }
        ensures new { IfOk result (λ log. (log.kind ≡ kind_of name) × (log.limit ≡ limit) × (log.shut ≡ false) ×
            (log.failed ≡ None)) }

        ensures cause { IfErr result (λ fault. OnCause
            (λ at harm. (D.holds fault.disk ≡ D.holds disk) × (Told D.Disk disk
            (λ file. IsDamaged (kind_of name) file at harm)))
            (Rose (D.count disk) (D.count fault.disk))
            (D.holds fault.disk ≡ D.holds disk) fault.cause) }

        // The visitor was shown its bodies.
        ensures seen { IfOk result (λ log. V.has_seen visitor.old [] → (bodies : List (List ℕ)) → log.bodies ≡
            Some bodies → V.has_seen visitor.new bodies) }

        // What a stop may leave now it might have left before, or it stands for the same list.
        ensures left { Told D.Disk disk (λ file. MatchResult result
            (λ log. (image : List ℕ) → D.may_leave log.disk image →
            D.may_leave disk image ⊎ StandAlike (kind_of name) file image)
            (λ fault. (image : List ℕ) → D.may_leave fault.disk image →
            D.may_leave disk image ⊎ StandAlike (kind_of name) file image)) }

        // A stop at any moment of the call leaves a file that stands for the same list.
        ensures any_moment { Told D.Disk disk (λ file. MatchResult result
            (λ log. Adds D.Disk disk log.disk (StandAlike (kind_of name) file))
            (λ fault. Adds D.Disk disk fault.disk (StandAlike (kind_of name) file))) }

        // A made file keeps its header, whatever moment a stop comes at.
        ensures head { Told D.Disk disk (λ file. 2 ≤ length file → 0 < byte_at file 0 → MatchResult result
            (λ log. Adds D.Disk disk log.disk (HasHead file))
            (λ fault. Adds D.Disk disk fault.disk (HasHead file))) }
        ensures later { MatchResult result (λ log. D.count disk ≤ D.count log.disk)
            (λ fault. D.count disk ≤ D.count fault.disk) }
    {
        let mut disk = disk;
        let kind = kind_number(name);
        match opened(alloc, &mut disk, kind, visitor) {
            Ok(found) => Ok(TopicLog {
                alloc,
                disk,
                kind,
                number: found.number,
                limit,
                frames: found.frames,
                tail: Vec::new(alloc),
                ahead: None,
                ready: 0,
                shut: false,
                failed: None,
            }),
            Err(cause) => Err(OpenFault { disk, cause }),
        }
    }

    /// Takes the memory of an append of at most `body` bytes, the disk's included.
    pub fn reserve(&mut self, body: usize) -> Result<(), Memory>
        ensures ready { OnOk result (body ≤ self.new.ready) }
        ensures memory { OnErr result (self.old.ready < body) }
        ensures same { IsSameLog self.old self.new }
        ensures less { self.old.ready ≤ self.new.ready }
        ensures reads { Reads D.Disk self.old.disk self.new.disk }
        ensures count { D.count self.new.disk ≡ D.count self.old.disk }
    {
        if body as u64 <= self.ready {
            return Ok(());
        }
        self.tail.clear();
        self.tail.reserve(body.saturating_add(5))?;
        self.frames.reserve()?;
        prepare(
            &mut self.disk,
            (self.frames.gate + 1).saturating_add((body as u64).saturating_add(5)),
        )?;
        self.ready = body as u64;
        Ok(())
    }

    /// Appends a body of 1 to 2^28 bytes, and answers its number. `Shut` comes where an earlier append
    /// has failed, else `Full` where its frame, of five bytes more, would pass the limit.
    pub fn append(&mut self, body: &[u8]) -> Result<u64, AppendFault>
        requires some { 1 ≤ length body.now }
        requires few { length body.now ≤ 2 ^ 28 }

        ensures bodies { OnOk result (self.new.bodies ≡ option_map
            (λ bodies. bodies ++ body.now ∷ []) self.old.bodies) }
        ensures number { IfOk result (λ number. number ≡ self.old.count) }
        ensures count { OnOk result (self.new.count ≡ self.old.count + 1) }
        ensures length { OnOk result (self.new.length ≡ self.old.length + (length body.now + 5)) }
        ensures alive { OnOk result ((self.old.shut ≡ false) × (self.new.shut ≡ false) × (self.new.failed ≡
            self.old.failed)) }
        ensures fits { OnOk result (self.old.length + (length body.now + 5) ≤ self.old.limit) }

        // Shut exactly where it is due, else Full exactly where it is due; Failed only where the disk's count rose.
        ensures fault { IfErr result (OnAppendFault
            (IsAppendable (length body.now) self.old × (self.new.shut ≡ true) × (self.new.failed ≡
            Some (0, D.count self.new.disk)) × Rose (D.count self.old.disk) (D.count self.new.disk))
            (λ long frame. (self.old.shut ≡ false) × (long ≡ self.old.length) × (frame ≡ length body.now + 5) ×
            (self.old.limit < long + frame) × (self.new ≡ self.old))
            ((self.old.shut ≡ true) × (self.new ≡ self.old))
            (IsAppendable (length body.now) self.old × (self.old.ready < length body.now) ×
            IsSameLog self.old self.new)) }
        ensures same { OnErr result ((self.new.bodies ≡ self.old.bodies) × (self.new.count ≡ self.old.count) ×
            (self.new.length ≡ self.old.length)) }
        ensures kind { self.new.kind ≡ self.old.kind }
        ensures side_number { self.new.number ≡ self.old.number }
        ensures limit { self.new.limit ≡ self.old.limit }
        ensures told { is_some self.new.bodies ≡ is_some self.old.bodies }
        ensures later { D.count self.old.disk ≤ D.count self.new.disk }

        // What a stop may leave now, also behind a failure, is the list before or after.
        ensures left { self.old.shut ≡ false → (bodies : List (List ℕ)) → self.old.bodies ≡ Some bodies →
            (image : List ℕ) → D.may_leave self.new.disk image → BeforeOrAfter self.old.kind bodies body.now image }

        // So is what a stop at any moment of the call leaves.
        ensures any_moment { self.old.shut ≡ false → (bodies : List (List ℕ)) → self.old.bodies ≡ Some bodies →
            Adds D.Disk self.old.disk self.new.disk (BeforeOrAfter self.old.kind bodies body.now) }

        // And it has the same header.
        ensures side { (bodies : List (List ℕ)) → self.old.bodies ≡ Some bodies →
            Adds D.Disk self.old.disk self.new.disk (IsSide self.old.number) }
    {
        if self.shut {
            return Err(AppendFault::Shut);
        }
        let length = self.frames.gate + 1;
        let frame = body.len() as u64 + 5;
        if self.limit < length || self.limit - length < frame {
            return Err(AppendFault::Full { length, frame });
        }
        self.reserve(body.len())?;
        self.add(body)?;
        Ok(self.frames.count() - 1)
    }

    /// Makes another disk, on which nothing is pending, a log of these bodies with the next side number, and changes
    /// over to it; `other` is then the disk that this log had. That disk isn't touched: the new log is written whole
    /// and synced before its first gate is opened. `Shut` comes where an earlier call has failed, else `Worn` where
    /// there is no next side number. Each body has 1 to 2^32 - 1 bytes, and together they fit into 64 bits.
    pub fn compact_onto(&mut self, other: &mut D, bodies: &Vec<Vec<u8>>) -> Result<(), CompactFault>
        requires settled { self.old.shut ≡ false → Settled D.Disk other.old }
        requires bodies { All IsBody (bodies_in bodies.now.items) }
        requires fits { length_of (bodies_in bodies.now.items) < 2 ^ 64 }

        ensures bodies { OnOk result (self.new.bodies ≡ option_map
            (λ _. bodies_in bodies.now.items) (D.holds other.old)) }
        ensures count { OnOk result (self.new.count ≡ length bodies.now.items) }
        ensures length { OnOk result (self.new.length ≡ length_of (bodies_in bodies.now.items)) }
        ensures number { OnOk result (self.new.number ≡ self.old.number + 1) }
        ensures alive { OnOk result ((self.old.shut ≡ false) × (self.new.shut ≡ false)) }
        ensures other { OnOk result (other.new ≡ self.old.disk) }
        ensures settled { OnOk result (Settled D.Disk other.new) }

        // Shut exactly where it is due, else Worn exactly where it is due; Failed only where the other disk's count
        // rose.
        ensures fault { IfErr result (OnCompactFault
            (IsCompactable self.old × (self.new ≡ record self.old { shut = true }) ×
            Rose (D.count other.old) (D.count other.new))
            ((self.old.shut ≡ true) × (self.new ≡ self.old) × (other.new ≡ other.old))
            ((self.old.shut ≡ false) × (self.old.number ≡ 2 ^ 64 - 1) × (self.new ≡ self.old) × (other.new ≡ other.old))
            (IsCompactable self.old × (self.new ≡ self.old) × Reads D.Disk other.old other.new)) }
        ensures kind { self.new.kind ≡ self.old.kind }
        ensures limit { self.new.limit ≡ self.old.limit }
        ensures failed { self.new.failed ≡ self.old.failed }
        ensures told { MatchResult result (λ _. is_some (D.holds self.new.disk) ≡ is_some (D.holds other.old))
            (λ _. is_some (D.holds other.new) ≡ is_some (D.holds other.old)) }
        ensures later { MatchResult result (λ _. D.count other.old ≤ D.count self.new.disk)
            (λ _. D.count other.old ≤ D.count other.new) }

        // What a stop at any moment of the call leaves of the other disk; this log's disk stands still.
        ensures any_moment { self.old.shut ≡ false → Told D.Disk other.old (λ file. MatchResult result
            (λ _. Adds D.Disk other.old self.new.disk
            (IsReplaced self.old.kind (self.old.number + 1) (bodies_in bodies.now.items) file))
            (λ _. Adds D.Disk other.old other.new
            (IsReplaced self.old.kind (self.old.number + 1) (bodies_in bodies.now.items) file))) }
    {
        if self.shut {
            return Err(CompactFault::Shut);
        }
        if self.number == u64::MAX {
            return Err(CompactFault::Worn);
        }
        match replace(self.alloc, other, self.kind, self.number + 1, bodies) {
            Ok(frames) => {
                swap(&mut self.disk, other);
                self.number += 1;
                self.frames = frames;
                let _ = self.ahead.take();
                self.ready = 0;
                Ok(())
            }
            Err(ReadFault::Memory) => Err(CompactFault::Memory),
            Err(ReadFault::Failed) => {
                self.shut = true;
                Err(CompactFault::Failed)
            }
        }
    }

    /// The side number in its header, which is 1 in a log that was made by an opening.
    #[inline]
    pub fn number(&self) -> u64
        ensures { result ≡ self.now.number }
    {
        self.number
    }

    /// How many bodies there are.
    #[inline]
    pub fn count(&self) -> u64
        ensures count { result ≡ self.now.count }
        ensures list { (bodies : List (List ℕ)) → self.now.bodies ≡ Some bodies → result ≡ length bodies }
    {
        self.frames.count()
    }

    /// How many bytes there are, up to and with the closed gate.
    #[inline]
    pub fn length(&self) -> u64
        ensures length { result ≡ self.now.length }
        ensures list { (bodies : List (List ℕ)) → self.now.bodies ≡ Some bodies → result ≡ length_of bodies }
    {
        self.frames.gate + 1
    }

    /// The body of this number, which is below the count. The first such call looks for all frames, and keeps
    /// where each begins.
    pub fn read_body(&mut self, index: u64) -> Result<Vec<u8>, ReadFault>
        requires { index < self.old.count }
        ensures body { IfOk result (λ body. (bodies : List (List ℕ)) → self.old.bodies ≡ Some bodies → body.items ≡
            slice_index_or bodies index []) }
        ensures fault { IfErr result (OnReadFault
            (Rose (D.count self.old.disk) (D.count self.new.disk) × (self.new.failed ≡ Some (0, D.count self.new.disk)))
            (self.new.failed ≡ self.old.failed)) }
        ensures ok { OnOk result (self.new.failed ≡ self.old.failed) }
        ensures same { HasSameList self.old self.new }
        ensures reads { Reads D.Disk self.old.disk self.new.disk }
    {
        match read_one(
            self.alloc,
            &mut self.disk,
            &mut self.frames,
            &mut self.ahead,
            index,
        ) {
            Ok(body) => Ok(body),
            Err(ReadFault::Memory) => Err(ReadFault::Memory),
            Err(ReadFault::Failed) => {
                self.failed = Some(self.disk.faults());
                Err(ReadFault::Failed)
            }
        }
    }

    /// The side, 0, and the disk's count of faults behind it, of the last call that failed.
    pub fn failed(&self) -> Option<(u8, u64)>
        ensures { result ≡ self.now.failed }
    {
        match self.failed {
            Some(count) => Some((0, count)),
            None => None,
        }
    }

    /// The disk, to look at.
    #[inline]
    pub fn disk(&self) -> &D
        ensures { result.now ≡ self.now.disk }
    {
        &self.disk
    }

    /// What a stop leaves of a log in which no append has failed, and how long it is. It does nothing.
    pub fn rest(&self)
        ensures left { self.now.shut ≡ false → (bodies : List (List ℕ)) → self.now.bodies ≡ Some bodies →
            (image : List ℕ) → D.may_leave self.now.disk image → StandsFor self.now.kind bodies image }
        ensures side { self.now.shut ≡ false → (bodies : List (List ℕ)) → self.now.bodies ≡ Some bodies →
            (image : List ℕ) → D.may_leave self.now.disk image → IsSide self.now.number image }
        ensures count { (bodies : List (List ℕ)) → self.now.bodies ≡ Some bodies → self.now.count ≡ length bodies }
        ensures size { (bodies : List (List ℕ)) → self.now.bodies ≡ Some bodies → self.now.length ≡ length_of bodies }
        ensures told { is_some self.now.bodies ≡ is_some (D.holds self.now.disk) }
    {
        let _ = &self.disk;
    }

    /// Gives the disk back.
    pub fn give_back(self) -> D
        ensures disk { result ≡ self.disk }
        ensures rest { self.shut ≡ false → (bodies : List (List ℕ)) → self.bodies ≡ Some bodies →
            (image : List ℕ) → D.may_leave result image → StandsFor self.kind bodies image }
    {
        self.disk
    }

    // Appends a body for which there is room: puts the frame behind the gate, and opens it.
    fn add(&mut self, body: &[u8]) -> Result<(), Failed>
        requires opened { self.old.shut ≡ false }
        requires some { 1 ≤ length body.now }
        requires few { length body.now ≤ 2 ^ 28 }
        requires room { length body.now ≤ self.old.ready }
        requires fits { self.old.length + (length body.now + 5) < 2 ^ 64 }
        ensures bodies { OnOk result (self.new.bodies ≡ option_map
            (λ bodies. bodies ++ body.now ∷ []) self.old.bodies) }
        ensures kept { OnErr result (self.new.bodies ≡ self.old.bodies) }
        ensures count { self.new.count ≡ (if is_ok result then self.old.count + 1 else self.old.count) }
        ensures length { self.new.length ≡
            (if is_ok result then self.old.length + (length body.now + 5) else self.old.length) }
        ensures shut { self.new.shut ≡ is_err result }
        ensures failed { self.new.failed ≡ (if is_ok result then self.old.failed else Some (0, D.count self.new.disk)) }
        ensures kind { self.new.kind ≡ self.old.kind }
        ensures side_number { self.new.number ≡ self.old.number }
        ensures limit { self.new.limit ≡ self.old.limit }
        ensures told { is_some self.new.bodies ≡ is_some self.old.bodies }
        ensures left { (bodies : List (List ℕ)) → self.old.bodies ≡ Some bodies → (image : List ℕ) →
            D.may_leave self.new.disk image → BeforeOrAfter self.old.kind bodies body.now image }
        ensures any_moment { (bodies : List (List ℕ)) → self.old.bodies ≡ Some bodies →
            Adds D.Disk self.old.disk self.new.disk (BeforeOrAfter self.old.kind bodies body.now) }
        ensures side { (bodies : List (List ℕ)) → self.old.bodies ≡ Some bodies →
            Adds D.Disk self.old.disk self.new.disk (IsSide self.old.number) }
        ensures later { D.count self.old.disk ≤ D.count self.new.disk }
        ensures cause { OnErr result (Rose (D.count self.old.disk) (D.count self.new.disk)) }
    {
        let gate = self.frames.gate;
        let length = body.len() as u64;
        self.shut = true;
        self.ready = 0;
        self.ahead = None;
        match write_frame(&mut self.disk, gate, &mut self.tail, body) {
            Ok(()) => {
                self.frames.push(length);
                self.shut = false;
                Ok(())
            }
            Err(fault) => {
                self.failed = Some(self.disk.faults());
                Err(fault)
            }
        }
    }
}

// The number of a log's kind.
pub(crate) fn kind_number(name: LogName) -> u8
    ensures { result ≡ kind_of name }
{
    match name {
        LogName::Config => 1,
        LogName::Offsets => 2,
        LogName::Status => 3,
        LogName::Txn => 4,
        LogName::Batches => 5,
    }
}
