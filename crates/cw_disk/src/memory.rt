// A disk in memory.
ghost use Rattle.std.specs.Prelude.{◌≡◌, ◌≤◌, ◌<◌, ◌+◌, ◌++◌, ◌∷◌, List, ℕ, Option, Some, [], length, OnOk, OnErr};
ghost use Rattle.std.specs.Prelude.{IfOk, Bool, true, false, min, take, drop, ◌-◌, ◌^◌, is_err};
ghost use Rattle.std.proofs.Common.{inl};
ghost use Rattle.cw_types.specs.Faults.{Rose};
ghost use Rattle.cw_disk.specs.Memory.{MemState, Leaves, LeftSince, only_this, as_it_reads, image_of, is_planned};
ghost use Rattle.cw_disk.specs.Memory.{plan_of};

use crate::{Disk, Failed, Held, Memory};
use cw_types::Past;
use std::alloc::{AllocError, Global};
use std::marker::Model;

/// Which image of a disk in memory: with the bytes that were not synced as a read gives them, as they
/// were at the last sync, or filled with the byte 0xFF.
#[derive(Clone, Copy, Debug, PartialEq, Eq, Drop)]
pub enum Way {
    /// As a read gives them.
    AsRead,
    /// As they were at the last sync, as far as the disk model allows.
    Old,
    /// Each of them 0xFF, at the greatest length since the last sync.
    Noise,
}

/// A disk in memory, which knows the images that a stop may leave of it. Chosen calls fail: those
/// whose number is in a list, counted from 0 over all calls but `faults` and `reserve`, and each from
/// the fuse's number on. A write or a cut that fails is done all the same, as a stop may leave it.
#[derive(Drop)]
pub struct MemDisk {
    alloc: Global,
    held: Held,
    past: Past<Held>,
    room: u64,
    count: u64,
    calls: u64,
    failing: Vec<u64>,
    fuse: u64,
    // There is memory for a file of so many bytes.
    most: u64,
}

impl Model for MemDisk {
    ghost use Rattle.cw_disk.specs.Memory.{MemState, IsMemory};

    ghost Value = { MemState };

    ghost view = { λ m. record {
      held = m.held;
      past = m.past.items;
      count = m.count;
      room = m.room;
      failing = m.failing.items;
      fuse = m.fuse;
      calls = m.calls;
    } };

    ghost invariant = { λ m. IsMemory m.room m.held };
}

// One call more: it fails where that is planned, and from the end of the counter on.
fn call(calls: &mut u64, count: &mut u64, failing: &[u64], fuse: u64) -> Result<(), Failed>
    ensures ok { OnOk result (count.new ≡ count.old) }
    ensures err { OnErr result (Rose count.old count.new) }
    ensures later { count.old ≤ count.new }
    ensures calls { calls.new ≡ min (calls.old + 1) (2 ^ 64 - 1) }
    ensures planned { is_err result ≡ is_planned failing.now fuse calls.old }
{
    let number = *calls;
    *calls = number.saturating_add(1);
    if number >= fuse || failing.contains(&number) {
        *count = count.saturating_add(1);
        return Err(Failed);
    }
    Ok(())
}

impl MemDisk {
    /// A disk with these bytes, all of them synced. The calls whose numbers are in `failing`, and each
    /// from number `fuse` on, are to fail; `u64::MAX` is no fuse.
    pub fn new(
        alloc: Global,
        bytes: Vec<u8>,
        failing: Vec<u64>,
        fuse: u64,
    ) -> Result<MemDisk, Memory>
        ensures reads { IfOk result (λ disk. disk.held.bytes.items ≡ bytes.items) }
        ensures synced { IfOk result (λ disk. (image : List ℕ) → Leaves disk.held image → image ≡ bytes.items) }
        ensures count { IfOk result (λ disk. disk.count ≡ 0) }
        ensures plan { IfOk result (λ disk. plan_of disk ≡
            record { fails = is_planned failing.items fuse; calls = 0 }) }
    {
        let length = bytes.len();
        let synced = bytes.as_slice().to_vec(alloc)?;
        let mut loose = Vec::new(alloc);
        loose.resize(length, false)?;
        Ok(MemDisk {
            alloc,
            held: Held {
                bytes,
                loose,
                synced,
                least: length,
                clean: length,
            },
            past: Past::new(),
            room: length as u64,
            count: 0,
            calls: 0,
            failing,
            fuse,
            most: u64::MAX,
        })
    }

    /// An empty disk that never fails. It takes no memory.
    pub fn empty(alloc: Global) -> MemDisk
        ensures reads { result.held.bytes.items ≡ [] }
        ensures synced { (image : List ℕ) → Leaves result.held image → image ≡ [] }
        ensures count { result.count ≡ 0 }
        ensures plan { plan_of result ≡ record { fails = is_planned [] (2 ^ 64 - 1); calls = 0 } }
    {
        MemDisk {
            alloc,
            held: Held {
                bytes: Vec::new(alloc),
                loose: Vec::new(alloc),
                synced: Vec::new(alloc),
                least: 0,
                clean: 0,
            },
            past: Past::new(),
            room: 0,
            count: 0,
            calls: 0,
            failing: Vec::new(alloc),
            fuse: u64::MAX,
            most: u64::MAX,
        }
    }

    /// The same disk with memory for a file of at most `most` bytes: past them a `reserve` is refused.
    pub fn with_memory_for(self, most: u64) -> MemDisk
        ensures { result ≡ self }
    {
        let mut disk = self;
        disk.most = most;
        disk
    }

    /// What a read gives.
    pub fn bytes(&self) -> &[u8]
        ensures { result.now ≡ self.now.held.bytes.items }
    {
        &self.held.bytes
    }

    /// One image that a stop now may leave, as a disk that never fails.
    pub fn image(&self, way: Way) -> Result<MemDisk, Memory>
        ensures reads { IfOk result (λ disk. disk.held.bytes.items ≡ image_of way self.now.held) }
        ensures left { IfOk result (λ disk. Leaves self.now.held disk.held.bytes.items) }
        ensures synced { IfOk result (λ disk. (image : List ℕ) → Leaves disk.held image →
            image ≡ image_of way self.now.held) }
        ensures plan { IfOk result (λ disk. plan_of disk ≡ record { fails = is_planned [] (2 ^ 64 - 1); calls = 0 }) }
    {
        let bytes = self.held.image(self.alloc, way)?;
        MemDisk::new(self.alloc, bytes, Vec::new(self.alloc), u64::MAX)
    }
}

impl Disk for MemDisk {
    ghost holds = { λ m. Some m.held.bytes.items };

    ghost may_leave = { λ m image. Leaves m.held image };

    ghost moment = { λ m. length m.past };

    ghost left_since = { λ m t image. LeftSince m.past m.held t image };

    ghost count = { λ m. m.count };

    ghost reserved = { λ m. m.room };

    ghost plan = { λ m. Some (plan_of m) };

    ghost as_read = { λ m file is. as_it_reads m.held file is };

    ghost counts_now = { λ m t image le now. inl now };

    ghost only_now = { λ m image left. only_this m.past m.held image left };

    fn faults(&self) -> u64 {
        self.count
    }

    fn len(&mut self) -> Result<u64, Failed> {
        call(&mut self.calls, &mut self.count, &self.failing, self.fuse)?;
        Ok(self.held.bytes.len() as u64)
    }

    fn read_at(&mut self, at: u64, into: &mut [u8]) -> Result<usize, Failed> {
        call(&mut self.calls, &mut self.count, &self.failing, self.fuse)?;
        Ok(read_from(&self.held.bytes, at, into))
    }

    fn reserve(&mut self, to: u64) -> Result<(), Memory> {
        if to <= self.room {
            return Ok(());
        }
        if to > self.most {
            return Err(AllocError);
        }
        self.held.reserve(to as usize)?;
        self.room = to;
        Ok(())
    }

    fn write_at(&mut self, at: u64, from: &[u8]) -> Result<(), Failed> {
        self.past = self.past.and(&self.held);
        self.held.write(at as usize, from);
        call(&mut self.calls, &mut self.count, &self.failing, self.fuse)
    }

    fn cut(&mut self, to: u64) -> Result<(), Failed> {
        self.past = self.past.and(&self.held);
        self.held.cut(to as usize);
        call(&mut self.calls, &mut self.count, &self.failing, self.fuse)
    }

    fn sync(&mut self) -> Result<(), Failed> {
        call(&mut self.calls, &mut self.count, &self.failing, self.fuse)?;
        self.past = self.past.and(&self.held);
        self.held.sync();
        Ok(())
    }
}

// As much of `into` as there is from `at` on.
fn read_from(bytes: &[u8], at: u64, into: &mut [u8]) -> usize
    ensures count { result ≡ min (length into.old) (length bytes.now - at) }
    ensures bytes { take result into.new ≡ take result (drop at bytes.now) }
{
    if at >= bytes.len() as u64 {
        return 0;
    }
    let rest = &bytes[at as usize..];
    let n = into.len().min(rest.len());
    into[..n].copy_from_slice(&rest[..n]);
    n
}
