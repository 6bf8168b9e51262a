//! A disk in memory that never fails.
ghost use Rattle.std.specs.Prelude.{◌≡◌, ◌≤◌, ◌+◌, ◌-◌, None, Some, [], length, take, drop, min, vec_capacity};
ghost use Rattle.std.proofs.Common.{inl};
ghost use Rattle.cw_disk.specs.Disk.{written};
ghost use Rattle.cw_gen.specs.Steady.{LeftSince, as_it_reads, only_this};

use cw_disk::{Disk, Failed, Memory};
use cw_types::Past;
use std::alloc::Global;

/// What it holds.
#[derive(Drop)]
pub(crate) struct Content {
    pub(crate) bytes: Vec<u8>,
}

/// A disk in memory that never fails, and of which a stop leaves what a read gives. Only want of memory stops it from
/// growing.
#[derive(Drop)]
pub(crate) struct SteadyDisk {
    held: Content,
    past: Past<Content>,
    room: u64,
    ghost wide: { room ≤ vec_capacity held.bytes },
}

impl SteadyDisk {
    /// With no byte. It takes no memory.
    pub(crate) fn new(alloc: Global) -> SteadyDisk
        ensures { result.held.bytes.items ≡ [] }
    {
        SteadyDisk {
            held: Content {
                bytes: Vec::new(alloc),
            },
            past: Past::new(),
            room: 0,
        }
    }
}

impl Disk for SteadyDisk {
    ghost holds = { λ d. Some d.held.bytes.items };

    ghost may_leave = { λ d image. image ≡ d.held.bytes.items };

    ghost moment = { λ d. length d.past.items };

    ghost left_since = { λ d t image. LeftSince d.past.items d.held t image };

    ghost count = { λ _. 0 };

    ghost reserved = { λ d. d.room };

    ghost plan = { λ _. None };

    ghost as_read = { λ d file is. as_it_reads d.held file is };

    ghost counts_now = { λ d t image le now. inl now };

    ghost only_now = { λ d image left. only_this d.past.items d.held image left };

    fn faults(&self) -> u64 {
        0
    }

    fn len(&mut self) -> Result<u64, Failed> {
        Ok(self.held.bytes.len() as u64)
    }

    fn read_at(&mut self, at: u64, into: &mut [u8]) -> Result<usize, Failed> {
        Ok(read_from(&self.held.bytes, at, into))
    }

    fn reserve(&mut self, to: u64) -> Result<(), Memory> {
        if to > self.room {
            let more = (to as usize).saturating_sub(self.held.bytes.len());
            self.held.bytes.reserve(more)?;
            self.room = to;
        }
        Ok(())
    }

    fn write_at(&mut self, at: u64, from: &[u8]) -> Result<(), Failed> {
        self.past = self.past.and(&self.held);
        overwrite(&mut self.held.bytes, at as usize, from);
        Ok(())
    }

    fn cut(&mut self, to: u64) -> Result<(), Failed> {
        self.past = self.past.and(&self.held);
        self.held.bytes.truncate(to as usize);
        Ok(())
    }

    fn sync(&mut self) -> Result<(), Failed> {
        Ok(())
    }
}

// The same bytes over the place `at`, within the room that is there.
fn overwrite(bytes: &mut Vec<u8>, at: usize, from: &[u8])
    requires start { at ≤ length bytes.old.items }
    requires room { at + length from.now ≤ vec_capacity bytes.old }
    ensures items { bytes.new.items ≡ written bytes.old.items at from.now }
    ensures room { vec_capacity bytes.old ≤ vec_capacity bytes.new }
{
    if from.len() < bytes.len() - at {
        bytes[at..at + from.len()].copy_from_slice(from);
        return;
    }
    bytes.truncate(at);
    let Ok(()) = bytes.extend_from_slice(from) else {
        unreachable!()
    };
}

// As much of `into` as there is from `at` on.
fn read_from(bytes: &[u8], at: u64, into: &mut [u8]) -> usize
    ensures count { result ≡ min (length into.old) (length bytes.now - at) }
    ensures bytes { take result into.new ≡ take result (drop at bytes.now) }
{
    if at >= bytes.len() as u64 {
        return 0;
    }
    let rest = &bytes[at as usize..];
    let n = into.len().min(rest.len());
    into[..n].copy_from_slice(&rest[..n]);
    n
}
