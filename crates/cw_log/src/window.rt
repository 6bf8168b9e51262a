// A part of a file in memory, so that small frames are not read one by one.
ghost use Rattle.std.specs.Prelude.{◌≡◌, ◌≤◌, ◌<◌, ◌+◌, ◌-◌, List, ℕ, Option, Some, length, take, drop, IfOk, IfErr};
ghost use Rattle.std.specs.Prelude.{OnOk, OnErr, min, true};
ghost use Rattle.cw_disk.specs.Told.{Reads, Told};
ghost use Rattle.cw_types.specs.Faults.{Rose};
ghost use Rattle.cw_log.specs.Calls.{Shows, IsAhead};
ghost use Rattle.cw_log.specs.State.{OnReadFault};

use crate::ReadFault;
use crate::calls::{read, read_part};
use cw_disk::{Disk, Failed};
use std::alloc::{AllocError, Global};

// How many bytes are read at once.
const WIDTH: usize = 65536;

/// A part of a file in memory.
#[derive(Drop)]
pub struct Window {
    bytes: Vec<u8>,
    start: u64,
    filled: usize,
}

impl Window {
    ghost use Rattle.cw_log.specs.Calls.{IsWindow};

    pub(crate) fn new(alloc: Global) -> Result<Window, AllocError>
        ensures window { IfOk result (λ window. (file : List ℕ) → IsWindow file window) }
        ensures within { IfOk result (λ window. window.filled ≤ length window.bytes.items) }
    {
        let mut bytes = Vec::new(alloc);
        bytes.resize(WIDTH, 0)?;
        Ok(Window {
            bytes,
            start: 0,
            filled: 0,
        })
    }

    // Whether so many bytes from `at` on are in it.
    #[inline]
    fn has(&self, at: u64, count: usize) -> bool
        ensures { result ≡ true → (self.now.start ≤ at) × (at - self.now.start + count ≤ self.now.filled) }
    {
        at >= self.start && self.filled >= count && at - self.start <= (self.filled - count) as u64
    }

    // Reads the part from `at` on.
    fn fill<D: Disk>(&mut self, disk: &mut D, at: u64) -> Result<(), Failed>
        requires { Told D.Disk disk.old (λ file. IsWindow file self.old) }
        ensures window { Told D.Disk disk.old (λ file. IsWindow file self.new) }
        ensures size { length self.new.bytes.items ≡ length self.old.bytes.items }
        ensures start { OnOk result (self.new.start ≡ at) }
        ensures filled { OnOk result (Told D.Disk disk.old (λ file. self.new.filled ≡
            min (length self.new.bytes.items) (length file - at))) }
        ensures within { self.new.filled ≤ length self.new.bytes.items }
        ensures reads { Reads D.Disk disk.old disk.new }
        ensures cause { OnErr result (Rose (D.count disk.old) (D.count disk.new)) }
    {
        self.filled = 0;
        let n = read(disk, at, self.bytes.as_mut_slice())?;
        self.start = at;
        self.filled = n;
        Ok(())
    }

    // The five bytes from `at` on, as far as there are so many.
    #[inline]
    pub(crate) fn peek<D: Disk>(&mut self, disk: &mut D, at: u64) -> Result<[u8; 5], Failed>
        requires window { Told D.Disk disk.old (λ file. IsWindow file self.old) }
        requires within { self.old.filled ≤ length self.old.bytes.items }
        ensures window { Told D.Disk disk.old (λ file. IsWindow file self.new) }
        ensures within { self.new.filled ≤ length self.new.bytes.items }
        ensures five { IfOk result (λ five. Told D.Disk disk.old (λ file. Shows five (drop at file))) }
        ensures reads { Reads D.Disk disk.old disk.new }
        ensures cause { OnErr result (Rose (D.count disk.old) (D.count disk.new)) }
    {
        if self.has(at, 5) {
            return Ok(five_of(&self.bytes[..self.filled], (at - self.start) as usize));
        }
        self.fill(disk, at)?;
        Ok(five_of(&self.bytes[..self.filled], 0))
    }

    // How many bytes it shows at most.
    #[inline]
    pub(crate) fn width(&self) -> usize
        ensures { result ≡ length self.now.bytes.items }
    {
        self.bytes.len()
    }

    // So many of the bytes that it shows from this one of them on, or fewer where there are not so many.
    #[inline]
    pub(crate) fn shown(&self, from: usize, size: usize) -> &[u8]
        requires { (from ≤ self.now.filled) × (self.now.filled ≤ length self.now.bytes.items) }
        ensures { result.now ≡ take size (drop from (take self.now.filled self.now.bytes.items)) }
    {
        part_of(&self.bytes[..self.filled], from, size)
    }

    // Reads so many bytes from `at` on, or fewer where the disk ends, in the place of what `into` held. A
    // part that is longer than the window is read by itself.
    #[inline]
    fn part<D: Disk>(
        &mut self,
        disk: &mut D,
        at: u64,
        size: usize,
        into: &mut Vec<u8>,
    ) -> Result<(), ReadFault>
        requires window { Told D.Disk disk.old (λ file. IsWindow file self.old) }
        requires within { self.old.filled ≤ length self.old.bytes.items }
        ensures window { Told D.Disk disk.old (λ file. IsWindow file self.new) }
        ensures within { self.new.filled ≤ length self.new.bytes.items }
        ensures bytes { OnOk result (Told D.Disk disk.old (λ file. at + size ≤ length file → into.new.items ≡
            take size (drop at file))) }
        ensures reads { Reads D.Disk disk.old disk.new }
        ensures cause { IfErr result (OnReadFault (Rose (D.count disk.old) (D.count disk.new)) (Unit {0})) }
    {
        if size > self.bytes.len() {
            return read_part(disk, at, size, into);
        }
        let from = self.place_of(disk, at, size)?;
        copy_into(into, self.shown(from, size))?;
        Ok(())
    }

    // Where the bytes from `at` on lie in it. It is filled from there on where so many bytes are not in it.
    #[inline]
    pub(crate) fn place_of<D: Disk>(
        &mut self,
        disk: &mut D,
        at: u64,
        count: usize,
    ) -> Result<usize, Failed>
        requires window { Told D.Disk disk.old (λ file. IsWindow file self.old) }
        requires within { self.old.filled ≤ length self.old.bytes.items }
        requires wide { count ≤ length self.old.bytes.items }
        ensures window { Told D.Disk disk.old (λ file. IsWindow file self.new) }
        ensures within { self.new.filled ≤ length self.new.bytes.items }
        ensures place { IfOk result (λ from. (self.new.start + from ≡ at) × (from ≤ self.new.filled)) }
        ensures all { IfOk result (λ from. Told D.Disk disk.old (λ file. at + count ≤ length file →
            from + count ≤ self.new.filled)) }
        ensures reads { Reads D.Disk disk.old disk.new }
        ensures cause { OnErr result (Rose (D.count disk.old) (D.count disk.new)) }
    {
        if self.has(at, count) {
            return Ok((at - self.start) as usize);
        }
        self.fill(disk, at)?;
        Ok(0)
    }
}

// Reads so many bytes from `at` on, or fewer where the disk ends, in the place of what `into` held: by
// the window that is there, or else by a new one.
#[inline]
pub(crate) fn read_ahead<D: Disk>(
    alloc: Global,
    ahead: &mut Option<Window>,
    disk: &mut D,
    at: u64,
    size: usize,
    into: &mut Vec<u8>,
) -> Result<(), ReadFault>
    requires { IsAhead (D.holds disk.old) ahead.old }
    ensures ahead { IsAhead (D.holds disk.old) ahead.new }
    ensures bytes { OnOk result (Told D.Disk disk.old (λ file. at + size ≤ length file → into.new.items ≡
        take size (drop at file))) }
    ensures reads { Reads D.Disk disk.old disk.new }
    ensures cause { IfErr result (OnReadFault (Rose (D.count disk.old) (D.count disk.new)) (Unit {0})) }
{
    match ahead {
        Some(window) => window.part(disk, at, size, into),
        None => {
            let mut window = Window::new(alloc)?;
            let read = window.part(disk, at, size, into);
            *ahead = Some(window);
            read
        }
    }
}

// So many bytes from a place on, or fewer where there are not so many.
#[inline]
fn part_of(bytes: &[u8], from: usize, size: usize) -> &[u8]
    requires { from ≤ length bytes.now }
    ensures { result.now ≡ take size (drop from bytes.now) }
{
    let rest = &bytes[from..];
    &rest[..size.min(rest.len())]
}

// Copies these bytes into `into`, in the place of what that held.
#[inline]
fn copy_into(into: &mut Vec<u8>, bytes: &[u8]) -> Result<(), AllocError>
    ensures { OnOk result (into.new.items ≡ bytes.now) }
{
    into.clear();
    into.extend_from_slice(bytes)
}

// Up to five bytes from a place on, and 0 behind them.
#[inline]
fn five_of(bytes: &[u8], from: usize) -> [u8; 5]
    requires { from ≤ length bytes.now }
    ensures shows { Shows result (drop from bytes.now) }
    ensures size { length result ≡ 5 }
{
    let rest = &bytes[from..];
    let mut five = [0; 5];
    if rest.len() >= 5 {
        five.copy_from_slice(&rest[..5]);
        return five;
    }
    five[..rest.len()].copy_from_slice(rest);
    five
}
