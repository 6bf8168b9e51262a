// What a disk in memory keeps beside its bytes, so that the images of a stop can be read off.
ghost use Rattle.std.specs.Prelude.{◌≡◌, ◌≤◌, ◌<◌, ◌+◌, ◌-◌, List, ℕ, [], ◌∷◌, length, take, min, max, Bool, true};
ghost use Rattle.std.specs.Prelude.{false, vec_len, vec_capacity, replicate, IfOk, OnOk, if◌then◌else◌, slice_index_or};
ghost use Rattle.cw_disk.specs.Disk.{written};
ghost use Rattle.cw_disk.specs.Memory.{is_first_byte, noise};

use crate::Way;
use std::alloc::{AllocError, Global};

/// The bytes of a disk in memory, and which of them a stop may lose.
#[derive(Drop)]
pub struct Held {
    // What a read gives.
    pub(crate) bytes: Vec<u8>,
    // Which bytes were written or cut since the last sync, up to the greatest length since then.
    pub(crate) loose: Vec<bool>,
    // What a read gave at the last sync.
    pub(crate) synced: Vec<u8>,
    // The least length since the last sync.
    pub(crate) least: usize,
    // Below it no byte is loose.
    pub(crate) clean: usize,
}

// The same values over the place `at`, which lie in the room that is there.
pub(crate) fn overwrite(bytes: &mut Vec<u8>, at: usize, from: &[u8])
    requires start { at ≤ length bytes.old.items }
    requires room { at + length from.now ≤ vec_capacity bytes.old }
    ensures items { bytes.new.items ≡ written bytes.old.items at from.now }
    ensures room { vec_capacity bytes.old ≤ vec_capacity bytes.new }
{
    if from.len() < bytes.len() - at {
        bytes[at..at + from.len()].copy_from_slice(from);
        return;
    }
    bytes.truncate(at);
    let Ok(()) = bytes.extend_from_slice(from) else {
        unreachable!()
    };
}

// One mark at `n` places from `at` on.
pub(crate) fn mark(loose: &mut Vec<bool>, at: usize, n: usize, value: bool)
    requires start { at ≤ length loose.old.items }
    requires room { at + n ≤ vec_capacity loose.old }
    ensures items { loose.new.items ≡ written loose.old.items at (replicate n value) }
    ensures room { vec_capacity loose.old ≤ vec_capacity loose.new }
{
    if n < loose.len() - at {
        loose[at..at + n].fill(value);
        return;
    }
    loose.truncate(at);
    let Ok(()) = loose.resize(at + n, value) else {
        unreachable!()
    };
}

// Whether a stop leaves this write whole or not at all: the byte 0 at 0, where nothing longer is there.
fn is_first_byte(at: usize, from: &[u8], length: usize) -> bool
    ensures { result ≡ is_first_byte at from.now length }
{
    match from {
        [0] => at == 0 && length <= 1,
        _ => false,
    }
}

impl Held {
    ghost use Rattle.cw_disk.specs.Memory.{IsHeld, HasRoom, Wrote, Shortened, Fastened, image_of};

    pub(crate) fn write(&mut self, at: usize, from: &[u8])
        requires held { IsHeld self.old }
        requires start { at ≤ length self.old.bytes.items }
        requires room { (room : ℕ) × (at + length from.now ≤ room) × HasRoom room self.old }
        ensures wrote { Wrote at from.now self.old self.new }
        ensures room { (room : ℕ) → at + length from.now ≤ room → HasRoom room self.old → HasRoom room self.new }
    {
        let first = is_first_byte(at, from, self.loose.len());
        overwrite(&mut self.bytes, at, from);
        mark(&mut self.loose, at, from.len(), !first);
        if first {
            self.synced.as_mut_slice().fill(0);
        }
        self.clean = self.clean.min(at);
    }

    pub(crate) fn cut(&mut self, to: usize)
        requires held { IsHeld self.old }
        requires end { to ≤ length self.old.bytes.items }
        requires room { (room : ℕ) × HasRoom room self.old }
        ensures cut { Shortened to self.old self.new }
        ensures room { (room : ℕ) → HasRoom room self.old → HasRoom room self.new }
    {
        self.bytes.truncate(to);
        let greatest = self.loose.len();
        mark(&mut self.loose, to, greatest - to, true);
        self.least = self.least.min(to);
        self.clean = self.clean.min(to);
    }

    // The image of this way.
    pub(crate) fn image(&self, alloc: Global, way: Way) -> Result<Vec<u8>, AllocError>
        ensures { IfOk result (λ image. image.items ≡ image_of way self.now) }
    {
        match way {
            Way::AsRead => self.bytes.as_slice().to_vec(alloc),
            Way::Old => self.synced.as_slice().to_vec(alloc),
            Way::Noise => noisy(alloc, &self.bytes, &self.loose),
        }
    }

    pub(crate) fn reserve(&mut self, to: usize) -> Result<(), AllocError>
        ensures bytes { self.new.bytes.items ≡ self.old.bytes.items }
        ensures loose { self.new.loose.items ≡ self.old.loose.items }
        ensures synced { self.new.synced.items ≡ self.old.synced.items }
        ensures least { self.new.least ≡ self.old.least }
        ensures clean { self.new.clean ≡ self.old.clean }
        ensures kept { (room : ℕ) → HasRoom room self.old → HasRoom room self.new }
        ensures room { OnOk result (length self.old.loose.items ≤ to → length self.old.bytes.items ≤ to →
            length self.old.synced.items ≤ to → HasRoom to self.new) }
    {
        let (bytes, loose, synced) = (self.bytes.len(), self.loose.len(), self.synced.len());
        self.bytes.reserve(to.saturating_sub(bytes))?;
        self.loose.reserve(to.saturating_sub(loose))?;
        self.synced.reserve(to.saturating_sub(synced))
    }

    pub(crate) fn sync(&mut self)
        requires held { IsHeld self.old }
        requires room { (room : ℕ) × HasRoom room self.old }
        ensures fast { Fastened self.old self.new }
        ensures room { (room : ℕ) → HasRoom room self.old → HasRoom room self.new }
    {
        let length = self.bytes.len();
        copy_behind(&mut self.synced, self.clean, &self.bytes);
        fasten_behind(&mut self.loose, self.clean, length);
        self.least = length;
        self.clean = length;
    }
}

// The same bytes, which agree up to `clean` already.
fn copy_behind(synced: &mut Vec<u8>, clean: usize, bytes: &[u8])
    requires agree { take clean synced.old.items ≡ take clean bytes.now }
    requires clean { clean ≤ length bytes.now }
    requires there { clean ≤ length synced.old.items }
    requires room { length bytes.now ≤ vec_capacity synced.old }
    ensures items { synced.new.items ≡ bytes.now }
    ensures room { vec_capacity synced.old ≤ vec_capacity synced.new }
{
    synced.truncate(clean);
    let Ok(()) = synced.extend_from_slice(&bytes[clean..]) else {
        unreachable!()
    };
}

// No mark at `length` places, where up to `clean` there is none already.
fn fasten_behind(loose: &mut Vec<bool>, clean: usize, length: usize)
    requires agree { take clean loose.old.items ≡ replicate clean false }
    requires clean { clean ≤ length }
    requires there { clean ≤ vec_len loose.old }
    requires room { length ≤ vec_capacity loose.old }
    ensures items { loose.new.items ≡ replicate length false }
    ensures room { vec_capacity loose.old ≤ vec_capacity loose.new }
{
    loose.truncate(clean);
    let Ok(()) = loose.resize(length, false) else {
        unreachable!()
    };
}

// A loose byte as noise, and another as it is.
fn noise_byte(bytes: &[u8], loose: bool, at: usize) -> u8
    ensures { result ≡ (if loose then 255 else slice_index_or bytes.now at 0) }
{
    if loose {
        return 0xFF;
    }
    if at < bytes.len() { bytes[at] } else { 0 }
}

// The bytes with 0xFF at each loose place, at the greatest length.
fn noisy(alloc: Global, bytes: &[u8], loose: &[bool]) -> Result<Vec<u8>, AllocError>
    ensures { IfOk result (λ image. image.items ≡ noise bytes.now loose.now) }
{
    let mut image = Vec::with_capacity(alloc, loose.len())?;
    for i in 0..loose.len() {
        image.push(noise_byte(bytes, loose[i], i))?;
    }
    Ok(image)
}
