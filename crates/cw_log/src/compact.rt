// How a log takes the place of another: it is written whole behind its first gate, which is closed, and that
// gate is opened last.
ghost use Rattle.std.specs.Prelude.{◌≡◌, ◌⊎◌, ◌≤◌, ◌<◌, ◌+◌, ◌^◌, ℕ, suc, None, [], ◌∷◌, ◌++◌, length, take, drop};
ghost use Rattle.std.specs.Prelude.{IfOk, IfErr, OnOk, OnErr, is_some, option_map, vec_capacity, All};
ghost use Rattle.cw_disk.specs.Told.{Adds, Reads, Settled, Told};
ghost use Rattle.cw_disk.specs.Disk.{written};
ghost use Rattle.cw_types.specs.Faults.{Rose};
ghost use Rattle.cw_log.specs.Log.{IsBody, IsUnmade, bodies_at, field, header, length_of, number_of, places_of};
ghost use Rattle.cw_log.specs.State.{IsKept, IsRest, OnReadFault};
ghost use Rattle.cw_log.specs.Compaction.{IsClosed, IsRegated, IsReplaced, IsStaged, LeavesClosed, bodies_in};
ghost use Rattle.cw_log.specs.Compaction.{with_gate_open};

use crate::calls::{flush, length_of, prepare, put};
use crate::make::clear;
use crate::open::head_of;
use crate::{Frames, ReadFault};
use cw_disk::{Disk, Failed};
use cw_types::Past;
use std::alloc::{AllocError, Global};

// How many bytes a log of these bodies has.
fn total_of(bodies: &[Vec<u8>]) -> u64
    requires { length_of (bodies_in bodies.now) < 2 ^ 64 }
    ensures { result ≡ length_of (bodies_in bodies.now) }
{
    let mut total = 17;
    for body in bodies {
        total += body.len() as u64 + 5;
    }
    total
}

// Room for the longest of these bodies in a frame, with the gates before it and behind it.
fn room_for(alloc: Global, bodies: &[Vec<u8>]) -> Result<Vec<u8>, AllocError>
    requires { All IsBody (bodies_in bodies.now) }
    ensures { IfOk result (λ room. All (λ body. length body + 6 ≤ vec_capacity room) (bodies_in bodies.now)) }
{
    let mut room = Vec::new(alloc);
    for body in bodies {
        room.reserve(body.len() + 6)?;
    }
    Ok(room)
}

// The header of this side number behind its gate, and a closed gate.
#[tactic(auto, unfolding(crate::specs::Log::header))]
fn header_of(kind: u8, number: u64) -> [u8; 16]
    ensures { result ≡ header kind number ++ 0 ∷ [] }
{
    let [a, b, c, d, e, f, g, h] = number.to_be_bytes();
    [b'C', b'W', b'L', 1, kind, 0, 0, a, b, c, d, e, f, g, h, 0]
}

// Closes the first gate of a made file, and then leaves one byte 0 of it.
fn unmake<D: Disk>(disk: &mut D) -> Result<(), Failed>
    requires settled { Settled D.Disk disk.old }
    requires room { 1 ≤ D.reserved disk.old }
    ensures done { OnOk result (D.holds disk.new ≡ option_map (λ file. 0 ∷ []) (D.holds disk.old)) }
    ensures durable { OnOk result (Settled D.Disk disk.new) }
    ensures told { is_some (D.holds disk.new) ≡ is_some (D.holds disk.old) }
    ensures adds { Told D.Disk disk.old (λ file. Adds D.Disk disk.old disk.new
        (λ image. IsRegated file image ⊎ IsUnmade image)) }
    ensures room { D.reserved disk.old ≤ D.reserved disk.new }
    ensures later { D.count disk.old ≤ D.count disk.new }
    ensures cause { OnErr result (Rose (D.count disk.old) (D.count disk.new)) }
{
    let size = length_of(disk)?;
    let head = head_of(disk)?;
    if size < 2 || head[0] == 0 {
        return clear(disk, size);
    }
    put(disk, 0, &[0])?;
    clear(disk, size)
}

// A write behind the first gate, which is closed.
fn write_behind<D: Disk>(disk: &mut D, at: u64, from: &[u8]) -> Result<(), Failed>
    requires start { Told D.Disk disk.old (λ file. at ≤ length file) }
    requires behind { 1 ≤ at }
    requires room { at + length from.now ≤ D.reserved disk.old }
    requires closed { LeavesClosed D.Disk disk.old }
    ensures done { OnOk result (D.holds disk.new ≡ option_map (λ file. written file at from.now) (D.holds disk.old)) }
    ensures closed { LeavesClosed D.Disk disk.new }
    ensures told { is_some (D.holds disk.new) ≡ is_some (D.holds disk.old) }
    ensures adds { Told D.Disk disk.old (λ file. Adds D.Disk disk.old disk.new IsClosed) }
    ensures room { D.reserved disk.old ≤ D.reserved disk.new }
    ensures later { D.count disk.old ≤ D.count disk.new }
    ensures cause { OnErr result (Rose (D.count disk.old) (D.count disk.new)) }
{
    disk.write_at(at, from)
}

// An open gate, length, body and a closed gate, in the room that is there.
#[tactic(auto, unfolding(crate::specs::Log::field))]
fn fill(room: &mut Vec<u8>, body: &[u8])
    requires few { length body.now < 2 ^ 32 }
    requires room { length body.now + 6 ≤ vec_capacity room.old }
    ensures bytes { room.new.items ≡ 1 ∷ (field body.now ++ 0 ∷ []) }
    ensures size { length room.new.items ≡ length body.now + 6 }
    ensures room { vec_capacity room.old ≤ vec_capacity room.new }
{
    room.clear();
    let Ok(()) = room.push(1) else { unreachable!() };
    let Ok(()) = room.extend_from_slice(&(body.len() as u32).to_be_bytes()) else {
        unreachable!()
    };
    let Ok(()) = room.extend_from_slice(body) else {
        unreachable!()
    };
    let Ok(()) = room.push(0) else { unreachable!() };
}

// Puts an open frame in the place of the closed gate, which is the last byte, and a closed gate behind it.
fn stage<D: Disk>(
    disk: &mut D,
    frames: &mut Frames,
    room: &mut Vec<u8>,
    body: &[u8],
) -> Result<(), Failed>
    requires gate { Told D.Disk disk.old (λ file. frames.old.gate + 1 ≡ length file) }
    requires behind { 1 ≤ frames.old.gate }
    requires few { length body.now < 2 ^ 32 }
    requires frame { length body.now + 6 ≤ vec_capacity room.old }
    requires bytes { frames.old.gate + (length body.now + 6) ≤ D.reserved disk.old }
    requires fits { frames.old.gate + (length body.now + 6) < 2 ^ 64 }
    requires unknown { frames.old.known ≡ None }
    requires closed { LeavesClosed D.Disk disk.old }
    ensures done { OnOk result (D.holds disk.new ≡ option_map
        (λ file. take frames.old.gate file ++ 1 ∷ (field body.now ++ 0 ∷ [])) (D.holds disk.old)) }
    ensures places { OnOk result (places_of frames.new ≡
        places_of frames.old ++ record { at = frames.old.gate; length = length body.now } ∷ []) }
    ensures gate { OnOk result (frames.new.gate ≡ frames.old.gate + (length body.now + 5)) }
    ensures count { OnOk result (frames.new.count ≡ frames.old.count + 1) }
    ensures unknown { frames.new.known ≡ None }
    ensures closed { LeavesClosed D.Disk disk.new }
    ensures told { is_some (D.holds disk.new) ≡ is_some (D.holds disk.old) }
    ensures adds { Told D.Disk disk.old (λ file. Adds D.Disk disk.old disk.new IsClosed) }
    ensures room { vec_capacity room.old ≤ vec_capacity room.new }
    ensures reserved { D.reserved disk.old ≤ D.reserved disk.new }
    ensures later { D.count disk.old ≤ D.count disk.new }
    ensures cause { OnErr result (Rose (D.count disk.old) (D.count disk.new)) }
{
    fill(room, body);
    write_behind(disk, frames.gate, room)?;
    frames.push(body.len() as u64);
    Ok(())
}

// Puts a log of these bodies behind the closed gate of a disk of one byte.
fn stage_all<D: Disk>(
    disk: &mut D,
    kind: u8,
    number: u64,
    room: &mut Vec<u8>,
    bodies: &[Vec<u8>],
) -> Result<Frames, Failed>
    requires one { Told D.Disk disk.old (λ file. file ≡ 0 ∷ []) }
    requires settled { Settled D.Disk disk.old }
    requires bodies { All IsBody (bodies_in bodies.now) }
    requires frames { All (λ body. length body + 6 ≤ vec_capacity room.old) (bodies_in bodies.now) }
    requires bytes { length_of (bodies_in bodies.now) ≤ D.reserved disk.old }
    requires fits { length_of (bodies_in bodies.now) < 2 ^ 64 }
    ensures staged { IfOk result (λ frames. Told D.Disk disk.new
        (λ file. IsStaged kind number (bodies_in bodies.now) frames file)) }
    ensures unknown { IfOk result (λ frames. frames.known ≡ None) }
    ensures count { IfOk result (λ frames. frames.count ≡ length bodies.now) }
    ensures gate { IfOk result (λ frames. (16 ≤ frames.gate) × (frames.gate + 1 ≡ length_of (bodies_in bodies.now))) }
    ensures closed { LeavesClosed D.Disk disk.new }
    ensures told { is_some (D.holds disk.new) ≡ is_some (D.holds disk.old) }
    ensures adds { Told D.Disk disk.old (λ file. Adds D.Disk disk.old disk.new IsClosed) }
    ensures reserved { D.reserved disk.old ≤ D.reserved disk.new }
    ensures later { D.count disk.old ≤ D.count disk.new }
    ensures cause { OnErr result (Rose (D.count disk.old) (D.count disk.new)) }
{
    write_behind(disk, 1, &header_of(kind, number))?;
    let mut frames = Frames {
        starts: Past::new(),
        count: 0,
        known: None,
        gate: 16,
    };
    for body in bodies {
        stage(disk, &mut frames, room, body)?;
    }
    Ok(frames)
}

// Opens the first gate of a log that stands behind it whole.
fn open_first<D: Disk>(disk: &mut D) -> Result<(), Failed>
    requires closed { Told D.Disk disk.old (λ file. IsClosed file) }
    requires left { LeavesClosed D.Disk disk.old }
    requires room { 1 ≤ D.reserved disk.old }
    ensures done { OnOk result (D.holds disk.new ≡ option_map with_gate_open (D.holds disk.old)) }
    ensures durable { OnOk result (Settled D.Disk disk.new) }
    ensures told { is_some (D.holds disk.new) ≡ is_some (D.holds disk.old) }
    ensures adds { Told D.Disk disk.old (λ file. Adds D.Disk disk.old disk.new
        (λ image. IsUnmade image ⊎ ((gate : ℕ) × (image ≡ suc gate ∷ drop 1 file)))) }
    ensures later { D.count disk.old ≤ D.count disk.new }
    ensures cause { OnErr result (Rose (D.count disk.old) (D.count disk.new)) }
{
    flush(disk)?;
    put(disk, 0, &[1])
}

/// Makes a log of these bodies of the disk, in place of what is there.
pub(crate) fn replace<D: Disk>(
    alloc: Global,
    disk: &mut D,
    kind: u8,
    number: u64,
    bodies: &[Vec<u8>],
) -> Result<Frames, ReadFault>
    requires settled { Settled D.Disk disk.old }
    requires bodies { All IsBody (bodies_in bodies.now) }
    requires fits { length_of (bodies_in bodies.now) < 2 ^ 64 }
    ensures kept { IfOk result (λ frames. Told D.Disk disk.new
        (λ file. IsKept kind frames.gate (places_of frames) file × IsRest frames.gate (D.may_leave disk.new) file)) }
    ensures list { IfOk result (λ frames. option_map (bodies_at (places_of frames)) (D.holds disk.new) ≡
        option_map (λ _. bodies_in bodies.now) (D.holds disk.old)) }
    ensures side { OnOk result (Told D.Disk disk.new (λ file. number_of file ≡ number)) }
    ensures unknown { IfOk result (λ frames. frames.known ≡ None) }
    ensures count { IfOk result (λ frames. frames.count ≡ length bodies.now) }
    ensures gate { IfOk result (λ frames. (16 ≤ frames.gate) × (frames.gate + 1 ≡ length_of (bodies_in bodies.now))) }
    ensures told { is_some (D.holds disk.new) ≡ is_some (D.holds disk.old) }
    ensures adds { Told D.Disk disk.old (λ file. Adds D.Disk disk.old disk.new
        (IsReplaced kind number (bodies_in bodies.now) file)) }
    ensures later { D.count disk.old ≤ D.count disk.new }
    ensures cause { IfErr result (OnReadFault
        (Rose (D.count disk.old) (D.count disk.new)) (Reads D.Disk disk.old disk.new)) }
{
    let mut room = room_for(alloc, bodies)?;
    prepare(disk, total_of(bodies))?;
    unmake(disk)?;
    let frames = stage_all(disk, kind, number, &mut room, bodies)?;
    open_first(disk)?;
    Ok(frames)
}
