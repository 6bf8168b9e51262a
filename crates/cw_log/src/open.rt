// Opening the file of a log: it is synced, read, and then made or cut behind its closed gate.
ghost use Rattle.std.specs.Prelude.{◌≡◌, ◌≤◌, ◌<◌, ◌+◌, ◌^◌, List, ℕ, Option, Some, None, [], ◌∷◌, ◌++◌, length, take};
ghost use Rattle.std.specs.Prelude.{drop, IfOk, IfErr, OnOk, OnErr, is_some, option_map, true};
ghost use Rattle.cw_disk.specs.Told.{Adds, Reads, Told};
ghost use Rattle.cw_disk.specs.Disk.{Only};
ghost use Rattle.cw_types.specs.Faults.{Rose};
ghost use Rattle.cw_log.specs.Log.{IsUnmade, IsDamaged, StandsFor, StandAlike, Begins, IsFrame, OnCause, EndsAtGate};
ghost use Rattle.cw_log.specs.Log.{HasHead, OpensAs, byte_at, harm_of_head, harm_of_file, bodies_at, new_log};
ghost use Rattle.cw_log.specs.Log.{number_of, places_of};
ghost use Rattle.cw_log.specs.State.{IsKept, IsRest, OpensTo, HasFront};

use crate::calls::{flush, length_of, prepare, read, shorten};
use crate::make::make;
use crate::scan::scan;
use crate::{BodyVisitor, Frames, Harm, OpenCause};
use cw_disk::{Disk, Failed};
use cw_types::Past;
use std::alloc::Global;

// The first 16 bytes, as far as there are so many.
pub(crate) fn head_of<D: Disk>(disk: &mut D) -> Result<[u8; 16], Failed>
    ensures first { IfOk result (λ head. Told D.Disk disk.old (λ file. 0 < length file → byte_at head 0 ≡
        byte_at file 0)) }
    ensures whole { IfOk result (λ head. Told D.Disk disk.old (λ file. 16 ≤ length file → head ≡ take 16 file)) }
    ensures reads { Reads D.Disk disk.old disk.new }
    ensures cause { OnErr result (Rose (D.count disk.old) (D.count disk.new)) }
{
    let mut head = [0; 16];
    let _ = read(disk, 0, &mut head)?;
    Ok(head)
}

// The first harm of a header.
pub(crate) fn harm_in(kind: u8, head: &[u8]) -> Option<Harm>
    requires { length head.now ≡ 16 }
    ensures { result ≡ harm_of_head kind head.now }
{
    if head[6] != 0 || head[7] != 0 {
        return Some(Harm::Header);
    }
    if head[1] != b'C' || head[2] != b'W' || head[3] != b'L' {
        return Some(Harm::Magic);
    }
    if head[4] != 1 {
        return Some(Harm::Version);
    }
    if head[5] != kind {
        return Some(Harm::Kind);
    }
    None
}

// Cuts off what lies behind the closed gate of a file of this size, if there is anything.
fn trim<D: Disk>(disk: &mut D, gate: u64, size: u64) -> Result<(), Failed>
    requires size { Told D.Disk disk.old (λ file. size ≡ length file) }
    requires settled { Told D.Disk disk.old (λ file. Only file (D.may_leave disk.old)) }
    requires within { gate < size }
    ensures done { OnOk result (D.holds disk.new ≡ option_map (λ file. take (gate + 1) file) (D.holds disk.old)) }
    ensures durable { OnOk result (Told D.Disk disk.new (λ file. Only file (D.may_leave disk.new))) }
    ensures told { is_some (D.holds disk.new) ≡ is_some (D.holds disk.old) }
    ensures adds { Told D.Disk disk.old (λ file. Adds D.Disk disk.old disk.new (HasFront (gate + 1) file)) }
    ensures later { D.count disk.old ≤ D.count disk.new }
    ensures cause { OnErr result (Rose (D.count disk.old) (D.count disk.new)) }
{
    if gate + 1 < size {
        return shorten(disk, gate + 1);
    }
    Ok(())
}

// Opens a made file of this size, whose header is at hand. The visitor is shown its bodies.
fn open_made<D: Disk, V: BodyVisitor>(
    alloc: Global,
    disk: &mut D,
    kind: u8,
    size: u64,
    head: &[u8],
    visitor: &mut V,
) -> Result<Frames, OpenCause>
    requires size { Told D.Disk disk.old (λ file. size ≡ length file) }
    requires settled { Told D.Disk disk.old (λ file. Only file (D.may_leave disk.old)) }
    requires made { Told D.Disk disk.old (λ file. (2 ≤ length file) × (0 < byte_at file 0)) }
    requires head { Told D.Disk disk.old (λ file. 16 ≤ length file → head.now ≡ take 16 file) }
    requires whole { length head.now ≡ 16 }
    ensures kept { IfOk result (λ found. Told D.Disk disk.new (λ file. IsKept kind found.gate (places_of found) file ×
        IsRest found.gate (D.may_leave disk.new) file)) }
    ensures list { IfOk result (λ found. Told D.Disk disk.old
        (λ file. OpensTo kind (places_of found) (D.holds disk.new) file)) }
    ensures seen { IfOk result (λ found. V.has_seen visitor.old [] → (now : List ℕ) → D.holds disk.new ≡ Some now →
        V.has_seen visitor.new (bodies_at (places_of found) now)) }
    ensures unknown { IfOk result (λ found. found.known ≡ None) }
    ensures gate { IfOk result (λ found. (16 ≤ found.gate) × (found.gate + 1 < 2 ^ 64)) }
    ensures bytes { OnOk result (Told D.Disk disk.old (λ file. EndsAtGate file (D.holds disk.new))) }
    ensures same { OnOk result (Told D.Disk disk.new (λ now. take 16 now ≡ head.now)) }
    ensures told { OnOk result (is_some (D.holds disk.new) ≡ is_some (D.holds disk.old)) }
    ensures cause { IfErr result (OnCause
        (λ at harm. (D.holds disk.new ≡ D.holds disk.old) × (Told D.Disk disk.old
        (λ file. IsDamaged kind file at harm)))
        (Rose (D.count disk.old) (D.count disk.new))
        (D.holds disk.new ≡ D.holds disk.old)) }
    ensures adds { Told D.Disk disk.old (λ file. Adds D.Disk disk.old disk.new (StandAlike kind file)) }
    ensures head { Told D.Disk disk.old (λ file. Adds D.Disk disk.old disk.new (HasHead file)) }
    ensures later { D.count disk.old ≤ D.count disk.new }
{
    if size < 17 {
        return Err(OpenCause::Damaged {
            at: 0,
            harm: Harm::Header,
        });
    }
    if let Some(harm) = harm_in(kind, head) {
        return Err(OpenCause::Damaged { at: 0, harm });
    }
    let found = scan(alloc, disk, size, visitor)?;
    trim(disk, found.gate, size)?;
    Ok(found)
}

// Makes a log of an unmade file of this size.
fn open_new<D: Disk>(disk: &mut D, kind: u8, size: u64) -> Result<Frames, OpenCause>
    requires size { Told D.Disk disk.old (λ file. size ≡ length file) }
    requires settled { Told D.Disk disk.old (λ file. Only file (D.may_leave disk.old)) }
    requires unmade { Told D.Disk disk.old (λ file. IsUnmade file) }
    ensures kept { IfOk result (λ found. Told D.Disk disk.new (λ file. IsKept kind found.gate (places_of found) file ×
        IsRest found.gate (D.may_leave disk.new) file)) }
    ensures list { IfOk result (λ found. Told D.Disk disk.old
        (λ file. OpensTo kind (places_of found) (D.holds disk.new) file)) }
    ensures none { IfOk result (λ found. places_of found ≡ []) }
    ensures unknown { IfOk result (λ found. found.known ≡ None) }
    ensures gate { IfOk result (λ found. (16 ≤ found.gate) × (found.gate + 1 < 2 ^ 64)) }
    ensures bytes { OnOk result (D.holds disk.new ≡ option_map (λ file. new_log kind) (D.holds disk.old)) }
    ensures told { OnOk result (is_some (D.holds disk.new) ≡ is_some (D.holds disk.old)) }
    ensures cause { IfErr result (OnCause
        (λ at harm. ⊥) (Rose (D.count disk.old) (D.count disk.new)) (D.holds disk.new ≡ D.holds disk.old)) }
    ensures adds { Told D.Disk disk.old (λ file. Adds D.Disk disk.old disk.new (StandAlike kind file)) }
    ensures later { D.count disk.old ≤ D.count disk.new }
{
    prepare(disk, 17)?;
    make(disk, kind, size)?;
    Ok(Frames {
        starts: Past::new(),
        count: 0,
        known: None,
        gate: 16,
    })
}

/// What an opening finds: the frames, and the side number.
#[derive(Drop)]
pub(crate) struct Found {
    pub(crate) frames: Frames,
    pub(crate) number: u64,
}

// The side number in a header.
pub(crate) fn number_in(head: &[u8]) -> u64
    requires { length head.now ≡ 16 }
    ensures { result ≡ number_of head.now }
{
    u64::from_be_bytes([
        head[8], head[9], head[10], head[11], head[12], head[13], head[14], head[15],
    ])
}

// Opens the file: syncs it, reads it, and makes a log of it or cuts it behind its closed gate. The visitor is
// shown its bodies.
pub(crate) fn opened<D: Disk, V: BodyVisitor>(
    alloc: Global,
    disk: &mut D,
    kind: u8,
    visitor: &mut V,
) -> Result<Found, OpenCause>
    ensures kept { IfOk result (λ found. Told D.Disk disk.new
        (λ file. IsKept kind found.frames.gate (places_of found.frames) file ×
        IsRest found.frames.gate (D.may_leave disk.new) file)) }
    ensures list { IfOk result (λ found. Told D.Disk disk.old
        (λ file. OpensTo kind (places_of found.frames) (D.holds disk.new) file)) }
    ensures seen { IfOk result (λ found. V.has_seen visitor.old [] → (now : List ℕ) → D.holds disk.new ≡ Some now →
        V.has_seen visitor.new (bodies_at (places_of found.frames) now)) }
    ensures unknown { IfOk result (λ found. found.frames.known ≡ None) }
    ensures gate { IfOk result (λ found. (16 ≤ found.frames.gate) × (found.frames.gate + 1 < 2 ^ 64)) }
    ensures bytes { IfOk result (λ found. Told D.Disk disk.old
        (λ file. OpensAs kind found.number file (D.holds disk.new))) }
    ensures side { IfOk result (λ found. Told D.Disk disk.new (λ now. number_of now ≡ found.number)) }
    ensures told { OnOk result (is_some (D.holds disk.new) ≡ is_some (D.holds disk.old)) }
    ensures cause { IfErr result (OnCause
        (λ at harm. (D.holds disk.new ≡ D.holds disk.old) × (Told D.Disk disk.old
        (λ file. IsDamaged kind file at harm)))
        (Rose (D.count disk.old) (D.count disk.new))
        (D.holds disk.new ≡ D.holds disk.old)) }
    ensures adds { Told D.Disk disk.old (λ file. Adds D.Disk disk.old disk.new (StandAlike kind file)) }
    ensures head { Told D.Disk disk.old (λ file. 2 ≤ length file → 0 < byte_at file 0 →
        Adds D.Disk disk.old disk.new (HasHead file)) }
    ensures later { D.count disk.old ≤ D.count disk.new }
{
    let (size, head) = first_part(disk)?;
    if size < 2 || head[0] == 0 {
        let frames = open_new(disk, kind, size)?;
        return Ok(Found { frames, number: 1 });
    }
    let frames = open_made(alloc, disk, kind, size, &head, visitor)?;
    Ok(Found {
        frames,
        number: number_in(&head),
    })
}

// Syncs the disk, and reads its length and its first 16 bytes.
fn first_part<D: Disk>(disk: &mut D) -> Result<(u64, [u8; 16]), Failed>
    ensures size { IfOk result (λ part. Told D.Disk disk.old (λ file. part.0 ≡ length file)) }
    ensures first { IfOk result (λ part. Told D.Disk disk.old (λ file. 0 < length file → byte_at part.1 0 ≡
        byte_at file 0)) }
    ensures whole { IfOk result (λ part. Told D.Disk disk.old (λ file. 16 ≤ length file → part.1 ≡ take 16 file)) }
    ensures settled { OnOk result (Told D.Disk disk.old (λ file. Only file (D.may_leave disk.new))) }
    ensures reads { Reads D.Disk disk.old disk.new }
    ensures cause { OnErr result (Rose (D.count disk.old) (D.count disk.new)) }
{
    flush(disk)?;
    let size = length_of(disk)?;
    let head = head_of(disk)?;
    Ok((size, head))
}
