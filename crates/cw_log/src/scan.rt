// Reading the frames of a made file.
ghost use Rattle.std.specs.Prelude.{◌≡◌, ◌≤◌, ◌<◌, ◌+◌, ◌-◌, ◌^◌, ◌++◌, ◌∷◌, [], List, ℕ, Some, None, length, take};
ghost use Rattle.std.specs.Prelude.{drop, IfOk, IfErr, OnOk, OnErr};
ghost use Rattle.cw_disk.specs.Told.{Reads, Told};
ghost use Rattle.cw_types.specs.Faults.{Rose};
ghost use Rattle.cw_log.specs.Calls.{Shows, IsWindow};
ghost use Rattle.cw_log.specs.Log.{IsFrame, EndsWithin, Begins, BreaksAt, OnCause, bodies_at, length_of, places_of};

use crate::calls::read_part;
use crate::{BodyVisitor, Frame, Frames, Harm, OpenCause, Window};
use cw_disk::{Disk, Failed};
use cw_types::Past;
use std::alloc::Global;

// The frame that five bytes show, where so many are left in the file.
#[inline]
fn frame_of(five: &[u8], left: u64) -> Frame
    requires five { length five.now ≡ 5 }
    requires some { 0 < left }
    ensures frame { (bytes : List ℕ) → length bytes ≡ left → Shows five.now bytes → IsFrame result bytes }
    ensures within { EndsWithin left result }
{
    if five[0] == 0 {
        return Frame::Closed;
    }
    if left < 5 {
        return Frame::Broken;
    }
    let length = u32::from_be_bytes([five[1], five[2], five[3], five[4]]) as u64;
    if length == 0 || left - 5 < length {
        return Frame::Broken;
    }
    Frame::Open(length)
}

// The frame at a place of a file of this size.
#[inline]
pub(crate) fn frame_at<D: Disk>(
    disk: &mut D,
    window: &mut Window,
    at: u64,
    size: u64,
) -> Result<Frame, Failed>
    requires size { Told D.Disk disk.old (λ file. size ≡ length file) }
    requires window { Told D.Disk disk.old (λ file. IsWindow file window.old) }
    requires within { window.old.filled ≤ length window.old.bytes.items }
    ensures window { Told D.Disk disk.old (λ file. IsWindow file window.new) }
    ensures within { window.new.filled ≤ length window.new.bytes.items }
    ensures frame { IfOk result (λ frame. Told D.Disk disk.old (λ file. IsFrame frame (drop at file))) }
    ensures ends { IfOk result (EndsWithin (size - at)) }
    ensures reads { Reads D.Disk disk.old disk.new }
    ensures cause { OnErr result (Rose (D.count disk.old) (D.count disk.new)) }
{
    if at >= size {
        return Ok(Frame::Broken);
    }
    let five = window.peek(disk, at)?;
    Ok(frame_of(&five, size - at))
}

// Shows the body of so many bytes that lies in a frame with its gate at this place. One that is longer than the
// window is read by itself.
#[inline]
fn show<D: Disk, V: BodyVisitor>(
    alloc: Global,
    disk: &mut D,
    window: &mut Window,
    at: u64,
    count: u64,
    visitor: &mut V,
) -> Result<(), OpenCause>
    requires window { Told D.Disk disk.old (λ file. IsWindow file window.old) }
    requires within { window.old.filled ≤ length window.old.bytes.items }
    requires whole { Told D.Disk disk.old (λ file. at + (5 + count) ≤ length file) }
    requires fits { at + (5 + count) < 2 ^ 64 }
    ensures window { Told D.Disk disk.old (λ file. IsWindow file window.new) }
    ensures within { window.new.filled ≤ length window.new.bytes.items }
    ensures seen { OnOk result (Told D.Disk disk.old (λ file. (bodies : List (List ℕ)) → at + 1 ≡ length_of bodies →
        V.has_seen visitor.old bodies → V.has_seen visitor.new (bodies ++ take count (drop (at + 5) file) ∷ []))) }
    ensures reads { Reads D.Disk disk.old disk.new }
    ensures cause { IfErr result (OnCause (λ at harm. ⊥) (Rose (D.count disk.old) (D.count disk.new)) (Unit {0})) }
{
    let size = count as usize;
    if size > window.width() {
        let mut body = Vec::new(alloc);
        read_part(disk, at + 5, size, &mut body)?;
        visitor.see(body.as_slice(), at)?;
        return Ok(());
    }
    let from = window.place_of(disk, at + 5, size)?;
    visitor.see(window.shown(from, size), at)?;
    Ok(())
}

/// The frames of a file of this size, which has a header. The visitor is shown their bodies.
pub(crate) fn scan<D: Disk, V: BodyVisitor>(
    alloc: Global,
    disk: &mut D,
    size: u64,
    visitor: &mut V,
) -> Result<Frames, OpenCause>
    requires size { Told D.Disk disk.old (λ file. size ≡ length file) }
    requires long { 16 ≤ size }
    ensures found { IfOk result (λ found. Told D.Disk disk.old (λ file. Begins found.gate (places_of found) file ×
        IsFrame Frame.Closed (drop found.gate file))) }
    ensures seen { IfOk result (λ found. Told D.Disk disk.old (λ file. V.has_seen visitor.old [] →
        V.has_seen visitor.new (bodies_at (places_of found) file))) }
    ensures unknown { IfOk result (λ found. found.known ≡ None) }
    ensures gate { IfOk result (λ found. (16 ≤ found.gate) × (found.gate < size)) }
    ensures cause { IfErr result (OnCause (λ at harm. (harm ≡ Harm.Length) × (Told D.Disk disk.old
        (λ file. BreaksAt at file))) (Rose (D.count disk.old) (D.count disk.new)) (Unit {0})) }
    ensures reads { Reads D.Disk disk.old disk.new }
{
    let mut starts = Past::new();
    let mut count = 0;
    let mut window = Window::new(alloc)?;
    let mut at = 16;
    visitor.expect(size);
    'frames: loop {
        match frame_at(disk, &mut window, at, size)? {
            Frame::Closed => {
                return Ok(Frames {
                    starts,
                    count,
                    known: None,
                    gate: at,
                });
            }
            Frame::Broken => {
                return Err(OpenCause::Damaged {
                    at,
                    harm: Harm::Length,
                });
            }
            Frame::Open(length) => {
                show(alloc, disk, &mut window, at, length, visitor)?;
                starts = starts.and(&at);
                count += 1;
                at += 5 + length;
            }
        }
    }
}
