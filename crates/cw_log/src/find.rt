// Looking for the frames of a log, and reading one body.
ghost use Rattle.std.specs.Prelude.{◌≡◌, ◌≤◌, ◌<◌, ◌+◌, ◌^◌, [], List, ℕ, Some, length, slice_index_or, IfOk, IfErr};
ghost use Rattle.std.specs.Prelude.{OnOk};
ghost use Rattle.cw_disk.specs.Told.{Reads, Told};
ghost use Rattle.cw_types.specs.Faults.{Rose};
ghost use Rattle.cw_log.specs.Calls.{IsAhead};
ghost use Rattle.cw_log.specs.Log.{Begins, bodies_at, places_before, places_of};
ghost use Rattle.cw_log.specs.State.{IsFound, IsKnown, KeepsFrames, OnReadFault};

use crate::calls::length_of;
use crate::scan::frame_at;
use crate::window::read_ahead;
use crate::{Frame, Frames, ReadFault, Window};
use cw_disk::Disk;
use std::alloc::Global;

// Where the first frames of a file begin, so many. Fewer come only where somebody else changed the file.
fn starts_of<D: Disk>(alloc: Global, disk: &mut D, count: u64) -> Result<Vec<u64>, ReadFault>
    ensures starts { IfOk result (λ found. Told D.Disk disk.old (λ file. (gate : ℕ) (starts : List ℕ) →
        Begins gate (places_before gate starts) file → length starts ≡ count → found.items ≡ starts)) }
    ensures reads { Reads D.Disk disk.old disk.new }
    ensures cause { IfErr result (OnReadFault (Rose (D.count disk.old) (D.count disk.new)) (Unit {0})) }
{
    let size = length_of(disk)?;
    let mut starts = Vec::new(alloc);
    let mut window = Window::new(alloc)?;
    let mut at = 16;
    'frames: while (starts.len() as u64) < count {
        match frame_at(disk, &mut window, at, size)? {
            Frame::Closed => return Ok(starts),
            Frame::Broken => return Ok(starts),
            Frame::Open(length) => {
                starts.push(at)?;
                at += 5 + length;
            }
        }
    }
    Ok(starts)
}

// Looks for the frames of a log, where that wasn't done yet.
fn find<D: Disk>(alloc: Global, disk: &mut D, frames: &mut Frames) -> Result<(), ReadFault>
    requires known { Told D.Disk disk.old (λ file. Begins frames.old.gate (places_of frames.old) file ×
        IsKnown frames.old.known frames.old.starts.items) }
    ensures found { OnOk result (Told D.Disk disk.old (λ file. IsFound frames.new.known frames.new.starts.items)) }
    ensures known { Told D.Disk disk.old (λ file. IsKnown frames.new.known frames.new.starts.items) }
    ensures keeps { KeepsFrames frames.old frames.new }
    ensures reads { Reads D.Disk disk.old disk.new }
    ensures cause { IfErr result (OnReadFault (Rose (D.count disk.old) (D.count disk.new)) (Unit {0})) }
{
    if frames.known.is_some() {
        return Ok(());
    }
    let mut starts = starts_of(alloc, disk, frames.count())?;
    starts.reserve(1)?;
    frames.known = Some(starts);
    Ok(())
}

/// The body of this number, as a log's frames and its disk tell it.
pub(crate) fn read_one<D: Disk>(
    alloc: Global,
    disk: &mut D,
    frames: &mut Frames,
    ahead: &mut Option<Window>,
    index: u64,
) -> Result<Vec<u8>, ReadFault>
    requires within { index < length frames.old.starts.items }
    requires high { frames.old.gate < 2 ^ 64 }
    requires ahead { IsAhead (D.holds disk.old) ahead.old }
    requires known { Told D.Disk disk.old (λ file. Begins frames.old.gate (places_of frames.old) file ×
        IsKnown frames.old.known frames.old.starts.items) }
    ensures body { IfOk result (λ body. Told D.Disk disk.old (λ file. body.items ≡
        slice_index_or (bodies_at (places_of frames.old) file) index [])) }
    ensures ahead { IsAhead (D.holds disk.old) ahead.new }
    ensures known { Told D.Disk disk.old (λ file. IsKnown frames.new.known frames.new.starts.items) }
    ensures keeps { KeepsFrames frames.old frames.new }
    ensures reads { Reads D.Disk disk.old disk.new }
    ensures cause { IfErr result (OnReadFault (Rose (D.count disk.old) (D.count disk.new)) (Unit {0})) }
{
    find(alloc, disk, frames)?;
    let place = frames.get(index);
    let mut body = Vec::new(alloc);
    read_ahead(
        alloc,
        ahead,
        disk,
        place.at.saturating_add(5),
        place.length as usize,
        &mut body,
    )?;
    Ok(body)
}
