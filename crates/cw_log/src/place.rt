// Where the frames of a file lie, and what stands where one is due.
ghost use Rattle.std.specs.Prelude.{◌≡◌, ◌≤◌, ◌<◌, ◌+◌, ◌^◌, [], ◌∷◌, ◌++◌, None, length, OnOk, slice_index_or};

use cw_types::Past;
use std::alloc::AllocError;

/// Where a frame begins, and how long its body is.
#[derive(Clone, Copy, Debug, Drop)]
pub struct Place {
    pub(crate) at: u64,
    pub(crate) length: u64,
}

/// What stands where a frame is due.
#[derive(Clone, Copy, Debug, Drop)]
pub enum Frame {
    /// A closed gate: the list ends here.
    Closed,
    /// The file ends, or the length of an open frame is 0 or passes the end.
    Broken,
    /// A whole frame with a body of this length.
    Open(u64),
}

/// The frames of a file: how many there are, and the closed gate behind the last one. Where each begins is
/// ghost data until a body is asked for: then it is looked for, and kept. A frame ends where the next one
/// begins, so this tells how long its body is too.
#[derive(Drop)]
pub struct Frames {
    pub(crate) starts: Past<u64>,
    pub(crate) count: u64,
    pub(crate) known: Option<Vec<u64>>,
    pub(crate) gate: u64,
    ghost counted: { count ≡ length starts.items },
    ghost low: { count ≤ gate },
}

impl Frames {
    ghost use Rattle.cw_log.specs.Log.{places_of};
    ghost use Rattle.cw_log.specs.State.{HasPlace, IsFound, IsKnown, KeepsFrames};

    /// How many there are.
    #[inline]
    pub(crate) fn count(&self) -> u64
        ensures { result ≡ length self.now.starts.items }
    {
        self.count
    }

    /// Where the frame of this number lies, once all were looked for. Those of a file begin more than five
    /// bytes apart; where two did not, the length would be 0.
    #[inline]
    pub(crate) fn get(&self, index: u64) -> Place
        requires { index < length self.now.starts.items }
        ensures { IsFound self.now.known self.now.starts.items → result ≡
            slice_index_or (places_of self.now) index result }
    {
        let at = self.start(index);
        let end = self.start(index + 1);
        Place {
            at,
            length: end.saturating_sub(at.saturating_add(5)),
        }
    }

    // Where the frame of this number begins, or the gate where there is none or it wasn't found.
    #[inline]
    fn start(&self, index: u64) -> u64
        ensures { IsFound self.now.known self.now.starts.items → result ≡
            slice_index_or self.now.starts.items index self.now.gate }
    {
        match &self.known {
            Some(starts) => start_in(starts, index, self.gate),
            None => self.gate,
        }
    }

    /// Takes the memory of one more.
    pub(crate) fn reserve(&mut self) -> Result<(), AllocError>
        ensures room { OnOk result (HasPlace self.new.known) }
        ensures keeps { KeepsFrames self.old self.new }
        ensures known { IsKnown self.old.known self.old.starts.items → IsKnown self.new.known self.new.starts.items }
    {
        match &mut self.known {
            Some(starts) => starts.reserve(1),
            None => Ok(()),
        }
    }

    /// One more at the gate, whose body has this length, in the room that is there.
    #[inline]
    pub(crate) fn push(&mut self, length: u64)
        requires room { HasPlace self.old.known }
        requires fits { self.old.gate + (length + 5) < 2 ^ 64 }
        ensures places { places_of self.new ≡
            places_of self.old ++ record { at = self.old.gate; length = length } ∷ [] }
        ensures gate { self.new.gate ≡ self.old.gate + (length + 5) }
        ensures count { self.new.count ≡ self.old.count + 1 }
        ensures known { IsKnown self.old.known self.old.starts.items → IsKnown self.new.known self.new.starts.items }
        ensures unknown { self.old.known ≡ None → self.new.known ≡ None }
    {
        if let Some(starts) = &mut self.known {
            push_start(starts, self.gate);
        }
        self.starts = self.starts.and(&self.gate);
        self.count += 1;
        self.gate += length + 5;
    }
}

ghost use Rattle.std.specs.Prelude.{vec_capacity, vec_len};

// The start of this number, or another where there is none.
#[inline]
fn start_in(starts: &[u64], index: u64, other: u64) -> u64
    ensures { result ≡ slice_index_or starts.now index other }
{
    match starts.get(index as usize) {
        Some(start) => *start,
        None => other,
    }
}

// One start more, in the room that is there.
fn push_start(starts: &mut Vec<u64>, start: u64)
    requires { vec_len starts.old < vec_capacity starts.old }
    ensures { starts.new.items ≡ starts.old.items ++ start ∷ [] }
{
    let Ok(()) = starts.push(start) else {
        unreachable!()
    };
}
