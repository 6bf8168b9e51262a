//! Frames of a log as they are kept in memory: a list of lists, in which further ones are hung without memory.
ghost use Rattle.std.specs.Prelude.{◌≡◌, ◌<◌, ◌+◌, ◌^◌, ◌++◌, ◌∷◌, [], length, IfOk};

use std::alloc::{AllocError, Global};
use std::collections::LinkedList;

/// The list of one frame.
pub fn one_frame<A: Drop>(alloc: Global, frame: A) -> Result<LinkedList<A>, AllocError>
    ensures { IfOk result (λ list. list ≡ frame ∷ []) }
{
    let mut list = LinkedList::new(alloc);
    list.push_back(frame)?;
    Ok(list)
}

/// Hangs further frames behind those that are there. It takes no memory.
pub fn hang<A: Drop>(frames: &mut LinkedList<A>, mut further: LinkedList<A>)
    requires { length frames.old + length further < 2 ^ 63 }
    ensures { frames.new ≡ frames.old ++ further }
{
    if frames.append(&mut further).is_err() {
        unreachable!();
    }
}

/// The list of frames that are moved into it.
pub fn list_of<A: Drop>(alloc: Global, frames: Vec<A>) -> Result<LinkedList<A>, AllocError>
    ensures { IfOk result (λ list. list ≡ frames.items) }
{
    let mut list = LinkedList::new(alloc);
    for frame in frames {
        list.push_back(frame)?;
    }
    Ok(list)
}
