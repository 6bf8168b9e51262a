//! How a line is opened.
ghost use Rattle.std.specs.Prelude.{◌≡◌, ◌<◌, IfOk};
ghost use Rattle.crossbeam_queue.specs.Passes.{ruled_capacity};
ghost use Rattle.cw_line.specs.Sides.{IsFirstOf, name_of};

use crate::rule::{Hand, Line, Ticket};
use crossbeam_queue::Pass;
use std::alloc::{AllocError, Global};

/// A line, and its first pass, of which an `Acceptor` is made.
#[derive(Drop)]
pub struct Opened<L> {
    pub line: Line<L>,
    pub pass: Pass<Ticket<L>, Hand<L>>,
}

/// Opens a line with room for so many links. Its only error is want of memory.
pub fn open_line<L>(alloc: Global, conns: u32) -> Result<Opened<L>, AllocError>
    requires { 0 < conns }
    ensures room { IfOk result (λ o. ruled_capacity o.line ≡ conns) }
    ensures first { IfOk result (λ o. IsFirstOf (name_of o.line) o.pass) }
{
    let (line, pass) = Line::<L>::ruled(alloc, conns as usize)?;
    Ok(Opened { line, pass })
}
