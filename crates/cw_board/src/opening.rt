//! How a board is made.
ghost use Rattle.std.specs.Prelude.{◌≡◌, ◌<◌, ◌≤◌, [], vec_len, All, IfOk};

use crate::history::{BoardNaming, Front, History};
use crate::press::Press;
use crate::reader::Board;
use crate::shelves::Shelves;
use crate::writer::BoardWriter;
use std::alloc::{AllocError, Global};
use std::sync::Wait;

/// Makes a board for so many workers, on which nothing is published, and its readers. Its only error is want of memory.
pub fn open_board<J: BoardNaming, R: Wait + Drop>(
    alloc: Global,
    rt: R,
    history: History,
    workers: u32,
    readers: u32,
) -> Result<(BoardWriter<J, R>, Vec<Board<J>>), AllocError>
    requires workers { (0 < workers) × (workers ≤ 64) × (workers ≡ J.workers) }
    requires readers { (0 < readers) × (readers ≤ 64) }
    requires history { history.seen.book ≡ J.book }
    ensures writer { IfOk result (λ made. made.0 ≡ record { published = []; given = []; front = 0 }) }
    ensures readers { IfOk result (λ made. vec_len made.1 ≡ readers) }
    ensures unaware { IfOk result (λ made. All (λ board. board ≡ []) made.1.items) }
{
    let (head, front) = history.begin();
    let first = Shelves::new(alloc, front.again(), workers)?;
    let second = Shelves::new(alloc, front.again(), workers)?;
    let press = Press::new(alloc, rt, first, second, readers)?;
    let boards = make_readers(alloc, &press, &front, readers)?;
    Ok((BoardWriter::new(press, head, front), boards))
}

// So many readers, which know nothing.
fn make_readers<J: BoardNaming, R: Wait + Drop>(
    alloc: Global,
    press: &Press<J, R>,
    front: &Front,
    count: u32,
) -> Result<Vec<Board<J>>, AllocError>
    requires { front.now ≡ record { book = J.book; log = [] } }
    ensures count { IfOk result (λ made. vec_len made ≡ count) }
    ensures unaware { IfOk result (λ made. All (λ board. board ≡ []) made.items) }
{
    let mut boards = Vec::new(alloc);
    for _reader in 0..count {
        boards.push(Board::new(press.reader()?, front.again()))?;
    }
    Ok(boards)
}
