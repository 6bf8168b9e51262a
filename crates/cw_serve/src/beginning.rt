//! What is made before the first thread.
ghost use Rattle.std.specs.Prelude.{◌≡◌, ◌+◌, ◌≤◌, [], replicate, vec_len, vec_capacity, IfOk};
ghost use Rattle.cw_line.specs.Sides.{beginning, name_of};

use crate::crew::Crew;
use crate::handling::Handler;
use crate::kept::Kept;
use crate::naming::Begun;
use cw_board::Board;
use cw_io::Link;
use cw_line::{Acceptor, Line};
use std::alloc::{AllocError, Global};
use std::sync::ledger::Share;

/// What takes memory beside the board: the handlers, what the calling thread keeps of its own calls, room for what all
/// of them kept, when each worker ticked last, and how many records were given to the board for each.
#[derive(Drop)]
pub struct Ready<J: Begun, L: Link> {
    pub crew: Crew<J, L>,
    pub own: Kept<J>,
    pub books: Vec<Kept<J>>,
    pub moments: Vec<u64>,
    pub given: Vec<u64>,
}

/// Makes it. Its only error is want of memory.
pub fn prepare<J: Begun, L: Link>(
    alloc: Global,
    line: &Line<L>,
    acceptor: &mut Acceptor<J, L>,
    rest: &mut Share<J>,
    boards: Vec<Board<J>>,
    workers: u32,
    handlers: u32,
) -> Result<Ready<J, L>, AllocError>
    requires seat { name_of line.now ≡ J.table }
    requires most { handlers ≤ 64 }
    requires acceptor { acceptor.old ≡ beginning }
    requires share { (rest.old.parts ≡ handlers + 2) × (rest.old.amount ≡ 0) }
    ensures crew { IfOk result (λ r. (vec_len r.crew.waiting ≡ handlers) × (vec_len r.crew.done ≡ 0)) }
    ensures own { IfOk result (λ r. r.own.receipts.items ≡ []) }
    ensures given { IfOk result (λ r. r.given.items ≡ replicate workers 0) }
    ensures books { IfOk result (λ r. (vec_len r.books ≡ 0) × (handlers + 1 ≤ vec_capacity r.books)) }
    ensures acceptor { IfOk result (λ _. (acceptor.new.parts + handlers ≡ 1024) × (acceptor.new.pushed ≡ [])) }
    ensures taken { IfOk result (λ _. acceptor.new.taken ≡ []) }
    ensures share { IfOk result (λ _. (rest.new.parts ≡ 1) × (rest.new.amount ≡ 0)) }
{
    let own = Kept::new(alloc, rest.split_off(1, 0), None);
    let waiting = split(alloc, line, acceptor, rest, boards, handlers)?;
    let crew = Crew::new(alloc, waiting)?;
    let books = Vec::with_capacity(alloc, handlers as usize + 1)?;
    let mut moments = Vec::new(alloc);
    moments.resize(workers as usize, 0)?;
    let mut given = Vec::new(alloc);
    given.resize(workers as usize, 0)?;
    Ok(Ready {
        crew,
        own,
        books,
        moments,
        given,
    })
}

// Handlers, each with a side of the line, a part of the ledger and a reader of the board.
fn split<J: Begun, L: Link>(
    alloc: Global,
    line: &Line<L>,
    acceptor: &mut Acceptor<J, L>,
    rest: &mut Share<J>,
    boards: Vec<Board<J>>,
    handlers: u32,
) -> Result<Vec<Handler<J, L>>, AllocError>
    requires seat { name_of line.now ≡ J.table }
    requires most { handlers ≤ 64 }
    requires acceptor { acceptor.old ≡ beginning }
    requires share { (rest.old.parts ≡ handlers + 1) × (rest.old.amount ≡ 0) }
    ensures handlers { IfOk result (λ made. vec_len made ≡ handlers) }
    ensures acceptor { IfOk result (λ _. (acceptor.new.parts + handlers ≡ 1024) × (acceptor.new.pushed ≡ [])) }
    ensures taken { IfOk result (λ _. acceptor.new.taken ≡ []) }
    ensures share { IfOk result (λ _. (rest.new.parts ≡ 1) × (rest.new.amount ≡ 0)) }
{
    let mut boards = boards;
    let mut made = Vec::with_capacity(alloc, handlers as usize)?;
    for _ in 0..handlers {
        let taker = acceptor.split(line);
        let kept = Kept::new(alloc, rest.split_off(1, 0), boards.pop());
        made.push_reserved(Handler { taker, kept });
    }
    Ok(made)
}
