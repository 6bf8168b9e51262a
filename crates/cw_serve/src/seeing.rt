//! A call that reads configs alone is answered from a view of the board, before the lock is taken.
ghost use Rattle.std.specs.Prelude.{◌≡◌, ◌<◌, ◌≤◌, false, length, IfOk, IfSome};
ghost use Rattle.cw_board.specs.Records.{configs_of, IsFirstPart};
ghost use Rattle.cw_rest.specs.Calls.{deed_of, reads_configs, is_of_board};
ghost use Rattle.cw_rest.specs.Replies.{reply_to};
ghost use Rattle.cw_serve.specs.Boarding.{IsReadFrom, known_of, configs_alone, entry_seen};

use crate::naming::Begun;
use cw_board::{Board, Note};
use cw_config::ConfigState;
use cw_model::JournalEntry;
use cw_reply::{View, reply};
use cw_route::{Call, Reply};
use cw_status::StatusState;
use cw_txn::Coordinator;
use std::alloc::{AllocError, Global};

/// What a call was answered from a view, and how many records of the config log the view showed.
#[derive(Drop)]
pub struct Seen {
    pub reply: Reply,
    pub prefix: u64,
}

// Whether a call reads configs alone.
fn is_of_board(call: &Call) -> bool
    ensures { result ≡ is_of_board (deed_of call.now) }
{
    match call {
        Call::Connectors | Call::Info(_) | Call::Config(_) | Call::Tasks(_) => true,
        Call::Refused(_)
        | Call::Create(_)
        | Call::Delete(_)
        | Call::PutConfig(_, _)
        | Call::Status(_)
        | Call::TaskStatus(_)
        | Call::Pause(_)
        | Call::Resume(_)
        | Call::Stop(_)
        | Call::Restart(_)
        | Call::RestartTask(_)
        | Call::Offsets(_)
        | Call::Alter(_, _)
        | Call::Reset(_)
        | Call::Plugins => false,
    }
}

// The reply to a call that sees configs alone.
fn reply_from(alloc: Global, configs: &ConfigState, call: &Call) -> Result<Reply, AllocError>
    ensures { IfOk result (λ reply. reply ≡ reply_to false (configs_alone configs.now) call.now) }
{
    let statuses = StatusState::new(alloc);
    let txn = Coordinator::new(alloc);
    let view = View {
        ready: false,
        config: configs,
        statuses: &statuses,
        txn: &txn,
        feeds: &[],
    };
    reply(alloc, call, &view)
}

// A look at a worker's configs. The reader comes back, and has seen what the call was answered from.
fn look_at<J: Begun>(
    alloc: Global,
    board: Board<J>,
    w: u32,
    call: &Call,
) -> (Board<J>, Option<Seen>)
    requires worker { w < J.workers }
    requires deed { deed_of call.now ≡ reads_configs }
    ensures { IfSome result.1 (λ seen. IsReadFrom (configs_of w result.0) call.now seen) }
{
    match board.look(w) {
        Ok(view) => {
            let prefix = view.prefix();
            let told = reply_from(alloc, view.config(), call);
            let board = view.leave();
            match told {
                Ok(reply) => (board, Some(Seen { reply, prefix })),
                Err(AllocError) => (board, None),
            }
        }
        Err(board) => (board, None),
    }
}

/// Answers a call from the board where it reads configs alone, there is a reader, and the view has at least so many
/// records. The view is given up again, since a writer waits for it.
pub fn glance<J: Begun>(
    alloc: Global,
    reader: &mut Option<Board<J>>,
    least: u64,
    w: u32,
    call: &Call,
) -> Option<Seen>
    requires { w < J.workers }
    ensures seen { IfSome result (λ seen. IsReadFrom (known_of w reader.new) call.now seen) }
    ensures least { IfSome result (λ seen. least ≤ seen.prefix) }
{
    if !is_of_board(call) {
        return None;
    }
    let board = reader.take()?;
    let (board, seen) = look_at(alloc, board, w, call);
    *reader = Some(board);
    let seen = seen?;
    if seen.prefix < least {
        return None;
    }
    Some(seen)
}

/// Tells a reader of what is published, and then looks once more: it answers how many records of a worker are shown
/// now, where it may look. That look is given up again, too.
pub fn look_again<J: Begun>(board: Board<J>, note: Note<J>, w: u32) -> (Board<J>, Option<u64>)
    requires { w < J.workers }
    ensures kept { IsFirstPart board result.0 }
    ensures told { IsFirstPart note result.0 }
    ensures shown { IfSome result.1 (λ shown. shown ≡ length (configs_of w result.0)) }
{
    let mut board = board;
    board.tell(note);
    match board.look(w) {
        Ok(view) => {
            let shown = view.prefix();
            (view.leave(), Some(shown))
        }
        Err(board) => (board, None),
    }
}

/// The entry of a call that was answered from a view.
pub fn entry_seen(w: u32, call: Call, seen: Seen) -> JournalEntry
    ensures { result ≡ entry_seen w call seen }
{
    let Seen { reply, prefix } = seen;
    JournalEntry {
        worker: w,
        board: true,
        prefix,
        statuses: 0,
        entries: 0,
        call,
        reply,
    }
}
