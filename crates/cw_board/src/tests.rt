ghost use Rattle.std.specs.Prelude.{◌≡◌, ◌<◌, []};
ghost use Rattle.cw_board.specs.Records.{configs_of};

use super::*;
use cw_bytes::Applied;
use cw_types::Listed;
use std::marker::Brand;
use std::process::Abort;
use std::sync::{Barrier, Mutex, Wait};
use std::thread::{Threads, join};

const PUTS: u64 = 1000;

// What both threads need of the runtime.
trait Host: Threads + Wait + Abort + AllocGlobal + Sync {}

impl<R: Threads + Wait + Abort + AllocGlobal + Sync> Host for R {}

// The note that is told next, and where both threads meet.
type Desk<J> = (Mutex<Option<Note<J>>>, Barrier);

// Puts a record of `connector-a` for worker 0 and tells of it, a thousand times.
fn put_all<J: BoardNaming, R: Host>(rt: &R, writer: &mut BoardWriter<J, &R>, desk: &Desk<J>)
    requires worker { 0 < J.workers }
    requires fresh { configs_of 0 writer.old.given ≡ [] }
{
    let (note, turn) = desk;
    for offset in 0..PUTS {
        let applied = Applied {
            offset,
            stamp: 0,
            key: Listed::new(b"connector-a".to_vec(rt.alloc()).expect(rt, "memory")),
            value: None,
        };
        let records = Vec::from_array(rt.alloc(), [applied]).expect(rt, "memory");
        writer.put(0, &records).expect(rt, "memory");
        *note.lock(rt) = Some(writer.note());
        turn.wait(rt);
        turn.wait(rt);
    }
}

// Looks each time that it was told of one record more, and sees as many as it was told of.
fn look_all<J: BoardNaming, R: Host>(rt: &R, mut board: Board<J>, desk: &Desk<J>)
    requires { 0 < J.workers }
{
    let (note, turn) = desk;
    for told in 0..PUTS {
        turn.wait(rt);
        board.tell(note.lock(rt).take().expect(rt, "a note"));
        turn.wait(rt);
        let view = board.look(0).ok().expect(rt, "a view");
        assert!(rt; view.prefix() > told);
        board = view.leave();
    }
}

// One thread puts and tells, and another looks.
#[tactic(auto, using(crate::proofs::Sent::of_board, crate::proofs::Sent::of_note, crate::proofs::Sent::of_writer))]
fn tell_often<J: BoardNaming + Send + Sync, R: Host>(rt: &R, history: History)
    requires history { history.seen.book ≡ J.book }
    requires workers { J.workers ≡ 1 }
{
    let made = open_board::<J, &R>(rt.alloc(), rt, history, 1, 1);
    let (mut writer, mut boards) = made.expect(rt, "memory");
    let board = boards.pop().expect(rt, "a reader");
    let desk = (Mutex::new(None), Barrier::new(2));
    let looks = ||
        requires { 0 < J.workers }
    { look_all(rt, board, &desk) };
    let puts = ||
        requires { (0 < J.workers) × (configs_of 0 writer.given ≡ []) }
    { put_all(rt, &mut writer, &desk) };
    join(rt, looks, puts);
}

#[test]
fn a_thousand_times_between_two_threads(rt: HostRuntime) {
    tell_often::<Brand, HostRuntime>(&rt, History::new());
}
