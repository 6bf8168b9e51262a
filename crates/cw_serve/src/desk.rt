//! The desk over the lock.
ghost use Rattle.std.specs.Prelude.{◌≡◌, ◌<◌, map};

use crate::answering::answer;
use crate::kept::Kept;
use crate::naming::Begun;
use crate::shared::Shared;
use cw_board::BoardNaming;
use cw_conn::Desk;
use cw_disk::Disk;
use cw_model::JournalEntry;
use cw_route::Call;
use std::alloc::{AllocError, Global};
use std::marker::PhantomData;
use std::sync::{Mutex, Wait};

/// A worker of the server, by its number.
#[derive(Drop)]
pub struct Asked<J: BoardNaming> {
    pub number: u32,
    of: PhantomData<J>,
    pub ghost there: { number < J.workers },
}

impl<J: BoardNaming> Asked<J> {
    /// The one of this number.
    pub fn new(number: u32) -> Asked<J>
        requires { number < J.workers }
        ensures { result.number ≡ number }
    {
        Asked {
            number,
            of: PhantomData,
        }
    }
}

/// A connection's desk: it answers each call through one worker, in one turn under the lock or from the board, and
/// lends the entry of the receipt that it kept.
pub struct LockDesk<'a, J: Begun, D: Disk, R: Wait, W: Wait + Drop> {
    pub rt: &'a R,
    pub alloc: Global,
    pub lock: &'a Mutex<Shared<J, D, W>>,
    pub kept: Kept<J>,
    pub worker: Asked<J>,
}

impl<J: Begun, D: Disk, R: Wait, W: Wait + Drop> Desk for LockDesk<'_, J, D, R, W> {
    ghost use Rattle.std.specs.Prelude.{map};

    ghost entries = { λ d. map (λ r. r.entry) d.kept.receipts.items };

    fn answer(&mut self, call: Call) -> Result<&JournalEntry, AllocError> {
        let at = self.kept.receipts.len();
        let worker = self.worker.number;
        answer(self.rt, self.alloc, self.lock, &mut self.kept, worker, call)?;
        Ok(self.kept.receipts[at].entry())
    }
}
