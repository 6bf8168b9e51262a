//! What one connection handler keeps of its calls.
ghost use Rattle.std.specs.Prelude.{◌≡◌, [], vec_len, All};
ghost use Rattle.std.specs.List.{AllPairs};
ghost use Rattle.cw_serve.specs.Following.{Covers, Follows};

use crate::naming::Begun;
use cw_board::Board;
use cw_world::Receipt;
use std::alloc::Global;
use std::sync::ledger::Share;

/// A receipt of each call that was answered, a share of the ledger that counts them, a reader of the board, if the
/// handler has one, and how many records of the config log a call that is answered from it sees at least: so no such
/// call goes back behind an earlier one.
#[derive(Drop)]
pub struct Kept<J: Begun> {
    pub receipts: Vec<Receipt>,
    pub share: Share<J>,
    pub board: Option<Board<J>>,
    pub least: u64,
    pub ghost counted: { share.amount ≡ vec_len receipts },
    pub ghost part: { share.parts ≡ 1 },
    pub ghost named: { All (λ r. r.name ≡ J.start.name) receipts.items },
    pub ghost covered: { All (λ r. Covers least r.entry) receipts.items },
    pub ghost follow: { AllPairs Follows receipts.items },
}

impl<J: Begun> Kept<J> {
    /// Nothing yet.
    pub fn new(alloc: Global, share: Share<J>, board: Option<Board<J>>) -> Kept<J>
        requires { (share.parts ≡ 1) × (share.amount ≡ 0) }
        ensures none { (result.receipts.items ≡ []) × (result.least ≡ 0) }
        ensures has { (result.share ≡ share) × (result.board ≡ board) }
    {
        Kept {
            receipts: Vec::new(alloc),
            share,
            board,
            least: 0,
        }
    }
}
