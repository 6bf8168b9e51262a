//! The thread that accepts.
ghost use Rattle.std.specs.Prelude.{◌≡◌, ◌++◌, ◌≤◌, ◌⊎◌, [], length, true, false};
ghost use Rattle.cw_types.specs.Faults.{Rose};
ghost use Rattle.cw_line.specs.Sides.{name_of, with_pushed};

use crate::acceptor::Acceptor;
use crate::rule::{Line, Ticket};
use crate::seat::Seat;
use cw_net::Listener;
use std::sync::Wait;

/// How many links were accepted and pushed, and whether the listener failed then.
#[derive(Clone, Copy, Debug, PartialEq, Eq, Drop)]
pub struct Accepted {
    pub pushed: u32,
    pub failed: bool,
}

/// Accepts links in the calling thread and pushes each with its number, until there are `most`, or the listener ends
/// or fails.
pub fn accept_links<J: Seat, N: Listener, R: Wait>(
    rt: &R,
    line: &Line<N::Link>,
    acceptor: &mut Acceptor<J, N::Link>,
    net: &mut N,
    most: u32,
) -> Accepted
    requires seat { name_of line.now ≡ J.table }
    requires fresh { acceptor.old.pushed ≡ [] }
    ensures given { N.given net.new ≡ N.given net.old ++ acceptor.new.pushed }
    ensures pushed { acceptor.new ≡ with_pushed acceptor.new.pushed acceptor.old }
    ensures count { length acceptor.new.pushed ≡ result.pushed }
    ensures most { result.pushed ≤ most }
    ensures done { result.failed ≡ false → (result.pushed ≡ most) ⊎ (N.ended net.new ≡ true) }
    ensures failed { result.failed ≡ true → Rose (N.faults net.old) (N.faults net.new) }
    ensures later { N.faults net.old ≤ N.faults net.new }
{
    for pushed in 0..most {
        let link = match net.accept() {
            Ok(Some(link)) => link,
            Ok(None) => {
                return Accepted {
                    pushed,
                    failed: false,
                };
            }
            Err(_) => {
                return Accepted {
                    pushed,
                    failed: true,
                };
            }
        };
        let number = u64::from(pushed);
        acceptor.push(rt, line, Ticket { number, link });
    }
    Accepted {
        pushed: most,
        failed: false,
    }
}
