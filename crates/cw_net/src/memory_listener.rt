//! A listener in memory.
ghost use Rattle.std.specs.Prelude.{◌≡◌, ◌≤◌, ◌++◌, ◌||◌, [], false, Ok, None, IfOk, OnErr, is_err};
ghost use Rattle.std.specs.Option.{option_to_list};
ghost use Rattle.cw_types.specs.Faults.{Rose};
ghost use Rattle.cw_io.specs.Calls.{no_calls, is_listed, after_call};
ghost use Rattle.cw_net.specs.Accepting.{links_in, is_end};

use crate::listener::Listener;
use cw_io::{CallPlan, Failed, Link};
use cw_types::Past;
use std::collections::VecDeque;
use std::marker::Model;

/// A listener in memory: it gives the links of a list in order and then ends, and fails at the calls that it is told
/// to.
#[derive(Drop)]
pub struct MemListener<L: Link + Send + Drop> {
    links: VecDeque<L>,
    given: Past<L>,
    ended: bool,
    calls: CallPlan,
}

impl<L: Link + Send + Drop> Model for MemListener<L> {
    ghost use Rattle.cw_net.specs.Memory.{ListenerState};

    ghost Value = { ListenerState L };

    ghost view = { λ l. record { left = l.links.items; given = l.given.items; ended = l.ended; calls = l.calls } };
}

impl<L: Link + Send + Drop> MemListener<L> {
    /// A listener of these links. The calls fail whose numbers are in `failing`, counted from 0.
    pub fn new(links: VecDeque<L>, failing: Vec<u64>) -> MemListener<L>
        ensures left { result.left ≡ links.items }
        ensures given { result.given ≡ [] }
        ensures ended { result.ended ≡ false }
        ensures calls { result.calls ≡ no_calls failing.items }
    {
        MemListener {
            links,
            given: Past::new(),
            ended: false,
            calls: CallPlan::new(failing),
        }
    }
}

impl<L: Link + Send + Drop> Listener for MemListener<L> {
    type Link = L;

    ghost given = { λ l. l.given };

    ghost ended = { λ l. l.ended };

    ghost faults = { λ l. l.calls.faults };

    fn accept(&mut self) -> Result<Option<L>, Failed>
        ensures taken { IfOk result (λ link. self.old.left ≡ option_to_list link ++ self.new.left) }
        ensures at_end { result ≡ Ok None → self.old.left ≡ [] }
        ensures kept { OnErr result (self.new.left ≡ self.old.left) }
        ensures listed { is_err result ≡ is_listed self.old.calls }
        ensures calls { self.new.calls ≡ after_call (is_err result) self.old.calls }
        ensures given { self.new.given ≡ self.old.given ++ links_in result }
        ensures ended { self.new.ended ≡ self.old.ended || is_end result }
        ensures later { self.old.calls.faults ≤ self.new.calls.faults }
        ensures rose { OnErr result (Rose self.old.calls.faults self.new.calls.faults) }
    {
        if self.calls.fails_next() {
            return Err(Failed);
        }
        match self.links.pop_front() {
            Some(link) => {
                self.given = self.given.and(&link);
                Ok(Some(link))
            }
            None => {
                self.ended = true;
                Ok(None)
            }
        }
    }
}
