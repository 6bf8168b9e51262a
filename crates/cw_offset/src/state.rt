//! Committed offsets of parts.
ghost use Rattle.std.specs.Prelude.{◌≡◌, [], ◌∷◌, ◌++◌, Contains, OnOk, OnErr, IsOk, MatchOption, option_copied};
ghost use Rattle.cw_offset.specs.declared.call.OffsetCall.{OffsetCall};
ghost use Rattle.cw_offset.specs.Offsets.{committed, first_unmarked};

use crate::call::{CallRef, OffsetCall};
use crate::tables::{Tables, first_ended};
use cw_types::{Decided, PartKey, Past, Tag};
use std::alloc::{AllocError, Global};
use std::marker::Model;
use std::mem::replace;

/// What is committed of each part, and what waits under transactions (KIP-618). Clauses see the calls made so
/// far; at run time it keeps one value a part, and of each transaction that waits the last put of each part.
/// Look-ups take no memory and never walk the calls.
#[derive(Drop)]
pub struct OffsetState {
    alloc: Global,
    calls: Past<OffsetCall>,
    reserved: Vec<OffsetCall>,
    tables: Tables,
}

impl Model for OffsetState {
    ghost use Rattle.cw_offset.specs.Calls.{Calls};

    ghost Value = { Calls };

    ghost use Rattle.cw_offset.specs.Tables.{IsOffsets};

    ghost view = { λ a. record { calls = a.calls.items; reserved = a.reserved.items } };

    ghost invariant = { λ a. IsOffsets a.tables a.calls.items a.reserved.items };
}

impl OffsetState {
    ghost use Rattle.cw_offset.specs.Calls.{Calls, Does};

    /// With no call. It takes no memory.
    pub fn new(alloc: Global) -> OffsetState
        ensures { result ≡ record { calls = []; reserved = [] } }
    {
        OffsetState {
            alloc,
            calls: Past::new(),
            reserved: Vec::new(alloc),
            tables: Tables::new(alloc),
        }
    }

    /// The part's committed offset: the value of the last of its sets and committed puts, in the order in
    /// which these were called; none where there is none, and where that is a set to none.
    pub fn committed(&self, part: &PartKey) -> Option<u64>
        ensures { result ≡ committed part.now self.now.calls }
    {
        match self.tables.settled(part) {
            None => None,
            Some(settled) => settled.to,
        }
    }

    /// The first transaction that has ended and waits for its mark, in the order in which `stand` and `put` told
    /// of them.
    pub fn first_unmarked<T: Decided>(&self, txn: &T) -> Option<&Tag>
        ensures { option_copied result ≡ first_unmarked (T.verdict_of txn.now) self.now.calls }
    {
        first_ended(&self.tables.order, txn)
    }

    /// Tells that a transaction's records stand in the log, behind those of all that were told of before. An
    /// opening tells so of each in the log's order, before it makes the calls of the transaction list.
    pub fn stand(&mut self, tag: &Tag) -> Result<(), AllocError>
        ensures ok { OnOk result (Does (OffsetCall.Stand tag.now) self.old self.new) }
        ensures err { OnErr result (self.new ≡ self.old) }
        ensures reserved { Contains self.old.reserved (OffsetCall.Stand tag.now) → IsOk result }
    {
        self.call(&CallRef::Stand(tag))
    }

    /// Stores an offset of a part under a transaction. It waits for the transaction's mark.
    pub fn put(&mut self, tag: &Tag, part: &PartKey, to: u64) -> Result<(), AllocError>
        ensures ok { OnOk result (Does (OffsetCall.Put tag.now part.now to) self.old self.new) }
        ensures err { OnErr result (self.new ≡ self.old) }
        ensures reserved { Contains self.old.reserved (OffsetCall.Put tag.now part.now to) → IsOk result }
    {
        self.call(&CallRef::Put { tag, part, to })
    }

    /// Marks a transaction as committed: what waits under it takes effect, each at its own place.
    pub fn commit(&mut self, tag: &Tag) -> Result<(), AllocError>
        ensures ok { OnOk result (Does (OffsetCall.Commit tag.now) self.old self.new) }
        ensures err { OnErr result (self.new ≡ self.old) }
        ensures reserved { Contains self.old.reserved (OffsetCall.Commit tag.now) → IsOk result }
    {
        self.call(&CallRef::Commit(tag))
    }

    /// Marks a transaction as aborted: what waits under it never takes effect.
    pub fn abort(&mut self, tag: &Tag) -> Result<(), AllocError>
        ensures ok { OnOk result (Does (OffsetCall.Abort tag.now) self.old self.new) }
        ensures err { OnErr result (self.new ≡ self.old) }
        ensures reserved { Contains self.old.reserved (OffsetCall.Abort tag.now) → IsOk result }
    {
        self.call(&CallRef::Abort(tag))
    }

    /// Sets the offset of a part, or with none takes it away.
    pub fn set(&mut self, part: &PartKey, to: Option<u64>) -> Result<(), AllocError>
        ensures ok { OnOk result (Does (OffsetCall.Set part.now to) self.old self.new) }
        ensures err { OnErr result (self.new ≡ self.old) }
        ensures reserved { Contains self.old.reserved (OffsetCall.Set part.now to) → IsOk result }
    {
        self.call(&CallRef::Set { part, to })
    }

    /// Makes room for a `stand`, so that making it once can't want memory.
    pub fn reserve_stand(&mut self, tag: &Tag) -> Result<(), AllocError>
        ensures ok { OnOk result (self.new ≡ record self.old {
          reserved =
              self.old.reserved ++ OffsetCall.Stand tag.now ∷ [];
        }) }
        ensures err { OnErr result (self.new ≡ self.old) }
    {
        self.reserve(&CallRef::Stand(tag))
    }

    /// Makes room for a `put`, so that making it once can't want memory.
    pub fn reserve_put(&mut self, tag: &Tag, part: &PartKey, to: u64) -> Result<(), AllocError>
        ensures ok { OnOk result (self.new ≡ record self.old {
          reserved =
              self.old.reserved ++ OffsetCall.Put tag.now part.now to ∷ [];
        }) }
        ensures err { OnErr result (self.new ≡ self.old) }
    {
        self.reserve(&CallRef::Put { tag, part, to })
    }

    /// Makes room for a `commit`, so that making it once can't want memory.
    pub fn reserve_commit(&mut self, tag: &Tag) -> Result<(), AllocError>
        ensures ok { OnOk result (self.new ≡ record self.old {
          reserved =
              self.old.reserved ++ OffsetCall.Commit tag.now ∷ [];
        }) }
        ensures err { OnErr result (self.new ≡ self.old) }
    {
        self.reserve(&CallRef::Commit(tag))
    }

    /// Makes room for an `abort`, so that making it once can't want memory.
    pub fn reserve_abort(&mut self, tag: &Tag) -> Result<(), AllocError>
        ensures ok { OnOk result (self.new ≡ record self.old {
          reserved =
              self.old.reserved ++ OffsetCall.Abort tag.now ∷ [];
        }) }
        ensures err { OnErr result (self.new ≡ self.old) }
    {
        self.reserve(&CallRef::Abort(tag))
    }

    /// Makes room for a `set`, so that making it once can't want memory.
    pub fn reserve_set(&mut self, part: &PartKey, to: Option<u64>) -> Result<(), AllocError>
        ensures ok { OnOk result (self.new ≡ record self.old {
          reserved =
              self.old.reserved ++ OffsetCall.Set part.now to ∷ [];
        }) }
        ensures err { OnErr result (self.new ≡ self.old) }
    {
        self.reserve(&CallRef::Set { part, to })
    }

    /// Gives up all that is reserved. It takes no memory.
    pub fn unreserve(&mut self)
        ensures { self.new ≡ record self.old { reserved = [] } }
    {
        let reserved = replace(&mut self.reserved, Vec::new(self.alloc));
        for call in reserved {
            self.forget_call(&call);
        }
    }

    // Gives up the row of a transaction for which room was made, unless something of it waits.
    fn forget_call(&mut self, call: &OffsetCall)
        requires { self.old.reserved ≡ [] }
        ensures { self.new ≡ self.old }
    {
        self.tables.forget_call(call);
    }

    ghost use Rattle.cw_offset.specs.Tables.{call_of};

    fn reserve(&mut self, call: &CallRef<'_>) -> Result<(), AllocError>
        ensures ok { OnOk result (self.new ≡ record self.old {
          reserved =
              self.old.reserved ++ call_of call.now ∷ [];
        }) }
        ensures err { OnErr result (self.new ≡ self.old) }
    {
        self.tables
            .make_room(self.alloc, self.reserved.len(), call)?;
        self.reserved.push(call.to_call()?)?;
        Ok(())
    }

    // Does a call, in the room that was reserved for it, or in new room.
    fn call(&mut self, call: &CallRef<'_>) -> Result<(), AllocError>
        ensures ok { OnOk result (Does (call_of call.now) self.old self.new) }
        ensures err { OnErr result (self.new ≡ self.old) }
        ensures reserved { Contains self.old.reserved (call_of call.now) → IsOk result }
    {
        if let Some(at) = place_of(&self.reserved, call) {
            let reserved = self.reserved.remove(at);
            self.tables.add(&mut self.calls, reserved);
            self.forget_marked(call);
            return Ok(());
        }
        self.tables
            .make_room(self.alloc, self.reserved.len(), call)?;
        self.tables.add(&mut self.calls, call.to_call()?);
        self.forget_marked(call);
        Ok(())
    }

    // Gives up the row of a transaction that was marked, unless something is reserved that may want it.
    fn forget_marked(&mut self, call: &CallRef<'_>)
        ensures { self.new ≡ self.old }
    {
        if !self.reserved.is_empty() {
            return;
        }
        match call {
            CallRef::Commit(tag) | CallRef::Abort(tag) => self.tables.forget(tag),
            _ => {}
        }
    }
}

ghost use Rattle.cw_offset.specs.Tables.{call_of, IsFirstAt};

// The first place of a call in a list.
fn place_of(calls: &[OffsetCall], call: &CallRef<'_>) -> Option<usize>
    ensures { MatchOption result (¬ Contains calls.now (call_of call.now))
        (λ at. IsFirstAt (call_of call.now) calls.now at) }
{
    for at in 0..calls.len() {
        if call.is(&calls[at]) {
            return Some(at);
        }
    }
    None
}
