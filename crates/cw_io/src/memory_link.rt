//! A link in memory. It tells all, and fails at the calls that it is told to.
ghost use Rattle.std.specs.Prelude.{◌≡◌, ◌≤◌, ◌<◌, ◌⊎◌, ◌++◌, [], length, take, min, true, false, IfOk, OnErr, is_err};
ghost use Rattle.cw_types.specs.Faults.{Rose};
ghost use Rattle.cw_io.specs.Calls.{no_calls, is_listed, after_call};
ghost use Rattle.cw_io.specs.Memory.{AsksForMemory};

use crate::call_plan::CallPlan;
use crate::link::Link;
use crate::portions::{Front, take_in};
use crate::traits::Failed;
use std::alloc::{AllocError, Global};
use std::marker::Model;

/// A link in memory: the bytes that its peer sends are given, and what is written is kept.
#[derive(Debug, Drop)]
pub struct MemLink {
    input: Front,
    output: Vec<u8>,
    most: usize,
    calls: CallPlan,
}

impl Model for MemLink {
    ghost use Rattle.std.specs.Prelude.{◌<◌, vec_capacity};
    ghost use Rattle.cw_io.specs.Memory.{LinkState};

    ghost Value = { LinkState };

    ghost view = { λ k. record {
      left = k.input;
      held = k.output.items;
      room = vec_capacity k.output;
      most = k.most;
      calls = k.calls;
    } };

    ghost invariant = { λ k. 0 < k.most };
}

impl MemLink {
    /// A link whose peer sends these bytes and ends. A call reads or writes at most `most` bytes, and the
    /// calls fail whose numbers are in `failing`, counted from 0 over reads and writes. There is room for
    /// `room` bytes that are written; past these, want of memory is a failure too.
    pub fn new(
        alloc: Global,
        input: Vec<u8>,
        room: usize,
        most: usize,
        failing: Vec<u64>,
    ) -> Result<MemLink, AllocError>
        requires { 0 < most }
        ensures left { IfOk result (λ link. link.left ≡ input.items) }
        ensures held { IfOk result (λ link. link.held ≡ []) }
        ensures room { IfOk result (λ link. link.room ≡ room) }
        ensures most { IfOk result (λ link. link.most ≡ most) }
        ensures calls { IfOk result (λ link. link.calls ≡ no_calls failing.items) }
    {
        Ok(MemLink {
            input: Front::new(input),
            output: Vec::with_capacity(alloc, room)?,
            most,
            calls: CallPlan::new(failing),
        })
    }

    /// The bytes that were written.
    pub fn written(&self) -> &[u8]
        ensures { result.now ≡ self.now.held }
    {
        &self.output
    }

    /// How many calls failed.
    pub fn faults(&self) -> u64
        ensures { result ≡ self.now.calls.faults }
    {
        self.calls.faults()
    }
}

impl Link for MemLink {
    ghost use Rattle.std.specs.Prelude.{Some};

    ghost left = { λ k. Some k.left };

    ghost held = { λ k. Some k.held };

    ghost faults = { λ k. k.calls.faults };

    fn read(&mut self, into: &mut [u8]) -> Result<usize, Failed>
        ensures fits { IfOk result (λ n. n ≤ length into.old) }
        ensures taken { IfOk result (λ n. self.old.left ≡ take n into.new ++ self.new.left) }
        ensures at_end { result ≡ Ok 0 → 0 < length into.old → self.old.left ≡ [] }
        ensures kept { OnErr result (self.new.left ≡ self.old.left) }
        ensures apart { self.new.held ≡ self.old.held }
        ensures listed { is_err result ≡ is_listed self.old.calls }
        ensures calls { self.new.calls ≡ after_call (is_err result) self.old.calls }
        ensures room { self.new.room ≡ self.old.room }
        ensures most { self.new.most ≡ self.old.most }
        ensures later { self.old.calls.faults ≤ self.new.calls.faults }
        ensures rose { OnErr result (Rose self.old.calls.faults self.new.calls.faults) }
    {
        if self.calls.fails_next() {
            return Err(Failed);
        }
        Ok(self.input.give(self.most, into))
    }

    fn write(&mut self, from: &[u8]) -> Result<usize, Failed>
        ensures fits { IfOk result (λ n. n ≤ length from.now) }
        ensures some { IfOk result (λ n. 0 < length from.now → 0 < n) }
        ensures added { IfOk result (λ n. self.new.held ≡ self.old.held ++ take n from.now) }
        ensures kept { OnErr result (self.new.held ≡ self.old.held) }
        ensures apart { self.new.left ≡ self.old.left }
        ensures listed { is_listed self.old.calls ≡ true → is_err result ≡ true }
        ensures only_listed { OnErr result ((is_listed self.old.calls ≡ true)
            ⊎ AsksForMemory self.old.room self.old.held self.old.most from.now) }
        ensures calls { self.new.calls ≡ after_call (is_err result) self.old.calls }
        ensures room { self.old.room ≤ self.new.room }
        ensures most { self.new.most ≡ self.old.most }
        ensures later { self.old.calls.faults ≤ self.new.calls.faults }
        ensures rose { OnErr result (Rose self.old.calls.faults self.new.calls.faults) }
    {
        if self.calls.fails_next() {
            return Err(Failed);
        }
        match take_in(&mut self.output, self.most, from) {
            Ok(count) => Ok(count),
            Err(_) => {
                self.calls.count_fault();
                Err(Failed)
            }
        }
    }
}
