//! A source and a sink in memory. They tell all, and fail at the calls that they are told to.
ghost use Rattle.std.specs.Prelude.{◌≡◌, ◌≤◌, ◌<◌, ◌⊎◌, ◌++◌, [], length, take, min, true, false, vec_capacity, IfOk};
ghost use Rattle.std.specs.Prelude.{OnErr, is_err};
ghost use Rattle.cw_types.specs.Faults.{Rose};
ghost use Rattle.cw_io.specs.Calls.{no_calls, is_listed, after_call};
ghost use Rattle.cw_io.specs.Memory.{AsksForMemory};

use crate::call_plan::CallPlan;
use crate::portions::{Front, take_in};
use crate::traits::{Failed, Sink, Source};
use std::alloc::{AllocError, Global};
use std::marker::Model;

/// A source in memory.
#[derive(Debug, Drop)]
pub struct MemSource {
    front: Front,
    most: usize,
    calls: CallPlan,
}

impl Model for MemSource {
    ghost use Rattle.std.specs.Prelude.{◌<◌};
    ghost use Rattle.cw_io.specs.Memory.{SourceState};

    ghost Value = { SourceState };

    ghost view = { λ s. record { left = s.front; calls = s.calls } };

    ghost invariant = { λ s. 0 < s.most };
}

impl MemSource {
    /// A source of these bytes that gives at most `most` of them in a call, and fails at the calls
    /// whose numbers are in `failing`, counted from 0.
    pub fn new(bytes: Vec<u8>, most: usize, failing: Vec<u64>) -> MemSource
        requires { 0 < most }
        ensures left { result.left ≡ bytes.items }
        ensures calls { result.calls ≡ no_calls failing.items }
    {
        MemSource {
            front: Front::new(bytes),
            most,
            calls: CallPlan::new(failing),
        }
    }

    /// How many calls failed.
    pub fn faults(&self) -> u64
        ensures { result ≡ self.now.calls.faults }
    {
        self.calls.faults()
    }
}

impl Source for MemSource {
    ghost use Rattle.std.specs.Prelude.{Some};

    ghost left = { λ s. Some s.left };

    ghost faults = { λ s. s.calls.faults };

    fn read(&mut self, into: &mut [u8]) -> Result<usize, Failed>
        ensures fits { IfOk result (λ n. n ≤ length into.old) }
        ensures taken { IfOk result (λ n. self.old.left ≡ take n into.new ++ self.new.left) }
        ensures at_end { result ≡ Ok 0 → 0 < length into.old → self.old.left ≡ [] }
        ensures kept { OnErr result (self.new.left ≡ self.old.left) }
        ensures listed { is_err result ≡ is_listed self.old.calls }
        ensures calls { self.new.calls ≡ after_call (is_err result) self.old.calls }
        ensures later { self.old.calls.faults ≤ self.new.calls.faults }
        ensures rose { OnErr result (Rose self.old.calls.faults self.new.calls.faults) }
    {
        if self.calls.fails_next() {
            return Err(Failed);
        }
        Ok(self.front.give(self.most, into))
    }
}

/// A sink in memory.
#[derive(Debug, Drop)]
pub struct MemSink {
    bytes: Vec<u8>,
    most: usize,
    calls: CallPlan,
}

impl Model for MemSink {
    ghost use Rattle.std.specs.Prelude.{◌<◌, vec_capacity};
    ghost use Rattle.cw_io.specs.Memory.{SinkState};

    ghost Value = { SinkState };

    ghost view = { λ s. record { held = s.bytes.items; room = vec_capacity s.bytes; most = s.most; calls = s.calls } };

    ghost invariant = { λ s. 0 < s.most };
}

impl MemSink {
    /// An empty sink that takes at most `most` bytes in a call, and fails at the calls whose numbers are
    /// in `failing`, counted from 0. Past the room that it has, want of memory is a failure too.
    pub fn new(alloc: Global, most: usize, failing: Vec<u64>) -> MemSink
        requires { 0 < most }
        ensures held { result.held ≡ [] }
        ensures most { result.most ≡ most }
        ensures calls { result.calls ≡ no_calls failing.items }
    {
        MemSink {
            bytes: Vec::new(alloc),
            most,
            calls: CallPlan::new(failing),
        }
    }

    /// The same with room for so many bytes, so that no call asks for memory until these are taken.
    pub fn with_room(
        alloc: Global,
        room: usize,
        most: usize,
        failing: Vec<u64>,
    ) -> Result<MemSink, AllocError>
        requires { 0 < most }
        ensures held { IfOk result (λ sink. sink.held ≡ []) }
        ensures room { IfOk result (λ sink. sink.room ≡ room) }
        ensures most { IfOk result (λ sink. sink.most ≡ most) }
        ensures calls { IfOk result (λ sink. sink.calls ≡ no_calls failing.items) }
    {
        Ok(MemSink {
            bytes: Vec::with_capacity(alloc, room)?,
            most,
            calls: CallPlan::new(failing),
        })
    }

    /// The bytes that it took.
    pub fn bytes(&self) -> &[u8]
        ensures { result.now ≡ self.now.held }
    {
        &self.bytes
    }

    /// How many calls failed.
    pub fn faults(&self) -> u64
        ensures { result ≡ self.now.calls.faults }
    {
        self.calls.faults()
    }
}

impl Sink for MemSink {
    ghost use Rattle.std.specs.Prelude.{Some};

    ghost held = { λ s. Some s.held };

    ghost faults = { λ s. s.calls.faults };

    fn write(&mut self, from: &[u8]) -> Result<usize, Failed>
        ensures fits { IfOk result (λ n. n ≤ length from.now) }
        ensures some { IfOk result (λ n. 0 < length from.now → 0 < n) }
        ensures added { IfOk result (λ n. self.new.held ≡ self.old.held ++ take n from.now) }
        ensures kept { OnErr result (self.new.held ≡ self.old.held) }
        ensures listed { is_listed self.old.calls ≡ true → is_err result ≡ true }
        ensures only_listed { OnErr result ((is_listed self.old.calls ≡ true)
            ⊎ AsksForMemory self.old.room self.old.held self.old.most from.now) }
        ensures calls { self.new.calls ≡ after_call (is_err result) self.old.calls }
        ensures room { self.old.room ≤ self.new.room }
        ensures most { self.new.most ≡ self.old.most }
        ensures later { self.old.calls.faults ≤ self.new.calls.faults }
        ensures rose { OnErr result (Rose self.old.calls.faults self.new.calls.faults) }
    {
        if self.calls.fails_next() {
            return Err(Failed);
        }
        match take_in(&mut self.bytes, self.most, from) {
            Ok(count) => Ok(count),
            Err(_) => {
                self.calls.count_fault();
                Err(Failed)
            }
        }
    }
}
