//! What objects in memory give and take in a call.
ghost use Rattle.std.specs.Prelude.{◌≡◌, ◌≤◌, ◌<◌, ◌++◌, [], length, take, min, vec_capacity, IfOk, OnErr};
ghost use Rattle.cw_io.specs.Memory.{AsksForMemory};

use std::alloc::AllocError;
use std::marker::Model;

// Bytes that are given from their front on. Clauses see those that are left.
#[derive(Debug, Drop)]
pub(crate) struct Front {
    bytes: Vec<u8>,
    at: usize,
}

impl Model for Front {
    ghost use Rattle.std.specs.Prelude.{◌≤◌, List, ℕ, drop, vec_len};

    ghost Value = { List ℕ };

    ghost view = { λ f. drop f.at f.bytes.items };

    ghost invariant = { λ f. f.at ≤ vec_len f.bytes };
}

impl Front {
    // All of these bytes.
    pub(crate) fn new(bytes: Vec<u8>) -> Front
        ensures { result ≡ bytes.items }
    {
        Front { bytes, at: 0 }
    }

    // Gives at most `most` bytes into the front of a piece, and says how many.
    pub(crate) fn give(&mut self, most: usize, into: &mut [u8]) -> usize
        requires { 0 < most }
        ensures fits { result ≤ length into.old }
        ensures taken { self.old ≡ take result into.new ++ self.new }
        ensures at_end { result ≡ 0 → 0 < length into.old → self.old ≡ [] }
    {
        let count = into.len().min(most).min(self.bytes.len() - self.at);
        into[..count].copy_from_slice(&self.bytes[self.at..self.at + count]);
        self.at += count;
        count
    }
}

// Takes at most `most` bytes from the front of a piece behind those that are held, and says how many.
pub(crate) fn take_in(held: &mut Vec<u8>, most: usize, from: &[u8]) -> Result<usize, AllocError>
    ensures count { IfOk result (λ n. n ≡ min (length from.now) most) }
    ensures added { IfOk result (λ n. held.new.items ≡ held.old.items ++ take n from.now) }
    ensures kept { OnErr result (held.new.items ≡ held.old.items) }
    ensures wants { OnErr result (AsksForMemory (vec_capacity held.old) held.old.items most from.now) }
    ensures room { vec_capacity held.old ≤ vec_capacity held.new }
{
    let count = from.len().min(most);
    held.extend_from_slice(&from[..count])?;
    Ok(count)
}
