//! One walk over the entries of a log, which fills the tables of a coordinator.
ghost use Rattle.std.specs.Prelude.{◌≡◌, ◌≢◌, ◌↔◌, ◌+◌, ◌<◌, ◌^◌, ◌++◌, ◌∷◌, [], ℕ, List, length, replicate};
ghost use Rattle.std.specs.Prelude.{slice_index_or, Some, None, Err, IfOk, IfErr, OnOk, OnErr, MatchResult};
ghost use Rattle.cw_bytes.specs.Reading.{Reads, many_at};
ghost use Rattle.cw_types.specs.declared.ids.PartKey.{PartKey};
ghost use Rattle.cw_txn.specs.declared.entry.Entry.{Entry};
ghost use Rattle.cw_txn.specs.declared.body.BodyFault.{BodyFault};
ghost use Rattle.cw_txn.specs.Legal.{Chains};
ghost use Rattle.cw_txn.specs.Allowed.{AreAllowed, IsFirstNotAllowed, IsFirstUnchained};
ghost use Rattle.cw_txn.specs.Body.{AreEntries, entries_bytes};
ghost use Rattle.cw_txn.specs.BodyReading.{entry_at, entries_at, body_at};
ghost use Rattle.cw_txn.specs.Walk.{OnListFault, ChainsUpTo, IsChainTest, FoundWith, Walked, Took};
ghost use Rattle.cw_txn.specs.Replayed.{TakesBody};

use crate::allowed::is_allowed;
use crate::body::{BodyFault, read_count, read_entry};
use crate::coordinator::{Coordinator, coordinator_of};
use crate::entry::Entry;
use crate::tables::Tables;
use cw_bytes::{FieldFault, Reader};
use cw_types::Past;
use std::alloc::{AllocError, Global};
use std::marker::Model;
use thiserror::Error;

/// Why the entries of a log's bodies are none that a coordinator holds.
#[derive(Clone, Copy, Debug, PartialEq, Eq, Drop, Error)]
pub enum ListFault {
    /// The gate of the first entry that isn't allowed behind those before it.
    #[error("an entry of the frame at {0} isn't allowed")]
    NotAllowed(u64),
    /// The gate of the first entry of which a part's spans don't chain; all entries are allowed.
    #[error("a part doesn't chain at an entry of the frame at {0}")]
    Unchained(u64),
}

/// The entries of a log, taken one body after the other, for a coordinator of them. At run time it keeps
/// only what follows from them, no entry.
#[derive(Drop)]
pub struct Replay {
    alloc: Global,
    walk: Walk,
}

// The entries so far and the gate of each, which are ghost data, and what was found in them: their number, the gate of
// the first that isn't allowed and of the first that doesn't chain, and the tables as long as all are allowed.
#[derive(Drop)]
struct Walk {
    tables: Tables,
    entries: Past<Entry>,
    gates: Past<u64>,
    length: u64,
    not_allowed: Option<u64>,
    unchained: Option<u64>,
}

impl Model for Replay {
    ghost use Rattle.cw_txn.specs.Replayed.{Replayed};

    ghost Value = { Replayed };

    ghost use Rattle.cw_txn.specs.Walk.{Walked};

    ghost view = { λ a. record { entries = a.walk.entries.items; gates = a.walk.gates.items } };

    ghost invariant = { λ a. Walked a.walk };
}

impl Replay {
    /// With no entry.
    pub fn new(alloc: Global) -> Replay
        ensures { result ≡ record { entries = []; gates = [] } }
    {
        Replay {
            alloc,
            walk: Walk::new(alloc),
        }
    }

    /// Takes the entries of one body more, whose frame has its gate at this place. NotEntries comes exactly where the
    /// body isn't the bytes of any entries, Memory for want of memory or where the entries would be 2^64 or more.
    /// Behind an `Err` it has no entry.
    pub fn take_body(&mut self, body: &[u8], gate: u64) -> Result<(), BodyFault>
        ensures taken { OnOk result (TakesBody body.now gate self.old self.new) }
        ensures refused { (entries : List Entry) → AreEntries entries → body.now ≡ entries_bytes entries →
            result ≢ Err BodyFault.NotEntries }
        ensures err { OnErr result (self.new ≡ record { entries = []; gates = [] }) }
    {
        match self.walk.take_whole(self.alloc, body, gate) {
            Ok(_) => Ok(()),
            Err(fault) => {
                self.walk = Walk::new(self.alloc);
                Err(fault)
            }
        }
    }

    /// The coordinator of the entries, as it is after they were written one after the other. A fault names the gate of
    /// an entry: NotAllowed the first that may not stand where it does, else Unchained the first of which a part
    /// doesn't chain.
    pub fn into_coordinator(self) -> Result<Coordinator, ListFault>
        ensures entries { IfOk result (λ c. c ≡ record { entries = self.entries; reserved = [] }) }
        ensures allowed { OnOk result (AreAllowed self.entries) }
        ensures chains { OnOk result ((part : PartKey) → Chains part self.entries) }
        ensures fault { IfErr result (OnListFault
            (λ gate. (place : ℕ) × IsFirstNotAllowed self.entries place × (slice_index_or self.gates place gate ≡ gate))
            (λ gate. (place : ℕ) × AreAllowed self.entries × IsFirstUnchained self.entries place ×
            (slice_index_or self.gates place gate ≡ gate))) }
    {
        let Replay { alloc, walk } = self;
        let Walk {
            tables,
            entries,
            length,
            not_allowed,
            unchained,
            ..
        } = walk;
        if let Some(gate) = not_allowed {
            return Err(ListFault::NotAllowed(gate));
        }
        if let Some(gate) = unchained {
            return Err(ListFault::Unchained(gate));
        }
        Ok(coordinator_of(alloc, tables, entries, length))
    }
}

impl Walk {
    fn new(alloc: Global) -> Walk
        ensures entries { result.entries.items ≡ [] }
        ensures gates { result.gates.items ≡ [] }
        ensures walked { Walked result }
    {
        Walk {
            tables: Tables::new(alloc),
            entries: Past::new(),
            gates: Past::new(),
            length: 0,
            not_allowed: None,
            unchained: None,
        }
    }

    // The entries of a whole body more.
    fn take_whole(
        &mut self,
        alloc: Global,
        body: &[u8],
        gate: u64,
    ) -> Result<Past<Entry>, BodyFault>
        requires { Walked self.old }
        ensures read { MatchResult result (λ group. body_at body.now ≡ Some group.items)
            (λ fault. fault ≢ BodyFault.Memory → body_at body.now ≡ None) }
        ensures took { IfOk result (λ group. Took group.items gate self.old self.new) }
    {
        let mut from = Reader::new(body);
        let group = self.take_all(alloc, gate, &mut from)?;
        if !from.is_empty() {
            return Err(BodyFault::NotEntries);
        }
        Ok(group)
    }

    // The entries behind their number.
    #[tactic(auto, unfolding(crate::specs::BodyReading::entries_at))]
    fn take_all(
        &mut self,
        alloc: Global,
        gate: u64,
        from: &mut Reader<'_>,
    ) -> Result<Past<Entry>, FieldFault>
        requires { Walked self.old }
        ensures read { Reads (λ group. (group.items, from.new)) result (entries_at from.old) }
        ensures took { IfOk result (λ group. Took group.items gate self.old self.new) }
    {
        let count = read_count(from)?;
        self.take_many(alloc, count, gate, from)
    }

    // So many entries more, each as it is read.
    fn take_many(
        &mut self,
        alloc: Global,
        count: u32,
        gate: u64,
        from: &mut Reader<'_>,
    ) -> Result<Past<Entry>, FieldFault>
        requires { Walked self.old }
        ensures read { Reads (λ group. (group.items, from.new)) result (many_at entry_at count from.old) }
        ensures took { IfOk result (λ group. Took group.items gate self.old self.new) }
    {
        let mut group = Past::new();
        for _ in 0..count {
            let entry = read_entry(alloc, from)?;
            self.take(alloc, &entry, gate)?;
            group = group.and(&entry);
        }
        Ok(group)
    }

    // One entry more. Behind one that isn't allowed nothing else is looked for: no later fault comes before it.
    fn take(&mut self, alloc: Global, entry: &Entry, gate: u64) -> Result<(), AllocError>
        requires { Walked self.old }
        ensures { OnOk result (Took (entry.now ∷ []) gate self.old self.new) }
    {
        if self.length == u64::MAX {
            return Err(AllocError);
        }
        if self.not_allowed.is_some() {
            self.lengthen(entry, gate);
            return Ok(());
        }
        if !is_allowed(alloc, &self.tables, self.length as usize, entry)? {
            self.not_allowed = Some(gate);
            self.lengthen(entry, gate);
            return Ok(());
        }
        let chains = self.tables.put(entry)?;
        self.unchained = first_unchained(self.unchained, gate, chains);
        self.lengthen(entry, gate);
        Ok(())
    }

    // The list is one entry longer, of which all is found.
    fn lengthen(&mut self, entry: &Entry, gate: u64)
        requires counted { self.old.length ≡ length self.old.entries.items }
        requires few { self.old.length + 1 < 2 ^ 64 }
        requires aligned { length self.old.gates.items ≡ length self.old.entries.items }
        requires found { FoundWith self.old entry.now gate }
        ensures { Took (entry.now ∷ []) gate self.old self.new }
    {
        self.entries = self.entries.and(entry);
        self.gates = self.gates.and(&gate);
        self.length += 1;
    }
}

// The gate of the first entry at which a part doesn't chain, with one entry more, at which every part does or not.
fn first_unchained(unchained: Option<u64>, gate: u64, chains: bool) -> Option<u64>
    ensures { (entries : List Entry) (gates : List ℕ) (entry : Entry) → length gates ≡ length entries →
        IsChainTest entries entry chains →
        ChainsUpTo entries gates unchained → ChainsUpTo (entries ++ entry ∷ []) (gates ++ gate ∷ []) result }
{
    match unchained {
        Some(first) => Some(first),
        None => {
            if chains {
                return None;
            }
            Some(gate)
        }
    }
}
