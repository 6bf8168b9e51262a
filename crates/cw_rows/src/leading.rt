//! What the leader writes to the transaction list: the claim of its lead epoch, the bumps that fence the producers of
//! older tasks (KIP-618), and offsets that a user sets or resets (KIP-875).
ghost use Rattle.std.specs.Prelude.{◌≡◌, ◌<◌, ◌≤◌, ◌+◌, ◌++◌, ◌∷◌, [], length, Ok, IfOk, OnOk, MatchResult, true};
ghost use Rattle.std.specs.Prelude.{unwrap_or, Some};
ghost use Rattle.cw_types.specs.declared.ids.PartKey.{PartKey};
ghost use Rattle.cw_types.specs.declared.ids.Tid.TheVariants as tid;
ghost use Rattle.cw_types.specs.declared.logs.LogName.TheVariants as log;
ghost use Rattle.cw_config.specs.View.{fenced_count_of};
ghost use Rattle.cw_rest.specs.Operations.{bumps_of, offset_entries};
ghost use Rattle.cw_txn.specs.Allowed.{AreAllowed};
ghost use Rattle.cw_txn.specs.Body.{entries_bytes, AreShort};
ghost use Rattle.cw_txn.specs.Legal.{Chains};
ghost use Rattle.cw_txn.specs.declared.entry.Entry.TheVariants as entry;
ghost use Rattle.cw_model.specs.Bodies.{frame_of, has_room};
ghost use Rattle.cw_model.specs.EventsLeading.{claim_lead, fence_one, set_offsets, MayFence, fencing_of, fenced_tid};
ghost use Rattle.cw_model.specs.Lookups.{row_of};
ghost use Rattle.cw_rows.specs.Entries.{fencing_in};
ghost use Rattle.cw_rows.specs.Kept.{worker_test};
ghost use Rattle.cw_rows.specs.Tests.{leader_test};
ghost use Rattle.cw_rows.specs.Writes.{bytes_in, Readies, Refuses, Puts};

use crate::cluster::Cluster;
use cw_config::ConfigState;
use cw_model::{Fencing, Row, WorldFault};
use cw_topics::{EntryFrame, Topics};
use cw_txn::{Entry, SetOffset};
use cw_types::{Epoch, Listed, Name, TaskId, Tid};
use std::alloc::{AllocError, Global};

/// The frame of a bump that fences a producer, and how far its leader had fenced.
#[derive(Drop)]
pub struct FenceFrame {
    /// The frame.
    pub frame: EntryFrame,
    /// Its task is the next one of these.
    pub fencing: Fencing,
}

impl FenceFrame {
    /// Its bytes.
    pub fn body(&self) -> &[u8]
        ensures bytes { result.now ≡ entries_bytes self.now.frame }
        ensures some { 1 ≤ length result.now }
    {
        self.frame.body()
    }
}

impl Cluster {
    /// Takes the memory of the next lead epoch.
    pub fn ready_claim_lead(&mut self, w: u32) -> Result<EntryFrame, WorldFault>
        requires { w < length self.old.state.rows }
        ensures due { MatchResult result
            (λ frame. Readies log.Txn (claim_lead w) (entries_bytes frame) self.old self.new)
            (λ fault. Refuses (claim_lead w) fault self.old self.new) }
        ensures passed { OnOk result (worker_test w self.old.state ≡ Ok tt) }
        ensures frame { IfOk result (λ frame. frame ≡ entry.Bump tid.Lead ∷ []) }
        ensures ready { IfOk result (λ frame. self.new.ready ≡ frame) }
    {
        self.test_worker(w)?;
        let Ok(frame) = self.topics.ready_entry(self.alloc, Entry::Bump(Tid::Lead)) else {
            return Err(WorldFault::Memory);
        };
        Ok(frame)
    }

    /// A leader gets the next lead epoch, whose bump stands in the log: the answer is the epoch.
    pub fn put_claim_lead(&mut self, w: u32, frame: EntryFrame) -> Epoch
        requires there { w < length self.old.state.rows }
        requires passed { worker_test w self.old.state ≡ Ok tt }
        requires frame { frame ≡ entry.Bump tid.Lead ∷ [] }
        requires ready { self.old.ready ≡ frame }
        requires room { has_room (bytes_in log.Txn self.old.state) (frame_of (entries_bytes frame)) ≡ true }
        ensures { Puts (claim_lead w) result self.old self.new }
    {
        let epoch = self.topics.put_bump(frame);
        self.crew.lead(w, epoch);
        epoch
    }

    /// Takes the memory of the bump that fences the next producer of a connector's older tasks.
    pub fn ready_fence_one(&mut self, w: u32, name: &Name) -> Result<FenceFrame, WorldFault>
        requires { w < length self.old.state.rows }
        ensures due { MatchResult result
            (λ frame. Readies log.Txn (fence_one w name.now) (entries_bytes frame.frame) self.old self.new)
            (λ fault. Refuses (fence_one w name.now) fault self.old self.new) }
        ensures passed { OnOk result (leader_test w self.old.state ≡ Ok tt) }
        ensures fencing { IfOk result (λ frame. frame.fencing ≡ fencing_of w name.now self.old.state) }
        ensures frame { IfOk result (λ frame. frame.frame ≡
            entry.Bump (fenced_tid (fencing_of w name.now self.old.state)) ∷ []) }
        ensures ready { IfOk result (λ frame. self.new.ready ≡ frame.frame) }
    {
        self.test_leader(w)?;
        let Ok(frame) = ready_fence(
            &mut self.topics,
            self.alloc,
            self.crew.row(w),
            self.crew.read_by(w),
            name,
        ) else {
            return Err(WorldFault::Memory);
        };
        Ok(frame)
    }

    /// The leader has fenced a producer, whose bump stands in the log: the answer is the task's index and the new
    /// epoch.
    pub fn put_fence_one(&mut self, w: u32, name: &Name, frame: FenceFrame) -> (u32, Epoch)
        requires there { w < length self.old.state.rows }
        requires passed { leader_test w self.old.state ≡ Ok tt }
        requires left { frame.fencing.next < frame.fencing.count }
        requires fencing { frame.fencing ≡ fencing_of w name.now self.old.state }
        requires frame { frame.frame ≡ entry.Bump (fenced_tid (fencing_of w name.now self.old.state)) ∷ [] }
        requires ready { self.old.ready ≡ frame.frame }
        requires room { has_room (bytes_in log.Txn self.old.state) (frame_of (entries_bytes frame.frame)) ≡ true }
        ensures { Puts (fence_one w name.now) result self.old self.new }
    {
        let epoch = self.topics.put_bump(frame.frame);
        let index = frame.fencing.next;
        self.crew.set_fencing(w, one_more(frame.fencing));
        (index, epoch)
    }

    /// Takes the memory of offsets of a stopped connector, and of the bumps of its producers.
    pub fn ready_set_offsets(
        &mut self,
        w: u32,
        name: &Name,
        list: &[SetOffset],
    ) -> Result<EntryFrame, WorldFault>
        requires { w < length self.old.state.rows }
        ensures due { MatchResult result
            (λ frame. Readies log.Txn (set_offsets w name.now list.now) (entries_bytes frame) self.old self.new)
            (λ fault. Refuses (set_offsets w name.now list.now) fault self.old self.new) }
        ensures passed { OnOk result (leader_test w self.old.state ≡ Ok tt) }
        ensures frame { IfOk result (λ frame. frame ≡
            offset_entries name.now (fenced_count_of name.now self.old.state.configs)
            (unwrap_or (row_of w self.old.state).lead (record { 0 = 0 })) list.now) }
        ensures ready { IfOk result (λ frame. self.new.ready ≡ frame) }
    {
        self.test_leader(w)?;
        let epoch = self.crew.row(w).lead.unwrap_or(Epoch(0));
        let Ok(frame) = ready_offsets(&mut self.topics, self.alloc, name, epoch, list) else {
            return Err(WorldFault::Memory);
        };
        Ok(frame)
    }

    /// Offsets of a stopped connector are set, and whoever produced for it is fenced: their frame stands in the log.
    pub fn put_set_offsets(&mut self, w: u32, name: &Name, list: &[SetOffset], frame: EntryFrame)
        requires passed { leader_test w self.old.state ≡ Ok tt }
        requires frame { frame ≡ offset_entries name.now (fenced_count_of name.now self.old.state.configs)
            (unwrap_or (row_of w self.old.state).lead (record { 0 = 0 })) list.now }
        requires ready { self.old.ready ≡ frame }
        requires allowed { AreAllowed (self.old.state.entries ++ frame) }
        requires chains { (part : PartKey) → Chains part (self.old.state.entries ++ frame) }
        requires room { has_room (bytes_in log.Txn self.old.state) (frame_of (entries_bytes frame)) ≡ true }
        ensures { Puts (set_offsets w name.now list.now) tt self.old self.new }
    {
        self.topics.put_entries(frame);
    }
}

// Takes the memory of the bump that fences the next producer, and writes its frame.
fn ready_fence(
    topics: &mut Topics,
    alloc: Global,
    row: &Row,
    read: &ConfigState,
    name: &Name,
) -> Result<FenceFrame, AllocError>
    ensures same { topics.new ≡ record topics.old {
      entries = record topics.old.entries { reserved = topics.new.entries.reserved };
    } }
    ensures fencing { IfOk result (λ frame. frame.fencing ≡
        fencing_in row.now read.now topics.old.configs name.now) }
    ensures frame { IfOk result (λ frame. frame.frame ≡
        entry.Bump (fenced_tid (fencing_in row.now read.now topics.old.configs name.now)) ∷ []) }
    ensures ready { IfOk result (λ frame. topics.new.entries.reserved ≡ frame.frame) }
{
    let fencing = fencing_of(row, read, topics.configs(), name)?;
    let id = TaskId {
        connector: fencing.connector.copy()?,
        index: fencing.next,
    };
    let frame = topics.ready_entry(alloc, Entry::Bump(Tid::Task(id)))?;
    Ok(FenceFrame { frame, fencing })
}

// Takes the memory of offsets of a connector and the bumps of its producers, and writes their frame.
fn ready_offsets(
    topics: &mut Topics,
    alloc: Global,
    name: &Name,
    epoch: Epoch,
    list: &[SetOffset],
) -> Result<EntryFrame, AllocError>
    ensures same { topics.new ≡ record topics.old {
      entries = record topics.old.entries { reserved = topics.new.entries.reserved };
    } }
    ensures frame { IfOk result (λ frame. frame ≡
        offset_entries name.now (fenced_count_of name.now topics.old.configs) epoch list.now) }
    ensures ready { OnOk result (topics.new.entries.reserved ≡
        offset_entries name.now (fenced_count_of name.now topics.old.configs) epoch list.now) }
{
    let entries = offset_entries(
        alloc,
        name,
        topics.configs().fenced_count(name),
        epoch,
        list,
    )?;
    topics.ready_entries(alloc, entries)
}

// How far a leader has fenced a connector's older tasks.
fn fencing_of(
    row: &Row,
    read: &ConfigState,
    configs: &ConfigState,
    name: &Name,
) -> Result<Fencing, AllocError>
    ensures { IfOk result (λ fencing. fencing ≡ fencing_in row.now read.now configs.now name.now) }
{
    let generation = read.generation(name).unwrap_or(0);
    match &row.fencing {
        Some(own) => {
            if own.connector == *name && own.generation == generation {
                return copy_of(own);
            }
            begun(name, generation, configs.fenced_count(name))
        }
        None => begun(name, generation, configs.fenced_count(name)),
    }
}

// A fencing that has just begun.
fn begun(name: &Name, generation: u64, count: u32) -> Result<Fencing, AllocError>
    ensures { IfOk result (λ fencing. fencing ≡
        record { connector = name.now; generation = generation; next = 0; count = count }) }
{
    Ok(Fencing {
        connector: name.copy()?,
        generation,
        next: 0,
        count,
    })
}

// A copy of a fencing.
fn copy_of(fencing: &Fencing) -> Result<Fencing, AllocError>
    ensures { IfOk result (λ copy. copy ≡ fencing.now) }
{
    Ok(Fencing {
        connector: fencing.connector.copy()?,
        generation: fencing.generation,
        next: fencing.next,
        count: fencing.count,
    })
}

// A fencing that is one task further.
fn one_more(fencing: Fencing) -> Fencing
    requires { fencing.next < fencing.count }
    ensures { result ≡ record fencing { next = fencing.next + 1 } }
{
    Fencing {
        connector: fencing.connector,
        generation: fencing.generation,
        next: fencing.next + 1,
        count: fencing.count,
    }
}

// The entries by which a connector's offsets are set and its producers are fenced. There are never 2^32.
fn offset_entries(
    alloc: Global,
    name: &Name,
    fenced: u32,
    epoch: Epoch,
    list: &[SetOffset],
) -> Result<Vec<Entry>, AllocError>
    ensures entries { IfOk result (λ entries. entries.items ≡ offset_entries name.now fenced epoch list.now) }
    ensures short { IfOk result (λ entries. AreShort entries.items) }
{
    if fenced == u32::MAX || list.len() > u32::MAX as usize {
        return Err(AllocError);
    }
    let mut entries = bumps_of(alloc, name, fenced)?;
    entries.push(Entry::Set {
        tid: Tid::Lead,
        epoch,
        list: copy_sets(alloc, list)?,
    })?;
    Ok(entries)
}

// The bumps of the producers of a connector's tasks.
fn bumps_of(alloc: Global, name: &Name, count: u32) -> Result<Vec<Entry>, AllocError>
    ensures { IfOk result (λ bumps. bumps.items ≡ bumps_of name.now count) }
{
    let mut bumps = Vec::new(alloc);
    for index in 0..count {
        let connector = name.copy()?;
        bumps.push(Entry::Bump(Tid::Task(TaskId { connector, index })))?;
    }
    Ok(bumps)
}

// A copy of offsets that are set.
fn copy_sets(alloc: Global, list: &[SetOffset]) -> Result<Listed<SetOffset>, AllocError>
    ensures { IfOk result (λ copies. copies ≡ list.now) }
{
    let mut copies = Vec::new(alloc);
    for set in list {
        copies.push(set.copy()?)?;
    }
    Ok(Listed::new(copies))
}
