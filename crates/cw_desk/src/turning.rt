//! A turn: a call is answered, and kept in the journal.
ghost use Rattle.std.specs.Prelude.{◌≡◌, ◌<◌, ◌++◌, [], ◌∷◌, true, ℕ, length, IfOk, OnErr};
ghost use Rattle.cw_model.specs.Grows.{Grows};
ghost use Rattle.cw_model.specs.Lookups.{row_of};
ghost use Rattle.cw_ops.specs.Faults.{fault_reply};
ghost use Rattle.cw_desk.specs.Turns.{IsTurn, IsEntryOf, entry_with, lengths_in};

use crate::lengths::{Lengths, lengths_now};
use cw_disk::Disk;
use cw_herder::submit;
use cw_model::{JournalEntry, WorldFault};
use cw_ops::fault_reply;
use cw_route::{Call, Reply};
use cw_rows::Cluster;
use cw_world::{Receipt, World};
use std::alloc::{AllocError, Global};

/// A call through a worker that lives is answered and kept in the journal: one that a failed disk, a full log or want
/// of memory stops is told so. The receipt shows its entry, with how much of the session lists the reply saw. The only
/// error is want of memory, which keeps nothing; the call may then have been done, or have stopped behind its write.
pub fn turn<D: Disk>(
    alloc: Global,
    world: &mut World<D>,
    w: u32,
    call: Call,
) -> Result<Receipt, AllocError>
    requires { (row_of w world.old.state).live ≡ true }
    ensures turn { IsTurn D.Disk w call world.old world.new result }
    ensures asked { IfOk result (λ receipt. (receipt.entry.worker ≡ w) × (receipt.entry.call ≡ call)) }
    ensures shows { IfOk result (λ receipt. (receipt.number ≡ length world.old.state.journal) ×
        (receipt.name ≡ world.old.name)) }
    ensures kept { IfOk result (λ receipt. world.new.state.journal ≡ world.old.state.journal ++ receipt.entry ∷ []) }
    ensures unkept { OnErr result (world.new.state.journal ≡ world.old.state.journal) }
    ensures grows { Grows world.old.state world.new.state }
    ensures live { (v : ℕ) → (row_of v world.new.state).live ≡ (row_of v world.old.state).live }
    ensures same { (world.new.setting ≡ world.old.setting) × (world.new.name ≡ world.old.name) }
{
    world.is_safe();
    answer(alloc, world, w, call)
}

// The call is submitted, and its entry kept.
fn answer<D: Disk>(
    alloc: Global,
    world: &mut World<D>,
    w: u32,
    call: Call,
) -> Result<Receipt, AllocError>
    requires { (row_of w world.old.state).live ≡ true }
    ensures { IsTurn D.Disk w call world.old world.new result }
{
    world.is_safe();
    let Some(found) = lengths_now(world.cluster(), w, &call) else {
        return Err(AllocError);
    };
    let answer = submit(alloc, world, w, &call);
    let entry = entry_of(alloc, world.cluster(), w, call, found, answer)?;
    match world.journal(entry) {
        Ok(receipt) => Ok(receipt),
        Err(_) => Err(AllocError),
    }
}

// The entry of a call behind its answer, which was found with these lengths.
fn entry_of(
    alloc: Global,
    cluster: &Cluster,
    w: u32,
    call: Call,
    found: Lengths,
    answer: Result<Reply, WorldFault>,
) -> Result<JournalEntry, AllocError>
    requires { w < length cluster.now.state.rows }
    ensures { IfOk result (λ entry. IsEntryOf w call found answer cluster.now.state entry) }
{
    match answer {
        Ok(reply) => Ok(entry_with(w, call, reply, found)),
        Err(fault) => entry_of_fault(alloc, cluster, w, call, &fault),
    }
}

/// The entry of a call that a fault stopped. Its only error is want of memory.
pub fn entry_of_fault(
    alloc: Global,
    cluster: &Cluster,
    w: u32,
    call: Call,
    fault: &WorldFault,
) -> Result<JournalEntry, AllocError>
    requires { w < length cluster.now.state.rows }
    ensures { IfOk result (λ entry.
        entry ≡ entry_with w call (fault_reply fault.now) (lengths_in w call cluster.now.state)) }
{
    let Some(left) = lengths_now(cluster, w, &call) else {
        return Err(AllocError);
    };
    let reply = fault_reply(alloc, fault)?;
    Ok(entry_with(w, call, reply, left))
}

// The entry of a call that saw as much.
fn entry_with(w: u32, call: Call, reply: Reply, lengths: Lengths) -> JournalEntry
    ensures { result ≡ entry_with w call reply lengths }
{
    JournalEntry {
        worker: w,
        board: false,
        prefix: lengths.prefix,
        statuses: lengths.statuses,
        entries: lengths.entries,
        call,
        reply,
    }
}
