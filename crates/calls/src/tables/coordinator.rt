//! Calls of the transaction coordinator.

use crate::answer::Answer;
use crate::fault::Fault;
use crate::fields::Fields;
use crate::kinds::verdict_word;
use crate::states::States;
use cw_txn::{BodyFault, Coordinator, Entry, ListFault, Replay, SetOffset, TxnFault};
use cw_types::{Decided, Epoch, Listed};
use std::alloc::Global;

/// `coordinator CALL ..`: a change, or a look-up.
pub fn call(
    states: &mut States,
    fields: &mut Fields<'_>,
    answer: &mut Answer,
) -> Result<(), Fault> {
    let alloc = states.alloc;
    match fields.word()? {
        "begin" => {
            states.coordinator = Coordinator::new(alloc);
            answer.word("ok")
        }
        "bump" => bump(alloc, &mut states.coordinator, fields, answer),
        "commit" => commit(alloc, &mut states.coordinator, fields, answer),
        "set" => set(alloc, &mut states.coordinator, fields, answer),
        "replay" => replay(states, fields, answer),
        "reserve" => reserve(alloc, &mut states.coordinator, fields, answer),
        "release" => {
            states.coordinator.release();
            answer.word("ok")
        }
        word => look_up(alloc, &states.coordinator, word, fields, answer),
    }
}

fn bump(
    alloc: Global,
    coordinator: &mut Coordinator,
    fields: &mut Fields<'_>,
    answer: &mut Answer,
) -> Result<(), Fault> {
    let id = fields.tid(alloc)?;
    match coordinator.bump(&id) {
        Ok(epoch) => answer.long(epoch.0),
        Err(fault) => say_fault(fault, answer),
    }
}

fn commit(
    alloc: Global,
    coordinator: &mut Coordinator,
    fields: &mut Fields<'_>,
    answer: &mut Answer,
) -> Result<(), Fault> {
    let tag = fields.tag(alloc)?;
    let generation = fields.long()?;
    let spans = fields.spans(alloc)?;
    if coordinator.is_committed(&tag) || !coordinator.are_next(&spans) {
        return Err(Fault::NoCall);
    }
    match coordinator.commit(&tag, generation, &spans) {
        Ok(()) => answer.word("ok"),
        Err(fault) => say_fault(fault, answer),
    }
}

fn set(
    alloc: Global,
    coordinator: &mut Coordinator,
    fields: &mut Fields<'_>,
    answer: &mut Answer,
) -> Result<(), Fault> {
    let id = fields.tid(alloc)?;
    let epoch = Epoch(fields.long()?);
    let offsets = set_offsets(alloc, fields)?;
    match coordinator.set(&id, epoch, &offsets) {
        Ok(()) => answer.word("ok"),
        Err(fault) => say_fault(fault, answer),
    }
}

fn set_offsets(alloc: Global, fields: &mut Fields<'_>) -> Result<Vec<SetOffset>, Fault> {
    let count = fields.short()?;
    let mut offsets = Vec::new(alloc);
    for _ in 0..count {
        let offset = SetOffset {
            part: fields.part(alloc)?,
            to: fields.some_long()?,
        };
        offsets.push(offset.copy()?)?;
    }
    Ok(offsets)
}

// The coordinator of bodies, each with its gate, which takes the place of the one that was; or what is wrong.
fn replay(states: &mut States, fields: &mut Fields<'_>, answer: &mut Answer) -> Result<(), Fault> {
    let mut bodies = Replay::new(states.alloc);
    let count = fields.short()?;
    for _ in 0..count {
        let body = fields.text(states.alloc)?;
        let gate = fields.long()?;
        match bodies.take_body(&body, gate) {
            Ok(()) => answer.word("taken")?,
            Err(BodyFault::NotEntries) => answer.word("NotEntries")?,
            Err(BodyFault::Memory) => return Err(Fault::Memory),
        }
    }
    match bodies.into_coordinator() {
        Ok(coordinator) => {
            states.coordinator = coordinator;
            answer.word("ok")
        }
        Err(fault) => say_list_fault(fault, answer),
    }
}

fn say_list_fault(fault: ListFault, answer: &mut Answer) -> Result<(), Fault> {
    match fault {
        ListFault::NotAllowed(gate) => {
            answer.word("NotAllowed")?;
            answer.long(gate)
        }
        ListFault::Unchained(gate) => {
            answer.word("Unchained")?;
            answer.long(gate)
        }
    }
}

// An entry of the list that is reserved: `bump ID`, `commit TAG GENERATION SPANS` or `set ID EPOCH OFFSETS`.
fn reserve(
    alloc: Global,
    coordinator: &mut Coordinator,
    fields: &mut Fields<'_>,
    answer: &mut Answer,
) -> Result<(), Fault> {
    coordinator.reserve(&read_entry(alloc, fields)?)?;
    answer.word("ok")
}

fn read_entry(alloc: Global, fields: &mut Fields<'_>) -> Result<Entry, Fault> {
    let entry = match fields.word()? {
        "bump" => Entry::Bump(fields.tid(alloc)?),
        "commit" => Entry::Commit {
            tag: fields.tag(alloc)?,
            generation: fields.long()?,
            spans: Listed::new(fields.spans(alloc)?),
        },
        "set" => Entry::Set {
            tid: fields.tid(alloc)?,
            epoch: Epoch(fields.long()?),
            list: Listed::new(set_offsets(alloc, fields)?),
        },
        _ => return Err(Fault::NoCall),
    };
    Ok(entry.copy(alloc)?)
}

fn say_fault(fault: TxnFault, answer: &mut Answer) -> Result<(), Fault> {
    match fault {
        TxnFault::Fenced { current } => {
            answer.word("Fenced")?;
            answer.long(current)
        }
        TxnFault::Memory => Err(Fault::Memory),
    }
}

fn look_up(
    alloc: Global,
    coordinator: &Coordinator,
    word: &str,
    fields: &mut Fields<'_>,
    answer: &mut Answer,
) -> Result<(), Fault> {
    match word {
        "length" => answer.long(coordinator.length()),
        "epoch" => answer.long(coordinator.epoch_of(&fields.tid(alloc)?)),
        "base" => answer.long(coordinator.base_of(&fields.part(alloc)?)),
        "end" => answer.some_long(coordinator.end_of(&fields.part(alloc)?)),
        "parts" => parts(alloc, coordinator, fields, answer),
        word => look_up_commit(alloc, coordinator, word, fields, answer),
    }
}

// A look-up of a transaction, or of spans that one may commit.
fn look_up_commit(
    alloc: Global,
    coordinator: &Coordinator,
    word: &str,
    fields: &mut Fields<'_>,
    answer: &mut Answer,
) -> Result<(), Fault> {
    match word {
        "verdict" => answer.word(verdict_word(coordinator.verdict(&fields.tag(alloc)?))),
        "is_committed" => answer.flag(coordinator.is_committed(&fields.tag(alloc)?)),
        "are_next" => answer.flag(coordinator.are_next(&fields.spans(alloc)?)),
        _ => Err(Fault::NoCall),
    }
}

fn parts(
    alloc: Global,
    coordinator: &Coordinator,
    fields: &mut Fields<'_>,
    answer: &mut Answer,
) -> Result<(), Fault> {
    let parts = coordinator.parts_of(&fields.name(alloc)?)?;
    answer.parts(&parts)
}
