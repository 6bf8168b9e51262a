//! Calls of a group of workers.
ghost use Rattle.std.specs.Prelude.{IfOk};
ghost use Rattle.std.specs.List.{IsDistinct};
ghost use Rattle.cw_assign.specs.Items.{same_item};

use crate::answer::Answer;
use crate::fault::Fault;
use crate::fields::Fields;
use crate::kinds::phase_word;
use crate::states::States;
use crate::tables::plans::say_shares;
use cw_assign::{ItemSet, Plan, plan};
use cw_group::{Group, GroupFault, Synced};
use cw_types::Item;
use std::alloc::Global;

/// `group CALL ..`: its answer, and behind it the group's round, its phase, its lowest member and the lowest
/// one that hasn't joined.
pub fn call(
    states: &mut States,
    fields: &mut Fields<'_>,
    answer: &mut Answer,
) -> Result<(), Fault> {
    match fields.word()? {
        "begin" => {
            states.group = Group::new(states.alloc);
            answer.word("ok")?;
        }
        "enter" => enter(&mut states.group, fields, answer)?,
        "claim" => claim(&states.group, fields, answer)?,
        "join" => join(states.alloc, &mut states.group, fields, answer)?,
        "expire" => expire(&mut states.group, fields, answer)?,
        "close_round" => close_round(&mut states.group, fields, answer)?,
        "store_plan" => store_plan(states.alloc, &mut states.group, fields, answer)?,
        "sync" => sync(&states.group, fields, answer)?,
        "member" => say_member(&states.group, fields, answer)?,
        "members" => answer.count(states.group.members().len())?,
        "planned" => answer.items(states.group.planned())?,
        _ => return Err(Fault::NoCall),
    }
    say_state(&states.group, answer)
}

fn say_state(group: &Group, answer: &mut Answer) -> Result<(), Fault> {
    answer.long(group.round())?;
    answer.word(phase_word(group.phase()))?;
    answer.some_long(group.lowest().map(u64::from))?;
    answer.some_long(group.lowest_missing().map(u64::from))
}

fn enter(group: &mut Group, fields: &mut Fields<'_>, answer: &mut Answer) -> Result<(), Fault> {
    let worker = fields.short()?;
    say_number(group.enter(worker), answer)
}

fn claim(group: &Group, fields: &mut Fields<'_>, answer: &mut Answer) -> Result<(), Fault> {
    let worker = fields.short()?;
    match group.claim(worker) {
        Some(items) => answer.items(items),
        None => answer.word("#-"),
    }
}

fn say_member(group: &Group, fields: &mut Fields<'_>, answer: &mut Answer) -> Result<(), Fault> {
    let worker = fields.short()?;
    answer.some_long(group.incarnation(worker))?;
    answer.flag(group.has_joined(worker))
}

fn join(
    alloc: Global,
    group: &mut Group,
    fields: &mut Fields<'_>,
    answer: &mut Answer,
) -> Result<(), Fault> {
    let worker = fields.short()?;
    let incarnation = fields.long()?;
    let held = held_items(alloc, fields)?;
    let round = group.join(worker, incarnation, &held);
    say_number(round, answer)
}

// What a member holds: each item once, in item order.
fn held_items(alloc: Global, fields: &mut Fields<'_>) -> Result<Vec<Item>, Fault>
    ensures { IfOk result (λ items. IsDistinct same_item items.items) }
{
    let items = fields.items(alloc)?;
    Ok(ItemSet::of(alloc, &items)?.into_items(alloc)?)
}

fn expire(group: &mut Group, fields: &mut Fields<'_>, answer: &mut Answer) -> Result<(), Fault> {
    let worker = fields.short()?;
    match group.expire(worker) {
        Ok(items) => answer.items(&items),
        Err(fault) => say_fault(&fault, answer),
    }
}

fn close_round(
    group: &mut Group,
    fields: &mut Fields<'_>,
    answer: &mut Answer,
) -> Result<(), Fault> {
    let worker = fields.short()?;
    let round = fields.long()?;
    match group.close_round(worker, round) {
        Ok(()) => answer.word("ok"),
        Err(fault) => say_fault(&fault, answer),
    }
}

fn store_plan(
    alloc: Global,
    group: &mut Group,
    fields: &mut Fields<'_>,
    answer: &mut Answer,
) -> Result<(), Fault> {
    let worker = fields.short()?;
    let round = fields.long()?;
    let items = fields.items(alloc)?;
    match store(alloc, group, worker, round, &items)? {
        Ok(made) => {
            answer.word("ok")?;
            say_shares(&made, answer)
        }
        Err(fault) => say_fault(&fault, answer),
    }
}

// Stores the leader's plan for the claims and these items, with no item lost and no delay, and gives it.
fn store(
    alloc: Global,
    group: &mut Group,
    worker: u32,
    round: u64,
    items: &[Item],
) -> Result<Result<Plan, GroupFault>, Fault> {
    let planned = ItemSet::of(alloc, items)?.into_items(alloc)?;
    let holders = group.holders()?;
    if holders.is_empty() {
        return Err(Fault::NoCall);
    }
    let made = plan(alloc, &holders, &planned, &[], false)?;
    Ok(
        group
            .store_plan(worker, round, &made, &planned)
            .map(|_| made),
    )
}

fn sync(group: &Group, fields: &mut Fields<'_>, answer: &mut Answer) -> Result<(), Fault> {
    let worker = fields.short()?;
    let round = fields.long()?;
    match group.sync(worker, round) {
        Ok(synced) => say_synced(&synced, answer),
        Err(fault) => say_fault(&fault, answer),
    }
}

fn say_synced(synced: &Synced, answer: &mut Answer) -> Result<(), Fault> {
    answer.long(synced.round)?;
    answer.long(u64::from(synced.leader))?;
    answer.items(synced.assigned.as_slice())?;
    answer.items(synced.revoked.as_slice())
}

fn say_number(number: Result<u64, GroupFault>, answer: &mut Answer) -> Result<(), Fault> {
    match number {
        Ok(number) => answer.long(number),
        Err(fault) => say_fault(&fault, answer),
    }
}

fn say_fault(fault: &GroupFault, answer: &mut Answer) -> Result<(), Fault> {
    match fault {
        GroupFault::Unknown => answer.word("Unknown"),
        GroupFault::NotClaimed(item) => {
            answer.word("NotClaimed")?;
            answer.item(item)
        }
        GroupFault::AlreadyJoined => answer.word("AlreadyJoined"),
        GroupFault::Missing(worker) => {
            answer.word("Missing")?;
            answer.long(u64::from(*worker))
        }
        GroupFault::NoPlan => answer.word("NoPlan"),
        GroupFault::NotLeader => answer.word("NotLeader"),
        GroupFault::OldGeneration { current } => {
            answer.word("OldGeneration")?;
            answer.long(*current)
        }
        GroupFault::Memory => Err(Fault::Memory),
    }
}
