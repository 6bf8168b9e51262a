//! The plan.
ghost use Rattle.std.specs.Prelude.{◌≡◌, ◌<◌, ◌++◌, List, false, IfOk, length, not};
ghost use Rattle.std.specs.List.{filter};
ghost use Rattle.std.specs.List.Sorted.{IsStrictlySortedBy};
ghost use Rattle.cw_types.specs.declared.ids.Item.{Item};
ghost use Rattle.cw_types.specs.Order.{item_cmp};
ghost use Rattle.cw_assign.specs.Items.{has};
ghost use Rattle.cw_assign.specs.declared.share.Holder.{Holder};
ghost use Rattle.cw_assign.specs.Valid.{IsValid};
ghost use Rattle.cw_assign.specs.Settled.{IsReady, HoldWhatWasGiven, IsSettled};
ghost use Rattle.cw_assign.specs.Plan.{plan_of, shares_of, share_of, held_by};

use crate::class::{Known, deal};
use crate::items::{ItemSet, Kind};
use crate::seat::Seat;
use crate::share::{Holder, Plan, Share};
use cw_types::{Item, Listed};
use std::alloc::{AllocError, Global};

/// The plan for members with what they hold, the configured items and those that were lost (KIP-415).
/// Each member keeps its configured items up to its quota, or all of them while a delay runs, and gives
/// up the rest. What nobody holds goes item by item to the member with the least load; lost items wait
/// while a delay runs.
pub fn plan(
    alloc: Global,
    members: &[Holder],
    configured: &[Item],
    lost: &[Item],
    running: bool,
) -> Result<Plan, AllocError>
    requires { 0 < length members.now }
    ensures planned { IfOk result (λ plan. plan ≡ plan_of members.now configured.now lost.now running) }
    ensures valid { IfOk result (λ plan. IsStrictlySortedBy item_cmp configured.now →
        IsValid members.now configured.now lost.now running plan) }
{
    let known = Known {
        configured: ItemSet::of(alloc, configured)?,
        held: held_by(alloc, members)?,
        lost: ItemSet::of(alloc, lost)?,
    };
    let connectors = deal(
        alloc,
        Kind::Connectors,
        members,
        configured,
        &known,
        running,
    )?;
    let tasks = deal(alloc, Kind::Tasks, members, configured, &known, running)?;
    let shares = shares_of(alloc, members, connectors, tasks)?;
    Ok(Plan {
        shares: Listed::new(shares),
    })
}

/// The law of two plans one after the other (KIP-415): where each member holds what the first gave it, with
/// the same members and items and no delay, the second settles the group. It takes nothing away, gives
/// every configured item to one member, and the loads in a class differ by at most one.
pub fn plans_settle()
    ensures { (members second : List Holder) (configured lost later : List Item) → 0 < length members →
        IsReady members configured → HoldWhatWasGiven (plan_of members configured lost false).shares second →
        IsSettled configured (plan_of second configured later false) }
{}

// What the members hold.
fn held_by(alloc: Global, members: &[Holder]) -> Result<ItemSet, AllocError>
    ensures { IfOk result (λ set. (x : Item) → has set x ≡ has (held_by members.now) x) }
{
    let mut set = ItemSet::new(alloc);
    for member in members {
        set.add(member.held.as_slice())?;
    }
    Ok(set)
}

// The shares of members, of their hands of both classes.
fn shares_of(
    alloc: Global,
    members: &[Holder],
    mut connectors: Vec<Seat>,
    mut tasks: Vec<Seat>,
) -> Result<Vec<Share>, AllocError>
    requires connectors { length connectors.items ≡ length members.now }
    requires tasks { length tasks.items ≡ length members.now }
    ensures { IfOk result (λ shares. shares.items ≡ shares_of members.now connectors.items tasks.items) }
{
    let mut shares = Vec::new(alloc);
    for at in 0..members.len() {
        let share = share_of(
            alloc,
            &members[at],
            connectors[at].cleared(alloc),
            tasks[at].cleared(alloc),
        )?;
        shares.push(share)?;
    }
    Ok(shares)
}

// A member's share, of its hands of both classes.
fn share_of(
    alloc: Global,
    member: &Holder,
    connectors: Seat,
    tasks: Seat,
) -> Result<Share, AllocError>
    ensures { IfOk result (λ share. share ≡ share_of member.now connectors tasks) }
{
    let (kept, fresh) = connectors.into_items();
    let (kept_tasks, fresh_tasks) = tasks.into_items();
    let kept = joined(kept, kept_tasks)?;
    let fresh = joined(fresh, fresh_tasks)?;
    let revoked = without(alloc, member.held.as_slice(), &kept)?;
    Ok(Share {
        worker: member.worker,
        kept: Listed::new(kept),
        fresh: Listed::new(fresh),
        revoked: Listed::new(revoked),
    })
}

// One list behind another.
fn joined(mut front: Vec<Item>, mut back: Vec<Item>) -> Result<Vec<Item>, AllocError>
    ensures { IfOk result (λ items. items.items ≡ front.items ++ back.items) }
{
    front.append(&mut back)?;
    Ok(front)
}

// Copies of what is held and not kept.
fn without(alloc: Global, held: &[Item], kept: &[Item]) -> Result<Vec<Item>, AllocError>
    ensures { IfOk result (λ items. items.items ≡ filter (λ x. not (has kept.now x)) held.now) }
{
    let set = ItemSet::of(alloc, kept)?;
    let mut items = Vec::new(alloc);
    for item in held {
        if !set.has(item) {
            items.push(item.copy()?)?;
        }
    }
    Ok(items)
}
