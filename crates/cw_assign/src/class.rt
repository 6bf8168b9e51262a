//! The hands of one class of items.
ghost use Rattle.std.specs.Prelude.{◌≡◌, ◌<◌, ◌&&◌, IfOk, length, map, take, ℕ, if◌then◌else◌};
ghost use Rattle.std.specs.List.{filter};
ghost use Rattle.cw_assign.specs.Items.{has, is_of, of_kind};
ghost use Rattle.cw_assign.specs.Quota.{quota};
ghost use Rattle.cw_assign.specs.Plan.{own, standing_of, kept_of, first_hand, is_free, hands_of};

use crate::items::{ItemSet, Kind};
use crate::seat::{Seat, give};
use crate::share::Holder;
use crate::standing::Standing;
use cw_types::Item;
use std::alloc::{AllocError, Global};

/// The items that are configured, held by some member, and lost.
#[derive(Drop)]
pub(crate) struct Known {
    pub(crate) configured: ItemSet,
    pub(crate) held: ItemSet,
    pub(crate) lost: ItemSet,
}

/// Deals one class: each member keeps what it may, and then each free item is given.
pub(crate) fn deal(
    alloc: Global,
    kind: Kind,
    members: &[Holder],
    configured: &[Item],
    known: &Known,
    running: bool,
) -> Result<Vec<Seat>, AllocError>
    requires { 0 < length members.now }
    ensures { IfOk result (λ seats. seats.items ≡ hands_of kind members.now configured.now
        (has known.now.configured) (has known.now.held) (has known.now.lost) running) }
{
    let mut seats = seated(alloc, kind, members, configured, &known.configured, running)?;
    for item in configured {
        if is_free(kind, known, running, item) {
            give(&mut seats, item.copy()?)?;
        }
    }
    Ok(seats)
}

// Whether an item is to be given.
fn is_free(kind: Kind, known: &Known, running: bool, item: &Item) -> bool
    ensures { result ≡ is_free kind (has known.now.held) (has known.now.lost) running item.now }
{
    kind.is_of(item) && !known.held.has(item) && !(running && known.lost.has(item))
}

// The members with what they keep.
fn seated(
    alloc: Global,
    kind: Kind,
    members: &[Holder],
    configured: &[Item],
    set: &ItemSet,
    running: bool,
) -> Result<Vec<Seat>, AllocError>
    requires { 0 < length members.now }
    ensures { IfOk result (λ seats. seats.items ≡
        map (first_hand kind members.now (length (of_kind kind configured.now)) (has set.now) running) members.now) }
{
    let total = count_of(kind, configured);
    let standings = standings_of(alloc, kind, members, set)?;
    let mut seats = Vec::new(alloc);
    for member in members {
        let own = standing_of(kind, member, set);
        let most = most_kept(running, &own, total, &standings);
        let kept = first_own(alloc, kind, member.held.as_slice(), set, most)?;
        seats.push(Seat::new(alloc, kept))?;
    }
    Ok(seats)
}

// How many items a member keeps.
fn most_kept(running: bool, own: &Standing, total: usize, standings: &[Standing]) -> usize
    requires { 0 < length standings.now }
    ensures { result ≡ (if running then own.now.load else quota total standings.now own.now) }
{
    if running {
        own.load
    } else {
        own.quota(total, standings)
    }
}

// How many items are of a class.
fn count_of(kind: Kind, items: &[Item]) -> usize
    ensures { result ≡ length (of_kind kind items.now) }
{
    items.iter().filter(|item| kind.is_of(item)).count()
}

// Where each member stands.
fn standings_of(
    alloc: Global,
    kind: Kind,
    members: &[Holder],
    set: &ItemSet,
) -> Result<Vec<Standing>, AllocError>
    ensures { IfOk result (λ standings. standings.items ≡ map (standing_of kind (has set.now)) members.now) }
{
    let mut standings = Vec::new(alloc);
    for member in members {
        standings.push(standing_of(kind, member, set))?;
    }
    Ok(standings)
}

// A member's number and load.
fn standing_of(kind: Kind, member: &Holder, set: &ItemSet) -> Standing
    ensures { result ≡ standing_of kind (has set.now) member.now }
{
    Standing {
        worker: member.worker,
        load: own_count(kind, member.held.as_slice(), set),
    }
}

// How many of the items are of a class and configured.
fn own_count(kind: Kind, held: &[Item], set: &ItemSet) -> usize
    ensures { result ≡ length (own kind (has set.now) held.now) }
{
    held.iter().filter(|item| is_own(kind, set, item)).count()
}

fn is_own(kind: Kind, set: &ItemSet, item: &Item) -> bool
    ensures { result ≡ (is_of kind item.now && has set.now item.now) }
{
    kind.is_of(item) && set.has(item)
}

// Copies of the first so many items that are configured and of a class.
fn first_own(
    alloc: Global,
    kind: Kind,
    held: &[Item],
    set: &ItemSet,
    most: usize,
) -> Result<Vec<Item>, AllocError>
    ensures { IfOk result (λ items. items.items ≡ take most (own kind (has set.now) held.now)) }
{
    let mut items = Vec::new(alloc);
    for item in held {
        if items.len() < most && is_own(kind, set, item) {
            items.push(item.copy()?)?;
        }
    }
    Ok(items)
}
