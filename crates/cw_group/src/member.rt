//! Members, in the order of their numbers.
ghost use Rattle.std.specs.Prelude.{◌≡◌, ◌<◌, ◌≤◌, ◌∷◌, [], ◌++◌, ℕ, None, Some, IfOk, IsOk, OnOk, OnErr, MatchOption};
ghost use Rattle.std.specs.Prelude.{length, map, remove, slice_index_or, slice_set, option_copied, not, false};
ghost use Rattle.std.specs.Prelude.{if◌then◌else◌};
ghost use Rattle.std.specs.List.{find};
ghost use Rattle.std.specs.Option.{option_map};
ghost use Rattle.cw_assign.specs.Items.{has, in_order};
ghost use Rattle.cw_group.specs.Phases.{is_open};

use crate::answers::Phase;
use cw_assign::{Holder, ItemSet, Share};
use cw_types::{Item, Listed};
use std::alloc::{AllocError, Global};

/// A member of a group.
#[derive(Debug, Drop)]
pub struct Member {
    /// Its worker.
    pub worker: u32,
    /// How many members had been made when it was, this one included.
    pub incarnation: u64,
    /// What it may run.
    pub claim: Listed<Item>,
    /// Whether it has joined the round.
    pub joined: bool,
    /// Its share of the last plan.
    pub share: Share,
}

impl Member {
    ghost use Rattle.cw_group.specs.Members.{new_member, joined_with, sharing};

    /// One that has just entered.
    pub(crate) fn new(alloc: Global, worker: u32, incarnation: u64) -> Member
        ensures { result ≡ new_member worker incarnation }
    {
        Member {
            worker,
            incarnation,
            claim: Listed::new(Vec::new(alloc)),
            joined: false,
            share: Share {
                worker,
                kept: Listed::new(Vec::new(alloc)),
                fresh: Listed::new(Vec::new(alloc)),
                revoked: Listed::new(Vec::new(alloc)),
            },
        }
    }

    /// Whether it has joined a round that is open.
    pub(crate) fn has_joined(&self, phase: Phase) -> bool
        ensures { result ≡ (if is_open phase then self.now.joined else false) }
    {
        if phase.is_open() {
            return self.joined;
        }
        false
    }

    /// It joins with what it holds.
    pub(crate) fn join(&mut self, held: Vec<Item>)
        ensures { self.new ≡ joined_with held.items self.old }
    {
        self.claim = Listed::new(held);
        self.joined = true;
    }

    /// What it may run, once it has departed.
    pub(crate) fn into_claim(self) -> Vec<Item>
        ensures { result.items ≡ self.claim }
    {
        let Member {
            worker: _,
            incarnation: _,
            claim,
            joined: _,
            share: _,
        } = self;
        claim.into_vec()
    }

    // A copy with its share of a plan.
    fn sharing(&self, alloc: Global, share: &Share) -> Result<Member, AllocError>
        ensures { IfOk result (λ member. member ≡ sharing self.now share.now) }
    {
        let mut claim = copies(alloc, self.claim.as_slice())?;
        let mut fresh = copies(alloc, share.fresh.as_slice())?;
        claim.append(&mut fresh)?;
        Ok(Member {
            worker: self.worker,
            incarnation: self.incarnation,
            claim: Listed::new(claim),
            joined: self.joined,
            share: copy_of(alloc, share)?,
        })
    }
}

fn copy_of(alloc: Global, share: &Share) -> Result<Share, AllocError>
    ensures { IfOk result (λ copy. copy ≡ share.now) }
{
    Ok(Share {
        worker: share.worker,
        kept: Listed::new(copies(alloc, share.kept.as_slice())?),
        fresh: Listed::new(copies(alloc, share.fresh.as_slice())?),
        revoked: Listed::new(copies(alloc, share.revoked.as_slice())?),
    })
}

ghost use Rattle.cw_group.specs.Members.{member_of, with_member, unjoined, with_shares, lowest_missing_in, holders_of};
ghost use Rattle.cw_group.specs.Members.{AreRising};
ghost use Rattle.cw_group.specs.Places.{IsPlace};

/// A worker's member.
pub(crate) fn member_at(members: &[Member], worker: u32) -> Option<&Member>
    requires { AreRising members.now }
    ensures { option_copied result ≡ member_of worker members.now }
{
    match place_of(members, worker) {
        Some(at) => Some(&members[at]),
        None => None,
    }
}

/// The place of a worker's member.
pub(crate) fn place_of(members: &[Member], worker: u32) -> Option<usize>
    requires { AreRising members.now }
    ensures { MatchOption result (member_of worker members.now ≡ None) (IsPlace worker members.now) }
{
    let at = first_from(members, worker);
    if at == members.len() {
        return None;
    }
    if members[at].worker == worker {
        return Some(at);
    }
    None
}

// The place of the first member that isn't below a worker.
fn first_from(members: &[Member], worker: u32) -> usize
    requires { AreRising members.now }
    ensures within { result ≤ length members.now }
    ensures below { (k : ℕ) (d : Member) → k < result → (slice_index_or members.now k d).worker < worker }
    ensures from { (k : ℕ) (d : Member) → result ≤ k → k < length members.now →
        worker ≤ (slice_index_or members.now k d).worker }
{
    let mut low = 0;
    let mut high = members.len();
    while low < high {
        let middle = low + (high - low) / 2;
        if members[middle].worker < worker {
            low = middle + 1;
        } else {
            high = middle;
        }
    }
    low
}

/// Puts a member to its place, in place of the one with its number.
pub(crate) fn put(members: &mut Vec<Member>, member: Member) -> Result<(), AllocError>
    requires { AreRising members.old.items }
    ensures ok { OnOk result (members.new.items ≡ with_member member members.old.items) }
    ensures err { OnErr result (members.new.items ≡ members.old.items) }
{
    match place_of(members, member.worker) {
        Some(at) => {
            members[at] = member;
            Ok(())
        }
        None => insert(members, member),
    }
}

// Puts a member between the others.
fn insert(members: &mut Vec<Member>, member: Member) -> Result<(), AllocError>
    requires rising { AreRising members.old.items }
    requires new { member_of member.worker members.old.items ≡ None }
    ensures ok { OnOk result (members.new.items ≡ with_member member members.old.items) }
    ensures err { OnErr result (members.new.items ≡ members.old.items) }
{
    let at = first_from(members, member.worker);
    members.insert(at, member)?;
    Ok(())
}

/// A round opens: nobody has joined it.
pub(crate) fn unjoin(members: &mut [Member])
    ensures { members.new ≡ map unjoined members.old }
{
    for at in 0..members.len() {
        members[at].joined = false;
    }
}

/// The lowest member that hasn't joined.
pub(crate) fn lowest_missing(members: &[Member]) -> Option<u32>
    ensures { result ≡ lowest_missing_in members.now }
{
    for member in members {
        if !member.joined {
            return Some(member.worker);
        }
    }
    None
}

/// The members with their claims.
pub(crate) fn holders(alloc: Global, members: &[Member]) -> Result<Vec<Holder>, AllocError>
    ensures { IfOk result (λ holders. holders.items ≡ holders_of members.now) }
{
    let mut holders = Vec::new(alloc);
    for member in members {
        holders.push(Holder {
            worker: member.worker,
            held: Listed::new(copies(alloc, member.claim.as_slice())?),
        })?;
    }
    Ok(holders)
}

/// A copy of each item.
pub(crate) fn copies(alloc: Global, items: &[Item]) -> Result<Vec<Item>, AllocError>
    ensures items { IfOk result (λ copies. copies.items ≡ items.now) }
    ensures nothing { items.now ≡ [] → IsOk result }
{
    let mut copies = Vec::new(alloc);
    for item in items {
        copies.push(item.copy()?)?;
    }
    Ok(copies)
}

/// A copy of the first item that isn't in a claim.
pub(crate) fn first_unclaimed(
    alloc: Global,
    claim: &[Item],
    held: &[Item],
) -> Result<Option<Item>, AllocError>
    ensures first { IfOk result (λ item. item ≡ find (λ x. not (has claim.now x)) held.now) }
    ensures nothing { held.now ≡ [] → IsOk result }
{
    if held.is_empty() {
        return Ok(None);
    }
    let set = ItemSet::of(alloc, claim)?;
    for item in held {
        if !set.has(item) {
            return Ok(Some(item.copy()?));
        }
    }
    Ok(None)
}

/// Copies of the members, each with its share of a plan.
pub(crate) fn with_shares(
    alloc: Global,
    members: &[Member],
    shares: &[Share],
) -> Result<Vec<Member>, AllocError>
    requires { length shares.now ≡ length members.now }
    ensures { IfOk result (λ shared. shared.items ≡ with_shares members.now shares.now) }
{
    let mut shared = Vec::new(alloc);
    for at in 0..members.len() {
        shared.push(members[at].sharing(alloc, &shares[at])?)?;
    }
    Ok(shared)
}

/// What a member is to run, in item order.
pub(crate) fn assigned(alloc: Global, share: &Share) -> Result<Vec<Item>, AllocError>
    ensures { IfOk result (λ items. items.items ≡ in_order (share.now.kept ++ share.now.fresh)) }
{
    let mut set = ItemSet::of(alloc, share.kept.as_slice())?;
    set.add(share.fresh.as_slice())?;
    set.into_items(alloc)
}
