//! The group, what departed members held, and the time.
ghost use Rattle.std.specs.Prelude.{◌≡◌, ◌≢◌, ◌<◌, ◌≤◌, ◌+◌, ◌++◌, ◌∷◌, [], ℕ, length, max, Ok, Err, IfOk, OnErr};
ghost use Rattle.std.specs.Prelude.{MatchResult, OnOk, if◌then◌else◌, vec_len, vec_capacity};
ghost use Rattle.std.specs.List.{flat_map, IsDistinct};
ghost use Rattle.std.specs.List.Sorted.{IsStrictlySortedBy};
ghost use Rattle.cw_types.specs.declared.ids.Item.{Item};
ghost use Rattle.cw_types.specs.Order.{item_cmp};
ghost use Rattle.cw_assign.specs.Items.{same_item};
ghost use Rattle.cw_group.specs.Group.{enters, join_row, expire_row, close_row, store_row, MayStore};
ghost use Rattle.cw_group.specs.Circle.{is_due, is_running, delay_behind};

use crate::answers::GroupFault;
use crate::group::Group;
use cw_assign::{Delay, Plan, plan};
use cw_types::{Item, Listed};
use std::alloc::{AllocError, Global};
use std::marker::Model;

/// The group, what departed members held, and the time. Each member has a place among the lost ones for its claim, so
/// that it departs without memory.
#[derive(Drop)]
pub struct Circle {
    group: Group,
    lost: Vec<Listed<Item>>,
    delay: Delay,
    moment: u64,
}

impl Model for Circle {
    ghost use Rattle.std.specs.Prelude.{◌≤◌, ◌+◌, length, vec_len, vec_capacity};
    ghost use Rattle.std.specs.List.{flat_map};
    ghost use Rattle.cw_group.specs.Circle.{CircleState};

    ghost Value = { CircleState };

    ghost view = { λ c. record {
      group = c.group;
      lost = flat_map (λ items. items) c.lost.items;
      delay = c.delay;
      moment = c.moment;
    } };

    ghost invariant = { λ c. vec_len c.lost + length c.group.members ≤ vec_capacity c.lost };
}

impl Circle {
    ghost use Rattle.cw_group.specs.Circle.{empty_circle, with_group, freed, without_due, plan_in, Departs, StoresPlan};

    /// With no member.
    pub fn new(alloc: Global) -> Circle
        ensures { result ≡ empty_circle }
    {
        Circle {
            group: Group::new(alloc),
            lost: Vec::new(alloc),
            delay: Delay::Idle,
            moment: 0,
        }
    }

    /// The group.
    pub fn group(&self) -> &Group
        ensures { result.now ≡ self.now.group }
    {
        &self.group
    }

    /// The delay behind the loss of members.
    pub fn delay(&self) -> Delay
        ensures { result ≡ self.now.delay }
    {
        self.delay
    }

    /// The time in milliseconds.
    pub fn moment(&self) -> u64
        ensures { result ≡ self.now.moment }
    {
        self.moment
    }

    /// The time goes on to a moment, and never back.
    pub fn go_on(&mut self, to: u64)
        ensures { self.new ≡ record self.old { moment = max self.old.moment to } }
    {
        self.moment = self.moment.max(to);
    }

    /// A worker enters the group, and a place is made for what it might run.
    pub fn enter(&mut self, w: u32) -> Result<(), GroupFault>
        ensures ok { IfOk result (λ _. self.new ≡ with_group (enters w self.old.group) self.old) }
        ensures err { OnErr result (self.new ≡ self.old) }
        ensures memory { (fault : GroupFault) → result ≡ Err fault → fault ≡ GroupFault.Memory }
    {
        let places = self.group.members().len() + 1;
        self.lost.reserve(places)?;
        self.group.enter(w)?;
        Ok(())
    }

    /// A member joins the round and says what it holds. The answer is the round.
    pub fn join(&mut self, w: u32, incarnation: u64, held: &[Item]) -> Result<u64, GroupFault>
        requires { IsDistinct same_item held.now }
        ensures row { MatchResult result
            (λ round. join_row w incarnation held.now self.old.group ≡ Ok (round, self.new.group))
            (λ fault. (self.new.group ≡ self.old.group) ×
            (fault ≢ GroupFault.Memory → join_row w incarnation held.now self.old.group ≡ Err fault)) }
        ensures nothing { held.now ≡ [] → result ≢ Err GroupFault.Memory }
        ensures rest { self.new ≡ with_group self.new.group self.old }
    {
        self.group.join(w, incarnation, held)
    }

    /// Closes the round in which all members have joined.
    pub fn close_round(&mut self, w: u32) -> Result<(), GroupFault>
        ensures row { MatchResult result (λ _. close_row w self.old.group.round self.old.group ≡ Ok self.new.group)
            (λ fault. (self.new.group ≡ self.old.group) ×
            (close_row w self.old.group.round self.old.group ≡ Err fault)) }
        ensures rest { self.new ≡ with_group self.new.group self.old }
    {
        let round = self.group.round();
        self.group.close_round(w, round)
    }

    /// A member departs, and what it might run is lost. It takes no memory.
    pub fn expire(&mut self, w: u32, scheduled: u64) -> Result<(), GroupFault>
        ensures { MatchResult result (λ _. Departs scheduled w self.old self.new)
            (λ fault. (self.new ≡ self.old) × (expire_row w self.old.group ≡ Err fault)) }
    {
        match self.group.expire(w) {
            Ok(claim) => {
                self.delay = delay_behind(scheduled, self.moment, claim.as_slice(), self.delay);
                put_made(&mut self.lost, Listed::new(claim));
                Ok(())
            }
            Err(fault) => Err(fault),
        }
    }

    /// The leader plans for the configured items, and each member gets its share. A delay that has run out ends.
    pub fn store_plan(
        &mut self,
        alloc: Global,
        w: u32,
        configured: &[Item],
    ) -> Result<(), GroupFault>
        requires { IsStrictlySortedBy item_cmp configured.now }
        ensures { MatchResult result (λ _. StoresPlan w configured.now self.old self.new)
            (λ fault. (self.new ≡ self.old) × (fault ≢ GroupFault.Memory →
            store_row w self.old.group.round (plan_in configured.now (without_due self.old)).shares configured.now
            self.old.group ≡ Err fault)) }
    {
        if self.group.members().is_empty() {
            return Err(GroupFault::Unknown);
        }
        let due = is_due(self.delay, self.moment);
        let plan = self.plan(alloc, configured, due)?;
        self.store(w, &plan, configured)?;
        self.free_if(due);
        Ok(())
    }

    // The plan for the members, once a delay that is due has ended.
    fn plan(&self, alloc: Global, configured: &[Item], due: bool) -> Result<Plan, AllocError>
        requires some { 0 < length self.now.group.members }
        requires rising { IsStrictlySortedBy item_cmp configured.now }
        ensures plan { IfOk result (λ plan.
            plan ≡ plan_in configured.now (if due then freed self.now else self.now)) }
        ensures may { IfOk result (λ plan. MayStore self.now.group.members configured.now plan) }
    {
        let holders = self.group.holders()?;
        if due {
            return plan(alloc, holders.as_slice(), configured, &[], false);
        }
        let lost = self.lost_items(alloc)?;
        plan(
            alloc,
            holders.as_slice(),
            configured,
            lost.as_slice(),
            is_running(self.delay),
        )
    }

    // Stores a plan that may be stored.
    fn store(&mut self, w: u32, plan: &Plan, configured: &[Item]) -> Result<(), GroupFault>
        requires { MayStore self.old.group.members configured.now plan.now }
        ensures row { MatchResult result
            (λ _. store_row w self.old.group.round plan.now.shares configured.now self.old.group ≡ Ok self.new.group)
            (λ fault. (self.new.group ≡ self.old.group) × (fault ≢ GroupFault.Memory →
            store_row w self.old.group.round plan.now.shares configured.now self.old.group ≡ Err fault)) }
        ensures rest { self.new ≡ with_group self.new.group self.old }
    {
        let round = self.group.round();
        self.group.store_plan(w, round, plan, configured)
    }

    // A delay that is due ends, and what was lost is free.
    fn free_if(&mut self, due: bool)
        ensures { self.new ≡ (if due then freed self.old else self.old) }
    {
        if due {
            self.lost.clear();
            self.delay = Delay::Idle;
        }
    }

    // What was lost.
    fn lost_items(&self, alloc: Global) -> Result<Vec<Item>, AllocError>
        ensures { IfOk result (λ items. items.items ≡ self.now.lost) }
    {
        joined(alloc, self.lost.as_slice())
    }
}

// Copies of the items of each list.
fn joined(alloc: Global, lists: &[Listed<Item>]) -> Result<Vec<Item>, AllocError>
    ensures { IfOk result (λ items. items.items ≡ flat_map (λ items. items) lists.now) }
{
    let mut items = Vec::new(alloc);
    for list in lists {
        push_copies(&mut items, list.as_slice())?;
    }
    Ok(items)
}

// Copies of some items behind others.
fn push_copies(items: &mut Vec<Item>, more: &[Item]) -> Result<(), AllocError>
    ensures { OnOk result (items.new.items ≡ items.old.items ++ more.now) }
{
    for item in more {
        items.push(item.copy()?)?;
    }
    Ok(())
}

// Whether a delay has run out.
fn is_due(delay: Delay, moment: u64) -> bool
    ensures { result ≡ is_due moment delay }
{
    match delay {
        Delay::Idle => false,
        Delay::Until(at) => at <= moment,
    }
}

// Whether a delay runs.
fn is_running(delay: Delay) -> bool
    ensures { result ≡ is_running delay }
{
    match delay {
        Delay::Idle => false,
        Delay::Until(_) => true,
    }
}

// The delay behind the loss of a claim: it begins where it didn't run and something is lost.
fn delay_behind(scheduled: u64, moment: u64, claim: &[Item], running: Delay) -> Delay
    ensures { result ≡ delay_behind scheduled moment claim.now running }
{
    if claim.is_empty() {
        return running;
    }
    match running {
        Delay::Idle => Delay::started(moment, scheduled),
        Delay::Until(at) => Delay::Until(at),
    }
}

// Puts a claim in the place that was made for it.
fn put_made(lost: &mut Vec<Listed<Item>>, claim: Listed<Item>)
    requires { vec_len lost.old < vec_capacity lost.old }
    ensures items { lost.new.items ≡ lost.old.items ++ claim ∷ [] }
    ensures len { vec_len lost.new ≡ vec_len lost.old + 1 }
    ensures capacity { vec_capacity lost.old ≤ vec_capacity lost.new }
{
    if lost.push(claim).is_err() {
        unreachable!();
    }
}
