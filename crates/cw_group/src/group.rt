//! The group.
ghost use Rattle.std.specs.Prelude.{◌≡◌, ◌≢◌, ◌<◌, ◌≤◌, ◌+◌, ℕ, List, [], Some, None, Ok, Err, IfOk, IsOk, OnOk, OnErr};
ghost use Rattle.std.specs.Prelude.{MatchResult, MatchOption, option_copied, false, is_some, length, slice_index_or};
ghost use Rattle.std.specs.List.{IsDistinct};
ghost use Rattle.std.specs.Option.{option_map, option_map_or};
ghost use Rattle.cw_assign.specs.Items.{same_item};
ghost use Rattle.cw_assign.specs.Plan.{held_by};
ghost use Rattle.cw_group.specs.declared.member.Member.{Member};

use crate::answers::{GroupFault, Phase, Synced};
use crate::member::{
    Member, assigned, copies, first_unclaimed, holders, lowest_missing, member_at, place_of, put,
    unjoin, with_shares,
};
use cw_assign::{Holder, Plan};
use cw_types::{Item, Listed};
use std::alloc::{AllocError, Global};
use std::marker::Model;

/// A group of workers (Kafka's group membership; rounds as in KIP-415).
/// No item is in the claims of two members.
#[derive(Drop)]
pub struct Group {
    alloc: Global,
    round: u64,
    phase: Phase,
    made: u64,
    members: Vec<Member>,
    planned: Vec<Item>,
}

impl Model for Group {
    ghost use Rattle.cw_group.specs.Group.{GroupState};

    ghost Value = { GroupState };

    ghost use Rattle.cw_group.specs.Places.{IsGroup};

    ghost view = { λ g.
        record {
          round = g.round;
          phase = g.phase;
          made = g.made;
          members = g.members.items;
          planned = g.planned.items;
        } };

    ghost invariant = { λ g. IsGroup g.members.items };
}

impl Group {
    ghost use Rattle.cw_group.specs.Members.{member_of, lowest_in, lowest_missing_in, holders_of, AreRising, AreApart};
    ghost use Rattle.cw_group.specs.Members.{HaveNoRepeat};
    ghost use Rattle.cw_group.specs.Group.{GroupState, empty_group, next, enters, Does, join_row, expire_row};
    ghost use Rattle.cw_group.specs.Group.{close_row, store_row, sync_row, MayStore, join_refusal, store_refusal};
    ghost use Rattle.cw_group.specs.Places.{IsPlace};

    /// With no member, in round 0, which is planned.
    pub fn new(alloc: Global) -> Group
        ensures { result ≡ empty_group }
    {
        Group {
            alloc,
            round: 0,
            phase: Phase::Planned,
            made: 0,
            members: Vec::new(alloc),
            planned: Vec::new(alloc),
        }
    }

    /// A worker enters as a new member, in place of an earlier one of its own. It has an empty claim and
    /// has not joined. The answer is its incarnation, the number of members made so far.
    pub fn enter(&mut self, worker: u32) -> Result<u64, GroupFault>
        ensures ok { IfOk result (λ incarnation.
            (incarnation ≡ next self.old.made) × (self.new ≡ enters worker self.old)) }
        ensures err { OnErr result (self.new ≡ self.old) }
        ensures memory { (fault : GroupFault) → result ≡ Err fault → fault ≡ GroupFault.Memory }
        ensures count { length self.new.members ≤ length self.old.members + 1 }
    {
        let incarnation = self.made.saturating_add(1);
        let member = Member::new(self.alloc, worker, incarnation);
        put(&mut self.members, member)?;
        self.made = incarnation;
        Ok(incarnation)
    }

    /// What a member may run; None where the worker is no member.
    pub fn claim(&self, worker: u32) -> Option<&[Item]>
        ensures { option_map (λ claim. claim.now) result ≡
            option_map (λ m. m.claim) (member_of worker self.now.members) }
    {
        let member = member_at(&self.members, worker)?;
        Some(member.claim.as_slice())
    }

    /// The round's number.
    pub fn round(&self) -> u64
        ensures { result ≡ self.now.round }
    {
        self.round
    }

    /// Where the round stands.
    pub fn phase(&self) -> Phase
        ensures { result ≡ self.now.phase }
    {
        self.phase
    }

    /// A member's incarnation; None where the worker is no member.
    pub fn incarnation(&self, worker: u32) -> Option<u64>
        ensures { result ≡ option_map (λ m. m.incarnation) (member_of worker self.now.members) }
    {
        let member = member_at(&self.members, worker)?;
        Some(member.incarnation)
    }

    /// Whether a worker is a member that has joined the round.
    pub fn has_joined(&self, worker: u32) -> bool
        ensures { result ≡ option_map_or (λ m. m.joined) (member_of worker self.now.members) false }
    {
        match member_at(&self.members, worker) {
            Some(member) => member.joined,
            None => false,
        }
    }

    /// The lowest member, which leads.
    pub fn lowest(&self) -> Option<u32>
        ensures { result ≡ lowest_in self.now.members }
    {
        match self.members.first() {
            Some(member) => Some(member.worker),
            None => None,
        }
    }

    /// The lowest member that hasn't joined.
    pub fn lowest_missing(&self) -> Option<u32>
        ensures { result ≡ lowest_missing_in self.now.members }
    {
        lowest_missing(&self.members)
    }

    /// The items of the last plan.
    pub fn planned(&self) -> &[Item]
        ensures { result.now ≡ self.now.planned }
    {
        self.planned.as_slice()
    }

    /// The members, in the order of their numbers. Their claims are disjoint, and none has an item twice.
    pub fn members(&self) -> &[Member]
        ensures value { result.now ≡ self.now.members }
        ensures rising { AreRising self.now.members }
        ensures apart { AreApart self.now.members }
        ensures no_repeat { HaveNoRepeat self.now.members }
    {
        self.members.as_slice()
    }

    /// The members with their claims, as a plan takes them: nothing is held twice.
    pub fn holders(&self) -> Result<Vec<Holder>, AllocError>
        ensures holders { IfOk result (λ holders. holders.items ≡ holders_of self.now.members) }
        ensures apart { IfOk result (λ holders. IsDistinct same_item (held_by holders.items)) }
    {
        holders(self.alloc, &self.members)
    }

    /// A member joins the round and says what it holds, each item once, which becomes its claim; a round that
    /// isn't open gives way to the next one. The answer is the round. One that holds nothing joins without memory.
    pub fn join(&mut self, worker: u32, incarnation: u64, held: &[Item]) -> Result<u64, GroupFault>
        requires { IsDistinct same_item held.now }
        ensures row { Does (join_row worker incarnation held.now self.old) self.old self.new result }
        ensures nothing { held.now ≡ [] → result ≢ Err GroupFault.Memory }
        ensures count { length self.new.members ≡ length self.old.members }
    {
        let at = self.joining(worker, incarnation, held)?;
        let claim = copies(self.alloc, held)?;
        open(&mut self.round, &mut self.phase, &mut self.members);
        self.members[at].join(claim);
        Ok(self.round)
    }

    // The place of a member that may join with these items.
    fn joining(&self, worker: u32, incarnation: u64, held: &[Item]) -> Result<usize, GroupFault>
        ensures place { MatchResult result
            (λ at. IsPlace worker self.now.members at
            × ((d : Member) →
            join_refusal incarnation held.now self.now.phase (slice_index_or self.now.members at d) ≡ None))
            (λ fault. fault ≢ GroupFault.Memory → join_row worker incarnation held.now self.now ≡ Err fault) }
        ensures nothing { held.now ≡ [] → result ≢ Err GroupFault.Memory }
    {
        let Some(at) = place_of(&self.members, worker) else {
            return Err(GroupFault::Unknown);
        };
        let member = &self.members[at];
        if member.incarnation != incarnation {
            return Err(GroupFault::Unknown);
        }
        if member.has_joined(self.phase) {
            return Err(GroupFault::AlreadyJoined);
        }
        match first_unclaimed(self.alloc, member.claim.as_slice(), held)? {
            Some(item) => Err(GroupFault::NotClaimed(item)),
            None => Ok(at),
        }
    }

    /// A member departs, as one that was silent for too long, and a round that isn't open gives way to the
    /// next one. The answer is what it was allowed to run. It takes no memory.
    pub fn expire(&mut self, worker: u32) -> Result<Vec<Item>, GroupFault>
        ensures row { MatchResult result (λ claim. expire_row worker self.old ≡ Ok (claim.items, self.new))
            (λ fault. (self.new ≡ self.old) × (expire_row worker self.old ≡ Err fault)) }
        ensures count { OnOk result (length self.new.members + 1 ≡ length self.old.members) }
    {
        let Some(at) = place_of(&self.members, worker) else {
            return Err(GroupFault::Unknown);
        };
        let member = self.members.remove(at);
        open(&mut self.round, &mut self.phase, &mut self.members);
        Ok(member.into_claim())
    }

    /// Closes a round in which all members have joined. It takes no memory.
    pub fn close_round(&mut self, worker: u32, round: u64) -> Result<(), GroupFault>
        ensures row { MatchResult result (λ _. close_row worker round self.old ≡ Ok self.new)
            (λ fault. (self.new ≡ self.old) × (close_row worker round self.old ≡ Err fault)) }
        ensures count { length self.new.members ≡ length self.old.members }
    {
        let Some(_) = member_at(&self.members, worker) else {
            return Err(GroupFault::Unknown);
        };
        if !self.phase.is_open() {
            return Err(self.old_generation());
        }
        if self.round != round {
            return Err(self.old_generation());
        }
        if let Some(missing) = lowest_missing(&self.members) {
            return Err(GroupFault::Missing(missing));
        }
        self.phase = Phase::Closed;
        Ok(())
    }

    /// The leader stores its plan: each member may run what it is newly given, too, and may ask for its
    /// share.
    pub fn store_plan(
        &mut self,
        worker: u32,
        round: u64,
        plan: &Plan,
        planned: &[Item],
    ) -> Result<(), GroupFault>
        requires { IsOk (store_row worker round plan.now.shares planned.now self.old) →
            MayStore self.old.members planned.now plan.now }
        ensures row { MatchResult result
            (λ _. store_row worker round plan.now.shares planned.now self.old ≡ Ok self.new)
            (λ fault. (self.new ≡ self.old) × (fault ≢ GroupFault.Memory →
            store_row worker round plan.now.shares planned.now self.old ≡ Err fault)) }
        ensures count { length self.new.members ≡ length self.old.members }
    {
        self.storing(worker, round)?;
        let planned = copies(self.alloc, planned)?;
        let members = with_shares(self.alloc, &self.members, plan.shares.as_slice())?;
        self.members = members;
        self.planned = planned;
        self.phase = Phase::Planned;
        Ok(())
    }

    fn old_generation(&self) -> GroupFault
        ensures { result ≡ GroupFault.OldGeneration self.now.round }
    {
        GroupFault::OldGeneration {
            current: self.round,
        }
    }

    // Whether a plan may be stored by this member.
    fn storing(&self, worker: u32, round: u64) -> Result<(), GroupFault>
        ensures { MatchResult result
            (λ _. ((m : Member) × (member_of worker self.now.members ≡ Some m))
            × (store_refusal worker round self.now ≡ None))
            (λ fault. (fault ≢ GroupFault.Memory) × ((shares : List Share) (planned : List Item) →
            store_row worker round shares planned self.now ≡ Err fault)) }
    {
        let Some(_) = member_at(&self.members, worker) else {
            return Err(GroupFault::Unknown);
        };
        if !self.phase.is_closed() {
            return Err(self.old_generation());
        }
        if self.round != round {
            return Err(self.old_generation());
        }
        if self.lowest().unwrap_or(worker) != worker {
            return Err(GroupFault::NotLeader);
        }
        Ok(())
    }

    /// What the plan of a round says to a member.
    pub fn sync(&self, worker: u32, round: u64) -> Result<Synced, GroupFault>
        ensures { MatchResult result (λ told. sync_row worker round self.now ≡ Ok told)
            (λ fault. fault ≢ GroupFault.Memory → sync_row worker round self.now ≡ Err fault) }
    {
        let Some(member) = member_at(&self.members, worker) else {
            return Err(GroupFault::Unknown);
        };
        if self.round != round {
            return Err(self.old_generation());
        }
        if self.phase.is_open() {
            return Err(self.old_generation());
        }
        if self.phase.is_closed() {
            return Err(GroupFault::NoPlan);
        }
        let share = &member.share;
        Ok(Synced {
            round: self.round,
            leader: self.lowest().unwrap_or(worker),
            assigned: Listed::new(assigned(self.alloc, share)?),
            revoked: Listed::new(copies(self.alloc, share.revoked.as_slice())?),
        })
    }
}

ghost use Rattle.std.specs.Prelude.{map, if◌then◌else◌};
ghost use Rattle.cw_assign.specs.declared.share.Share.{Share};
ghost use Rattle.cw_types.specs.declared.ids.Item.{Item};
ghost use Rattle.cw_group.specs.Members.{unjoined};
ghost use Rattle.cw_group.specs.Group.{next};
ghost use Rattle.cw_group.specs.Phases.{is_open};

// Opens a round where it isn't open: the next one, in which nobody has joined.
fn open(round: &mut u64, phase: &mut Phase, members: &mut Vec<Member>)
    ensures round { round.new ≡ (if is_open phase.old then round.old else next round.old) }
    ensures phase { phase.new ≡ Phase.Open }
    ensures members { members.new.items ≡
        (if is_open phase.old then members.old.items else map unjoined members.old.items) }
{
    if phase.is_open() {
        return;
    }
    *round = round.saturating_add(1);
    *phase = Phase::Open;
    unjoin(members);
}
