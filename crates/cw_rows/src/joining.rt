//! Workers join the group, and the group lets members go (KIP-415).
ghost use Rattle.std.specs.Prelude.{◌≡◌, ◌≢◌, ◌<◌, [], length, Ok, Err, OnOk, OnErr};
ghost use Rattle.std.specs.List.{IsDistinct};
ghost use Rattle.cw_assign.specs.Items.{same_item};
ghost use Rattle.cw_model.specs.EventsGroups.{join, MayJoin, incarnation_in};
ghost use Rattle.cw_model.specs.EventsWorkers.{expire};
ghost use Rattle.cw_model.specs.Lookups.{is_member};
ghost use Rattle.cw_model.specs.declared.fault.WorldFault.TheVariants as fault;
ghost use Rattle.cw_rows.specs.Kept.{Is, IsOrWants, HasSameLogs};
ghost use Rattle.cw_rows.specs.Joining.{with_entered, joins_group};

use crate::cluster::Cluster;
use cw_group::GroupFault;
use cw_model::WorldFault;
use cw_types::Item;

impl Cluster {
    /// A worker joins, and may run what it holds; where it is no member it enters first. The answer is the round.
    pub fn join(&mut self, w: u32) -> Result<u64, WorldFault>
        requires there { w < length self.old.state.rows }
        requires may { MayJoin w self.old.state }
        ensures { IsOrWants (join w) self.old self.new result }
    {
        self.test_worker(w)?;
        let Ok(held) = self.crew.held(w) else {
            return Err(WorldFault::Memory);
        };
        self.enter(w)?;
        self.join_group(w, held)
    }

    // A worker enters the group where it is no member.
    fn enter(&mut self, w: u32) -> Result<(), WorldFault>
        requires { w < length self.old.state.rows }
        ensures ok { OnOk result (self.new.state ≡ with_entered w self.old.state) }
        ensures err { OnErr result (self.new.state ≡ self.old.state) }
        ensures memory { (failed : WorldFault) → result ≡ Err failed → failed ≡ fault.Memory }
        ensures setting { self.new.setting ≡ self.old.setting }
    {
        if self.is_member(w) {
            return Ok(());
        }
        match self.circle.enter(w) {
            Ok(()) => Ok(()),
            Err(_) => Err(WorldFault::Memory),
        }
    }

    // A member joins, and may run these items; one without any wants no memory.
    fn join_group(&mut self, w: u32, held: Vec<Item>) -> Result<u64, WorldFault>
        requires there { w < length self.old.state.rows }
        requires once { IsDistinct same_item held.items }
        ensures row { IsOrWants (joins_group w held.items) self.old self.new result }
        ensures nothing { held.items ≡ [] → result ≢ Err fault.Memory }
    {
        let incarnation = self.incarnation(w);
        match self.circle.join(w, incarnation, held.as_slice()) {
            Ok(round) => {
                let incarnation = self.incarnation(w);
                self.crew.join(w, incarnation, held);
                Ok(round)
            }
            Err(GroupFault::Memory) => Err(WorldFault::Memory),
            Err(fault) => Err(WorldFault::Group(fault)),
        }
    }

    /// The group lets a member go: what it might run waits through the scheduled delay.
    pub fn expire(&mut self, w: u32) -> Result<(), WorldFault>
        ensures { Is (expire self.old.setting w) self.old self.new result }
    {
        self.test_open()?;
        match self.circle.expire(w, self.scheduled) {
            Ok(()) => Ok(()),
            Err(fault) => Err(WorldFault::Group(fault)),
        }
    }

    /// Whether the group knows a worker as the member as which it entered last.
    pub fn is_member(&self, w: u32) -> bool
        requires { w < length self.now.state.rows }
        ensures { result ≡ is_member w self.now.state }
    {
        let Some(own) = self.crew.row(w).incarnation else {
            return false;
        };
        match self.circle.group().incarnation(w) {
            Some(known) => known == own,
            None => false,
        }
    }

    // As which member the group has a worker.
    fn incarnation(&self, w: u32) -> u64
        ensures { result ≡ incarnation_in w self.now.state.group }
    {
        self.circle.group().incarnation(w).unwrap_or(0)
    }
}
