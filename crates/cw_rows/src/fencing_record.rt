//! The leader writes that the producers of a connector's older tasks are fenced, so that its new tasks may start
//! (KIP-618).
ghost use Rattle.std.specs.Prelude.{◌≡◌, ◌≢◌, ◌<◌, ◌≤◌, ℕ, length, true, Ok, Err, None, IfOk, OnOk, MatchResult};
ghost use Rattle.cw_config.specs.Compaction.{AreAccepted};
ghost use Rattle.cw_config.specs.View.{task_count_of};
ghost use Rattle.cw_types.specs.declared.logs.LogName.TheVariants as log;
ghost use Rattle.cw_model.specs.Bodies.{config_body, frame_of, has_room};
ghost use Rattle.cw_model.specs.EventsLeading.{append_fence, fence_record};
ghost use Rattle.cw_model.specs.Lookups.{seen};
ghost use Rattle.cw_model.specs.Updates.{stamped};
ghost use Rattle.cw_topics.specs.Configs.{have_offsets};
ghost use Rattle.cw_rows.specs.Configs.{HaveRead, newest_test, same_test};
ghost use Rattle.cw_rows.specs.Tests.{leader_test};
ghost use Rattle.cw_rows.specs.Writes.{bytes_in, Readies, Refuses, Puts};

use crate::cluster::Cluster;
use cw_keys::{ConfigKey, ConfigValue};
use cw_model::WorldFault;
use cw_topics::ConfigFrame;
use cw_types::Name;
use std::alloc::{AllocError, Global};

impl Cluster {
    /// Tests whether a worker may write as the leader, and whether no newer task set was committed than the one before
    /// which it has fenced; and takes the memory of the record. While writing hasn't ended, the log has so many bytes.
    pub fn ready_append_fence(
        &mut self,
        w: u32,
        name: &Name,
        size: u64,
    ) -> Result<ConfigFrame, WorldFault>
        requires there { w < length self.old.state.rows }
        requires size { self.old.state.closed ≡ None → size ≡ bytes_in log.Config self.old.state }
        ensures due { MatchResult result
            (λ frame. Readies log.Config (append_fence w name.now) (config_body frame) self.old self.new)
            (λ fault. Refuses (append_fence w name.now) fault self.old self.new) }
        ensures passed { OnOk result (leader_test w self.old.state ≡ Ok tt) }
        ensures newest { OnOk result (newest_test w name.now self.old.state ≡ Ok tt) }
        ensures frame { IfOk result (λ frame. frame ≡
            stamped (fence_record name.now (task_count_of name.now (seen w self.old.state))) self.old.state) }
        ensures offsets { IfOk result (λ frame. have_offsets frame ≡ true) }
        ensures ready { IfOk result (λ frame. self.new.ready_configs ≡ frame) }
    {
        self.test_leader(w)?;
        self.test_newest(w, name)?;
        let Ok(values) = fence_record(self.alloc, name, self.config_of(w).task_count(name)) else {
            return Err(WorldFault::Memory);
        };
        let frame = self.ready_configs(values.as_slice(), size)?;
        Ok(frame)
    }

    /// Puts in the record that a connector's older tasks are fenced, which stands in the config log: the worker fences
    /// nobody any more, and the answer is the record's offset.
    pub fn put_append_fence(&mut self, w: u32, name: &Name, frame: ConfigFrame) -> u64
        requires there { w < length self.old.state.rows }
        requires passed { leader_test w self.old.state ≡ Ok tt }
        requires newest { newest_test w name.now self.old.state ≡ Ok tt }
        requires read { HaveRead self.old.state }
        requires frame { frame ≡
            stamped (fence_record name.now (task_count_of name.now (seen w self.old.state))) self.old.state }
        requires accepted { AreAccepted self.old.state.configs frame }
        requires offsets { have_offsets frame ≡ true }
        requires ready { self.old.ready_configs ≡ frame }
        requires room { has_room (bytes_in log.Config self.old.state) (frame_of (config_body frame)) ≡ true }
        ensures { Puts (append_fence w name.now) result self.old self.new }
    {
        let first = frame.first();
        self.topics.put_configs(frame);
        self.crew.end_fencing(w);
        first
    }

    // Refuses where a newer task set was committed than the one before which the worker fences.
    fn test_newest(&self, w: u32, name: &Name) -> Result<(), WorldFault>
        requires { w < length self.now.state.rows }
        ensures { result ≡ newest_test w name.now self.now.state }
    {
        let own = self.config_of(w).generation(name).unwrap_or(0);
        let current = self.config_state().generation(name).unwrap_or(0);
        test_same(own, current)
    }
}

// Whether a generation is the newest.
fn test_same(own: u64, current: u64) -> Result<(), WorldFault>
    ensures { result ≡ same_test own current }
{
    if own == current {
        Ok(())
    } else {
        Err(WorldFault::StaleGeneration { own, current })
    }
}

// The record that a connector's older tasks are fenced, before this many new ones.
fn fence_record(
    alloc: Global,
    name: &Name,
    count: u32,
) -> Result<Vec<(ConfigKey, Option<ConfigValue>)>, AllocError>
    ensures { IfOk result (λ values. values.items ≡ fence_record name.now count) }
{
    let mut values = Vec::new(alloc);
    values.push((
        ConfigKey::Fencing(name.copy()?),
        Some(ConfigValue::Fencing(count)),
    ))?;
    Ok(values)
}
