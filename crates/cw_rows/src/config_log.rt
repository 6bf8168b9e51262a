//! The leader writes records to the config log: configs, task sets, target states (Connect's config topic).
ghost use Rattle.std.specs.Prelude.{◌≡◌, ◌≢◌, ◌<◌, ◌≤◌, ◌+◌, ◌^◌, ◌++◌, ◌∷◌, [], ℕ, length, map, nat_le, true, false};
ghost use Rattle.std.specs.Prelude.{Ok, Err, None, Some, IfOk, OnOk, MatchResult, if◌then◌else◌};
ghost use Rattle.std.specs.List.{AllByRecursion};
ghost use Rattle.cw_config.specs.Acceptance.{end_of};
ghost use Rattle.cw_config.specs.Compaction.{AreAccepted};
ghost use Rattle.cw_rest.specs.Seen.{KeyedValues};
ghost use Rattle.cw_types.specs.declared.logs.LogName.TheVariants as log;
ghost use Rattle.cw_model.specs.declared.fault.WorldFault.{WorldFault as FaultValue};
ghost use Rattle.cw_model.specs.declared.fault.WorldFault.TheVariants as fault;
ghost use Rattle.cw_model.specs.Bodies.{config_applied, config_body, frame_of, has_room};
ghost use Rattle.cw_model.specs.EventsLeading.{append_config, MayAppendConfig};
ghost use Rattle.cw_model.specs.Updates.{stamped};
ghost use Rattle.cw_topics.specs.Configs.{IsWritable, have_offsets, records_from};
ghost use Rattle.cw_rows.specs.Configs.{IsUnplaced, HaveRead};
ghost use Rattle.cw_rows.specs.Tests.{leader_test};
ghost use Rattle.cw_rows.specs.Writes.{bytes_in, Readies, Refuses, Puts};

use crate::cluster::Cluster;
use cw_config::ConfigState;
use cw_keys::{ConfigKey, ConfigValue};
use cw_model::WorldFault;
use cw_topics::{ConfigFrame, frame_from};
use cw_types::LogName;
use std::alloc::AllocError;

impl Cluster {
    /// Tests whether a worker may write as the leader, and takes the memory of records of these keys and values. While
    /// writing hasn't ended, the log has so many bytes.
    pub fn ready_append_config(
        &mut self,
        w: u32,
        values: &[(ConfigKey, Option<ConfigValue>)],
        size: u64,
    ) -> Result<ConfigFrame, WorldFault>
        requires there { w < length self.old.state.rows }
        requires may { MayAppendConfig w values.now self.old.state }
        requires size { self.old.state.closed ≡ None → size ≡ bytes_in log.Config self.old.state }
        ensures due { MatchResult result
            (λ frame. Readies log.Config (append_config w values.now) (config_body frame) self.old self.new)
            (λ fault. Refuses (append_config w values.now) fault self.old self.new) }
        ensures passed { OnOk result (leader_test w self.old.state ≡ Ok tt) }
        ensures frame { IfOk result (λ frame. frame ≡ stamped values.now self.old.state) }
        ensures offsets { IfOk result (λ frame. have_offsets frame ≡ true) }
        ensures ready { IfOk result (λ frame. self.new.ready_configs ≡ frame) }
    {
        self.test_leader(w)?;
        let frame = self.ready_configs(values, size)?;
        Ok(frame)
    }

    /// Puts in records that the leader has written to the config log: the answer is the offset of the first.
    pub fn put_append_config(&mut self, w: u32, frame: ConfigFrame) -> u64
        requires passed { leader_test w self.old.state ≡ Ok tt }
        requires read { HaveRead self.old.state }
        requires some { 1 ≤ length frame }
        requires accepted { AreAccepted self.old.state.configs frame }
        requires offsets { have_offsets frame ≡ true }
        requires ready { self.old.ready_configs ≡ frame }
        requires room { has_room (bytes_in log.Config self.old.state) (frame_of (config_body frame)) ≡ true }
        ensures { (values : KeyedValues) → frame ≡ stamped values self.old.state →
            Puts (append_config w values) result self.old self.new }
    {
        let first = frame.first();
        self.topics.put_configs(frame);
        first
    }

    /// Takes the memory of records of these keys and values. The log is full where it has no offset left for one.
    pub(crate) fn ready_configs(
        &mut self,
        values: &[(ConfigKey, Option<ConfigValue>)],
        size: u64,
    ) -> Result<ConfigFrame, WorldFault>
        requires some { 1 ≤ length values.now }
        requires few { length values.now < 2 ^ 32 }
        requires writable { AllByRecursion IsWritable values.now }
        ensures same { self.new ≡ record self.old { ready_configs = self.new.ready_configs } }
        ensures frame { IfOk result (λ frame. frame ≡ stamped values.now self.old.state) }
        ensures offsets { IfOk result (λ frame. have_offsets frame ≡ true) }
        ensures ready { IfOk result (λ frame. self.new.ready_configs ≡ frame) }
        ensures refused { (why : FaultValue) → result ≡ Err why → why ≢ fault.Memory →
            IsUnplaced size (stamped values.now self.old.state) why }
    {
        match first_offset(self.topics.configs(), values.len() as u64) {
            Some(first) => self.ready_from(first, values),
            None => Err(self.unplaced(values, size)),
        }
    }

    // Takes the memory of records of these keys and values, which get these offsets from the first on.
    fn ready_from(
        &mut self,
        first: u64,
        values: &[(ConfigKey, Option<ConfigValue>)],
    ) -> Result<ConfigFrame, WorldFault>
        requires places { first + length values.now ≤ 2 ^ 64 }
        requires some { 1 ≤ length values.now }
        requires few { length values.now < 2 ^ 32 }
        requires writable { AllByRecursion IsWritable values.now }
        ensures same { self.new ≡ record self.old { ready_configs = self.new.ready_configs } }
        ensures frame { IfOk result (λ frame. frame ≡
            records_from first (length self.old.state.entries) values.now) }
        ensures ready { IfOk result (λ frame. self.new.ready_configs ≡ frame) }
        ensures memory { (why : FaultValue) → result ≡ Err why → why ≡ fault.Memory }
    {
        let stamp = self.topics.coordinator().length();
        let Ok(frame) = frame_from(self.alloc, first, stamp, values) else {
            return Err(WorldFault::Memory);
        };
        match self.topics.ready_configs(&frame) {
            Ok(()) => Ok(frame),
            Err(AllocError) => Err(WorldFault::Memory),
        }
    }

    // The log has no offset left for one of these. Their frame has as many bytes wherever it begins.
    fn unplaced(&self, values: &[(ConfigKey, Option<ConfigValue>)], size: u64) -> WorldFault
        requires some { 1 ≤ length values.now }
        requires few { length values.now < 2 ^ 32 }
        requires writable { AllByRecursion IsWritable values.now }
        requires none { have_offsets (stamped values.now self.now.state) ≡ false }
        ensures { result ≢ fault.Memory → IsUnplaced size (stamped values.now self.now.state) result }
    {
        let stamp = self.topics.coordinator().length();
        match frame_from(self.alloc, 0, stamp, values) {
            Ok(frame) => WorldFault::Full {
                log: LogName::Config,
                length: size,
                frame: frame.body().len() as u64 + 5,
            },
            Err(AllocError) => WorldFault::Memory,
        }
    }
}

// The offset of the first of so many records behind these, where each gets one.
fn first_offset(configs: &ConfigState, count: u64) -> Option<u64>
    requires { 1 ≤ count }
    ensures { result ≡ (if nat_le (end_of configs.now + count) (2 ^ 64) then Some (end_of configs.now) else None) }
{
    let first = configs.next()?;
    match first.checked_add(count - 1) {
        Some(_) => Some(first),
        None => None,
    }
}
