//! A task writes the records of a cut to the data log (KIP-618).
ghost use Rattle.std.specs.Prelude.{◌≡◌, ◌≢◌, ◌<◌, length, None, Ok, Err, true, IfOk, IfErr, OnOk, MatchResult};
ghost use Rattle.std.specs.Prelude.{Contains};
ghost use Rattle.cw_data.specs.Body.{IsShort, entry_bytes};
ghost use Rattle.cw_data.specs.declared.entry.DataEntry.TheVariants.{Batch as InBatch};
ghost use Rattle.cw_model.specs.Bodies.{frame_of, has_room};
ghost use Rattle.cw_model.specs.EventsSources.{produce, MayProduce, batch_of};
ghost use Rattle.cw_model.specs.Lookups.{instance_of};
ghost use Rattle.cw_model.specs.Tasks.{parts_of, tag_of};
ghost use Rattle.cw_model.specs.declared.fault.WorldFault.{WorldFault};
ghost use Rattle.cw_model.specs.declared.fault.WorldFault.TheVariants as fault;
ghost use Rattle.cw_types.specs.declared.logs.LogName.TheVariants as log;
ghost use Rattle.cw_rows.specs.Producing.{writing_test, producing_test, HasTopic};
ghost use Rattle.cw_rows.specs.Writes.{bytes_in, Readies, Refuses, Puts};

use crate::batches::{batch_of, tag_of, test_cut};
use crate::cluster::Cluster;
use crate::sizes::short_batch;
use cw_data::{Batch, DataEntry};
use cw_model::{Cut, InstancePhase, WorldFault};
use cw_topics::DataFrame;
use cw_types::Tag;

impl Cluster {
    /// Tests whether a task may write the records of a cut, takes the memory of that, and writes their frame. The data
    /// log has so many bytes; a batch that is longer than any log may be finds it full.
    pub fn ready_produce(&mut self, i: u64, cut: Cut, bytes: u64) -> Result<DataFrame, WorldFault>
        requires there { i < length self.old.state.instances }
        requires may { MayProduce i cut self.old.state }
        requires topic { HasTopic (instance_of i self.old.state) }
        requires bytes { self.old.state.closed ≡ None → bytes ≡ bytes_in log.Batches self.old.state }
        ensures due { MatchResult result
            (λ frame. Readies log.Batches (produce self.old.setting i cut) (entry_bytes frame) self.old self.new)
            (λ fault. Refuses (produce self.old.setting i cut) fault self.old self.new) }
        ensures passed { OnOk result (producing_test self.old.setting i cut self.old.state ≡ Ok tt) }
        ensures frame { IfOk result (λ frame. frame ≡
            batch_of self.old.setting.feeds (instance_of i self.old.state) cut) }
        ensures ready { IfOk result (λ frame. Contains self.new.ready_data frame) }
    {
        let whole = self.batch_to_write(i, cut)?;
        let batch = short_batch(self.alloc, whole, bytes)?;
        let frame = self.ready_data(DataEntry::Batch(batch))?;
        Ok(frame)
    }

    /// Puts in what a task has written for a cut.
    pub fn put_produce(&mut self, i: u64, cut: Cut, frame: DataFrame)
        requires there { i < length self.old.state.instances }
        requires passed { producing_test self.old.setting i cut self.old.state ≡ Ok tt }
        requires frame { frame ≡ batch_of self.old.setting.feeds (instance_of i self.old.state) cut }
        requires ready { Contains self.old.ready_data frame }
        requires room { has_room (bytes_in log.Batches self.old.state) (frame_of (entry_bytes frame)) ≡ true }
        ensures { Puts (produce self.old.setting i cut) tt self.old self.new }
    {
        match frame.into_entry() {
            DataEntry::Batch(batch) => {
                self.topics.put_batch(batch);
                self.crew.take(i, InstancePhase::Produced, cut);
            }
            DataEntry::Mark { .. } => unreachable!(),
        }
    }

    /// Takes the memory of an entry of the data log, and writes its frame.
    pub(crate) fn ready_data(&mut self, entry: DataEntry) -> Result<DataFrame, WorldFault>
        requires { IsShort entry }
        ensures state { self.new.state ≡ self.old.state }
        ensures setting { self.new.setting ≡ self.old.setting }
        ensures frame { IfOk result (λ frame. frame ≡ entry) }
        ensures ready { OnOk result (Contains self.new.ready_data entry) }
        ensures memory { IfErr result (λ why. why ≡ fault.Memory) }
    {
        match self.topics.ready_data(self.alloc, entry) {
            Ok(frame) => Ok(frame),
            Err(_) => Err(WorldFault::Memory),
        }
    }

    // The batch of a cut, where it may be written.
    fn batch_to_write(&self, i: u64, cut: Cut) -> Result<Batch, WorldFault>
        requires there { i < length self.now.state.instances }
        requires turn { cut.turn < length (parts_of (instance_of i self.now.state)) }
        requires topic { HasTopic (instance_of i self.now.state) }
        ensures batch { IfOk result (λ batch. InBatch batch ≡
            batch_of self.now.setting.feeds (instance_of i self.now.state) cut) }
        ensures passed { OnOk result (producing_test self.now.setting i cut self.now.state ≡ Ok tt) }
        ensures refused { (refusal : WorldFault) → result ≡ Err refusal → refusal ≢ fault.Memory →
            producing_test self.now.setting i cut self.now.state ≡ Err refusal }
    {
        let tag = self.tag_to_write(i)?;
        let instance = self.crew.instance(i);
        test_cut(&self.feeds, instance, cut)?;
        match batch_of(self.alloc, &self.feeds, instance, tag, cut) {
            Ok(batch) => Ok(batch),
            Err(_) => Err(WorldFault::Memory),
        }
    }

    /// The transaction that a task writes under, where it may write.
    pub(crate) fn tag_to_write(&self, i: u64) -> Result<Tag, WorldFault>
        requires { i < length self.now.state.instances }
        ensures tag { IfOk result (λ tag. tag ≡ tag_of (instance_of i self.now.state)) }
        ensures passed { OnOk result (writing_test i self.now.state ≡ Ok tt) }
        ensures refused { (refusal : WorldFault) → result ≡ Err refusal → refusal ≢ fault.Memory →
            writing_test i self.now.state ≡ Err refusal }
    {
        self.test_instance(i)?;
        let Ok(tag) = tag_of(self.crew.instance(i)) else {
            return Err(WorldFault::Memory);
        };
        let own = tag.epoch.0;
        let current = self.topics.coordinator().epoch_of(&tag.tid);
        if own != current {
            return Err(WorldFault::Fenced { own, current });
        }
        Ok(tag)
    }
}
