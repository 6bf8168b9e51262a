//! What a sink's task writes to the transaction list.
ghost use Rattle.std.specs.Prelude.{◌≡◌, ◌<◌, ◌++◌, ◌∷◌, [], length, Ok, IfOk, OnOk, MatchResult, true};
ghost use Rattle.cw_types.specs.declared.ids.PartKey.{PartKey as PartValue};
ghost use Rattle.cw_types.specs.declared.logs.LogName.TheVariants as log;
ghost use Rattle.cw_txn.specs.Allowed.{AreAllowed};
ghost use Rattle.cw_txn.specs.Body.{entries_bytes};
ghost use Rattle.cw_txn.specs.Legal.{Chains};
ghost use Rattle.cw_model.specs.Bodies.{frame_of, has_room};
ghost use Rattle.cw_model.specs.EventsSinks.{put_sink, sink_offset};
ghost use Rattle.cw_model.specs.Lookups.{instance_of};
ghost use Rattle.cw_model.specs.Updates.{tid_of};
ghost use Rattle.cw_rows.specs.Tests.{producer_test};
ghost use Rattle.cw_rows.specs.Writes.{bytes_in, Readies, Refuses, Puts};

use crate::cluster::Cluster;
use crate::crew::cut_of;
use crate::sources::part_at;
use cw_model::{Instance, WorldFault};
use cw_topics::{EntryFrame, Topics};
use cw_txn::{Entry, SetOffset};
use cw_types::{Epoch, Listed, Tid};
use std::alloc::{AllocError, Global};

impl Cluster {
    /// Takes the memory of the offset up to which a sink handed out a topic.
    pub fn ready_put_sink(&mut self, i: u64, to: u64) -> Result<EntryFrame, WorldFault>
        requires { i < length self.old.state.instances }
        ensures due { MatchResult result
            (λ frame. Readies log.Txn (put_sink i to) (entries_bytes frame) self.old self.new)
            (λ fault. Refuses (put_sink i to) fault self.old self.new) }
        ensures passed { OnOk result (producer_test i self.old.state ≡ Ok tt) }
        ensures frame { IfOk result (λ frame. frame ≡ sink_offset (instance_of i self.old.state) to ∷ []) }
        ensures ready { IfOk result (λ frame. self.new.ready ≡ frame) }
    {
        let tid = self.producer(i)?;
        let Ok(frame) = ready_sink_offset(
            &mut self.topics,
            self.alloc,
            self.crew.instance(i),
            tid,
            to,
        ) else {
            return Err(WorldFault::Memory);
        };
        Ok(frame)
    }

    /// A sink has stored how far it handed out a topic, and its entry stands in the log.
    pub fn put_put_sink(&mut self, i: u64, to: u64, frame: EntryFrame)
        requires there { i < length self.old.state.instances }
        requires passed { producer_test i self.old.state ≡ Ok tt }
        requires frame { frame ≡ sink_offset (instance_of i self.old.state) to ∷ [] }
        requires ready { self.old.ready ≡ frame }
        requires allowed { AreAllowed (self.old.state.entries ++ frame) }
        requires chains { (part : PartValue) → Chains part (self.old.state.entries ++ frame) }
        requires room { has_room (bytes_in log.Txn self.old.state) (frame_of (entries_bytes frame)) ≡ true }
        ensures { Puts (put_sink i to) tt self.old self.new }
    {
        self.topics.put_entries(frame);
        self.crew.poll_on(i, to);
    }
}

// Takes the memory of the offset of the topic that a sink took last, and writes its frame.
fn ready_sink_offset(
    topics: &mut Topics,
    alloc: Global,
    own: &Instance,
    tid: Tid,
    to: u64,
) -> Result<EntryFrame, AllocError>
    requires { tid ≡ tid_of own.now.item }
    ensures same { topics.new ≡ record topics.old {
      entries = record topics.old.entries { reserved = topics.new.entries.reserved };
    } }
    ensures frame { IfOk result (λ frame. frame ≡ sink_offset own.now to ∷ []) }
    ensures ready { OnOk result (topics.new.entries.reserved ≡ sink_offset own.now to ∷ []) }
{
    let entry = sink_offset(alloc, own, tid, to)?;
    topics.ready_entry(alloc, entry)
}

// The entry that sets the offset of the topic that a sink took last.
fn sink_offset(alloc: Global, own: &Instance, tid: Tid, to: u64) -> Result<Entry, AllocError>
    requires { tid ≡ tid_of own.now.item }
    ensures { IfOk result (λ entry. entry ≡ sink_offset own.now to) }
{
    let part = part_at(own, cut_of(own).turn)?;
    let mut list = Vec::new(alloc);
    list.push(SetOffset { part, to: Some(to) })?;
    Ok(Entry::Set {
        tid,
        epoch: own.epoch.unwrap_or(Epoch(0)),
        list: Listed::new(list),
    })
}
