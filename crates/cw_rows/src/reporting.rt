//! A worker reports the state of an item that it runs (Connect's status topic).
ghost use Rattle.std.specs.Prelude.{◌≡◌, ◌≢◌, ◌<◌, ◌++◌, ◌∷◌, [], ◌^◌, length, true, None, Ok, Err, option_map, IfOk};
ghost use Rattle.std.specs.Prelude.{IfErr, OnOk, MatchResult};
ghost use Rattle.cw_types.specs.declared.logs.LogName.TheVariants as log;
ghost use Rattle.cw_keys.specs.Statuses.{status_key, status_text, IsItem};
ghost use Rattle.cw_model.specs.declared.fault.WorldFault.{WorldFault as FaultValue};
ghost use Rattle.cw_model.specs.declared.fault.WorldFault.TheVariants as fault;
ghost use Rattle.cw_model.specs.Bodies.{status_applied, status_body, frame_of, has_room};
ghost use Rattle.cw_model.specs.EventsReports.{put_status, MayReport, state_of, status_of, instance_at, aimed_state};
ghost use Rattle.cw_model.specs.EventsReports.{trace_text};
ghost use Rattle.cw_model.specs.Lookups.{connector_of};
ghost use Rattle.cw_model.specs.Updates.{is_offset};
ghost use Rattle.cw_rows.specs.Kept.{worker_test};
ghost use Rattle.cw_topics.specs.Statuses.{record_in, next_in, HasNoRoom};
ghost use Rattle.cw_rows.specs.Statuses.{status_in, reported};
ghost use Rattle.cw_rows.specs.Writes.{bytes_in, Readies, Refuses, Puts};

use crate::cluster::Cluster;
use cw_config::ConfigState;
use cw_json::Text;
use cw_keys::{State, StatusValue, Target, fenced_trace, long_line_trace};
use cw_model::{Instance, InstancePhase, Row, Trace, WorldFault};
use cw_topics::StatusFrame;
use cw_types::{Item, Name};
use std::alloc::{AllocError, Global};

impl Cluster {
    /// Takes the memory of the status of an item that runs at a worker. The status log has `size` bytes: where no
    /// offset is left, or the record is too long to be written, that is told as it is of a full log.
    pub fn ready_put_status(
        &mut self,
        w: u32,
        item: &Item,
        size: u64,
    ) -> Result<StatusFrame, WorldFault>
        requires there { w < length self.old.state.rows }
        requires may { MayReport w item.now self.old.state }
        requires size { self.old.state.closed ≡ None → size ≡ bytes_in log.Status self.old.state }
        ensures due { MatchResult result
            (λ frame. Readies log.Status (put_status w item.now) (status_body (frame ∷ [])) self.old self.new)
            (λ fault. Refuses (put_status w item.now) fault self.old self.new) }
        ensures passed { OnOk result (worker_test w self.old.state ≡ Ok tt) }
        ensures frame { IfOk result (λ frame. frame ≡ reported w item.now self.old.state) }
        ensures offset { IfOk result (λ frame. is_offset frame.status.offset ≡ true) }
        ensures ready { IfOk result (λ frame. self.new.ready_statuses ≡ frame.status ∷ []) }
    {
        self.test_worker(w)?;
        let value = self.status_to_report(w, item)?;
        let frame = self.topics.ready_status(self.alloc, item, value, size)?;
        Ok(frame)
    }

    /// A worker has reported the state of an item: its record stands in the log.
    pub fn put_put_status(&mut self, w: u32, item: &Item, frame: StatusFrame)
        requires there { w < length self.old.state.rows }
        requires passed { worker_test w self.old.state ≡ Ok tt }
        requires frame { frame ≡ reported w item.now self.old.state }
        requires offset { is_offset frame.status.offset ≡ true }
        requires ready { self.old.ready_statuses ≡ frame.status ∷ [] }
        requires room { has_room (bytes_in log.Status self.old.state) (frame_of (status_body (frame ∷ []))) ≡ true }
        ensures { Puts (put_status w item.now) tt self.old self.new }
    {
        let state = frame.state();
        self.topics.put_status(frame);
        self.crew.report(w, item, state);
    }

    // The status of an item that runs at a worker.
    fn status_to_report(&self, w: u32, item: &Item) -> Result<StatusValue, WorldFault>
        requires there { w < length self.now.state.rows }
        requires may { MayReport w item.now self.now.state }
        ensures value { IfOk result (λ value. value ≡
            status_of w (instance_at w item.now self.now.state) self.now.state) }
        ensures memory { IfErr result (λ why. why ≡ fault.Memory) }
    {
        let Some(instance) = self.crew.running(w, item) else {
            unreachable!();
        };
        match status_of(
            self.alloc,
            w,
            self.crew.row(w),
            self.crew.read_by(w),
            instance,
        ) {
            Ok(value) => Ok(value),
            Err(_) => Err(WorldFault::Memory),
        }
    }
}

// The status of an instance, by what its worker has read of the config log.
fn status_of(
    alloc: Global,
    worker: u32,
    row: &Row,
    read: &ConfigState,
    instance: &Instance,
) -> Result<StatusValue, AllocError>
    ensures { IfOk result (λ status. status ≡ status_in worker row.now read.now instance.now) }
{
    Ok(StatusValue {
        state: state_of(read, instance),
        trace: trace_of(alloc, instance.trace)?,
        worker,
        round: row.round,
    })
}

// The state of an instance.
fn state_of(read: &ConfigState, instance: &Instance) -> State
    ensures { result ≡ state_of read.now instance.now }
{
    match instance.phase {
        InstancePhase::Failed => State::Failed,
        _ => aimed_state(&instance.item, read.target(connector_of(&instance.item))),
    }
}

// The state of an item that hasn't failed.
fn aimed_state(item: &Item, target: Target) -> State
    ensures { result ≡ aimed_state item.now target }
{
    match (target, item) {
        (Target::Started, _) => State::Running,
        (Target::Paused, _) => State::Paused,
        (Target::Stopped, Item::Connector(_)) => State::Stopped,
        (Target::Stopped, Item::Task(_)) => State::Running,
    }
}

/// The connector of an item.
pub fn connector_of(item: &Item) -> &Name
    ensures { result.now ≡ connector_of item.now }
{
    match item {
        Item::Connector(name) => name,
        Item::Task(id) => &id.connector,
    }
}

// The text of a trace.
fn trace_of(alloc: Global, trace: Option<Trace>) -> Result<Option<Text>, AllocError>
    ensures { IfOk result (λ text. text ≡ option_map trace_text trace) }
{
    match trace {
        None => Ok(None),
        Some(Trace::Fenced { own, current }) => Ok(Some(fenced_trace(alloc, own, current)?)),
        Some(Trace::LineTooLong(at)) => Ok(Some(long_line_trace(alloc, at)?)),
    }
}
