//! One status more in the status log (Connect's status topic): its memory is taken, and once it stands there it is put
//! in.
ghost use Rattle.std.specs.Prelude.{◌≡◌, ◌≢◌, ◌<◌, ◌++◌, ◌∷◌, [], ◌^◌, length, true, Ok, Err, IfOk, IfErr, OnOk};
ghost use Rattle.cw_types.specs.declared.logs.LogName.TheVariants as log;
ghost use Rattle.cw_keys.specs.Statuses.{status_key, status_text, IsItem};
ghost use Rattle.cw_model.specs.declared.fault.WorldFault.{WorldFault as FaultValue};
ghost use Rattle.cw_model.specs.declared.fault.WorldFault.TheVariants as fault;
ghost use Rattle.cw_model.specs.Bodies.{status_applied};
ghost use Rattle.cw_model.specs.Updates.{is_offset};
ghost use Rattle.cw_topics.specs.Statuses.{record_in, next_in, HasNoRoom};

use crate::status_frame::StatusFrame;
use crate::status_log::Stamped;
use crate::topics::Topics;
use cw_compact::hang;
use cw_keys::{StatusValue, write_status};
use cw_model::WorldFault;
use cw_status::StatusRecord;
use cw_types::{Item, LogName, TaskId};
use std::alloc::{AllocError, Global};

impl Topics {
    /// Takes the memory of a status, and writes its frame. Where that can't be, the log is told to be full.
    pub fn ready_status(
        &mut self,
        alloc: Global,
        item: &Item,
        value: StatusValue,
        size: u64,
    ) -> Result<StatusFrame, WorldFault>
        ensures same { self.new ≡ record self.old {
          statuses = record self.old.statuses {
            reserved = self.new.statuses.reserved;
          };
        } }
        ensures frame { IfOk result (λ frame. frame ≡
            record_in (length self.old.entries.entries) self.old.statuses.list item.now value) }
        ensures offset { OnOk result (is_offset (next_in self.old.statuses.list) ≡ true) }
        ensures ready { IfOk result (λ frame. self.new.statuses.reserved ≡ frame.status ∷ []) }
        ensures refused { (why : FaultValue) → result ≡ Err why → why ≢ fault.Memory →
            HasNoRoom size (record_in (length self.old.entries.entries) self.old.statuses.list item.now value) why }
    {
        let (key, text) = spelled(alloc, item, &value)?;
        let frame = key.len() as u64 + text.len() as u64 + 34;
        let Some(offset) = self.statuses.next() else {
            return Err(full(size, frame));
        };
        if text.len() > MOST {
            return Err(full(size, frame));
        }
        match self.spell_status(alloc, item, value, key, text, offset) {
            Ok(frame) => Ok(frame),
            Err(_) => Err(WorldFault::Memory),
        }
    }

    // Takes the memory of a status with this offset, and writes its frame.
    fn spell_status(
        &mut self,
        alloc: Global,
        item: &Item,
        value: StatusValue,
        key: Vec<u8>,
        text: Vec<u8>,
        offset: u64,
    ) -> Result<StatusFrame, AllocError>
        requires key { key.items ≡ status_key item.now }
        requires text { text.items ≡ status_text value }
        requires short_key { length key.items < 2 ^ 32 }
        requires short_text { length text.items < 2 ^ 32 }
        ensures same { self.new ≡ record self.old {
          statuses = record self.old.statuses {
            reserved = self.new.statuses.reserved;
          };
        } }
        ensures frame { IfOk result (λ frame. frame ≡ record {
          stamp = length self.old.entries.entries;
          status = record { offset = offset; item = item.now; value = value };
        }) }
        ensures ready { IfOk result (λ frame. self.new.statuses.reserved ≡ frame.status ∷ []) }
    {
        let status = StatusRecord {
            offset,
            item: item.copy()?,
            value,
        };
        self.statuses.reserve(&status)?;
        let stamp = self.coordinator.length();
        StatusFrame::new(alloc, Stamped { stamp, status }, key, text)
    }

    /// Puts in a status that stands in the log.
    pub fn put_status(&mut self, frame: StatusFrame)
        requires few { length self.old.status.frames < 2 ^ 62 }
        requires ready { self.old.statuses.reserved ≡ frame.status ∷ [] }
        requires next { frame.status.offset ≡ next_in self.old.statuses.list }
        ensures { self.new ≡ record self.old {
          status = record self.old.status { frames = self.old.status.frames ++ (status_applied frame ∷ []) ∷ [] };
          statuses = record {
            list = self.old.statuses.list ++ frame ∷ [];
            reserved = self.new.statuses.reserved;
          };
        } }
    {
        let (status, list) = frame.into_parts();
        hang(&mut self.status, list);
        self.statuses.put(status);
    }
}

// The most bytes of a status' text that are written: no log has room for more.
const MOST: usize = 268_435_456;

// The status log has no room.
fn full(size: u64, frame: u64) -> WorldFault
    ensures { result ≡ fault.Full log.Status size frame }
{
    WorldFault::Full {
        log: LogName::Status,
        length: size,
        frame,
    }
}

// The bytes of an item and of its status.
fn spelled(
    alloc: Global,
    item: &Item,
    value: &StatusValue,
) -> Result<(Vec<u8>, Vec<u8>), WorldFault>
    ensures key { IfOk result (λ bytes. bytes.0.items ≡ status_key item.now) }
    ensures text { IfOk result (λ bytes. bytes.1.items ≡ status_text value.now) }
    ensures short { IfOk result (λ bytes. length bytes.0.items < 2 ^ 32) }
    ensures memory { IfErr result (λ why. why ≡ fault.Memory) }
{
    is_named(item);
    match write_status(alloc, item, value) {
        Ok(bytes) => Ok(bytes),
        Err(_) => Err(WorldFault::Memory),
    }
}

// The name of an item is one. It does nothing at run time.
fn is_named(item: &Item)
    ensures { IsItem item.now }
{
    match item {
        Item::Connector(name) => {
            let _ = name.as_bytes();
        }
        Item::Task(id) => {
            let _ = id.connector.as_bytes();
            let _index = index_of(id);
        }
    }
}

// The number of a task.
fn index_of(id: &TaskId) -> u32
    ensures is { result ≡ id.now.index }
    ensures small { result < 2 ^ 32 }
{
    id.index
}
