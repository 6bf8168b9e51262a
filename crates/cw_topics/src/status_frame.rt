//! A frame of the status log.
ghost use Rattle.std.specs.Prelude.{◌≡◌, ◌∷◌, [], ◌≤◌, ◌<◌, ◌^◌, length, IfOk};
ghost use Rattle.cw_keys.specs.Statuses.{status_key, status_text};
ghost use Rattle.cw_model.specs.Bodies.{status_applied, status_body};

use crate::status_log::Stamped;
use cw_bytes::{Applied, write_record_body};
use cw_compact::one_frame;
use cw_keys::State;
use cw_status::StatusRecord;
use cw_types::Listed;
use std::alloc::{AllocError, Global};
use std::collections::LinkedList;
use std::marker::Model;

/// A frame of the status log: its one record, the list of its fields, which is hung to the log's frames, and its bytes.
/// Clauses see the status with its stamp.
#[derive(Drop)]
pub struct StatusFrame {
    status: Stamped,
    records: LinkedList<Listed<Applied>>,
    body: Vec<u8>,
}

impl Model for StatusFrame {
    ghost use Rattle.cw_model.specs.State.{StampedStatus};
    ghost use Rattle.cw_topics.specs.Statuses.{IsStatusFrame};

    ghost Value = { StampedStatus };

    ghost view = { λ f. f.status };

    ghost invariant = { λ f. IsStatusFrame f.status f.records f.body.items };
}

impl StatusFrame {
    /// The frame of a status, whose key and text are given.
    pub(crate) fn new(
        alloc: Global,
        status: Stamped,
        key: Vec<u8>,
        text: Vec<u8>,
    ) -> Result<StatusFrame, AllocError>
        requires key { key.items ≡ status_key status.status.item }
        requires text { text.items ≡ status_text status.status.value }
        requires short_key { length key.items < 2 ^ 32 }
        requires short_text { length text.items < 2 ^ 32 }
        ensures { IfOk result (λ frame. frame ≡ status) }
    {
        let records = one_record(alloc, status.stamp, status.status.offset, key, text)?;
        let body = write_record_body(alloc, records.as_slice())?;
        let records = one_frame(alloc, Listed::new(records))?;
        Ok(StatusFrame {
            status,
            records,
            body,
        })
    }

    /// Its bytes.
    pub fn body(&self) -> &[u8]
        ensures bytes { result.now ≡ status_body (self.now ∷ []) }
        ensures some { 1 ≤ length result.now }
    {
        self.body.as_slice()
    }

    /// The state that is reported.
    pub fn state(&self) -> State
        ensures { result ≡ self.now.status.value.state }
    {
        self.status.status.value.state
    }

    /// The status, and the list that is hung to the log's frames, once its bytes stand in the log.
    pub(crate) fn into_parts(self) -> (Stamped, LinkedList<Listed<Applied>>)
        ensures status { result.0 ≡ self }
        ensures list { result.1 ≡ (status_applied self ∷ []) ∷ [] }
    {
        (self.status, self.records)
    }
}

// The list of one record.
fn one_record(
    alloc: Global,
    stamp: u64,
    offset: u64,
    key: Vec<u8>,
    text: Vec<u8>,
) -> Result<Vec<Applied>, AllocError>
    ensures { IfOk result (λ records. records.items ≡
        record { offset = offset; stamp = stamp; key = key.items; value = Some text.items } ∷ []) }
{
    let mut records = Vec::new(alloc);
    records.push(Applied {
        offset,
        stamp,
        key: Listed::new(key),
        value: Some(Listed::new(text)),
    })?;
    Ok(records)
}

ghost use Rattle.std.specs.Prelude.{Some};
