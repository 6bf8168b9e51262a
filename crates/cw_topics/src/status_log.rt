//! The statuses that were reported since the cluster was opened (Connect's status topic).
ghost use Rattle.std.specs.Prelude.{◌≡◌, ◌++◌, ◌∷◌, ◌+◌, ◌-◌, ◌^◌, ℕ, [], Some, max, min, length, IfOk, OnOk, OnErr};
ghost use Rattle.std.specs.List.{filter_map, cons_option};
ghost use Rattle.cw_model.specs.Bodies.{statuses_in, status_in};
ghost use Rattle.cw_topics.specs.Statuses.{plain, next_in, offset_from};

use cw_bytes::Applied;
use cw_keys::{KeyFault, read_status};
use cw_status::{StatusRecord, StatusState};
use cw_types::{Listed, Past};
use std::alloc::{AllocError, Global};
use std::marker::Model;

/// A status, and how long the transaction list was when it was written.
#[derive(Drop)]
pub(crate) struct Stamped {
    pub(crate) stamp: u64,
    pub(crate) status: StatusRecord,
}

impl Model for Stamped {
    ghost use Rattle.cw_model.specs.State.{StampedStatus};

    ghost Value = { StampedStatus };

    ghost view = { λ a. record { stamp = a.stamp; status = a.status } };
}

/// The statuses: what is told of them takes no memory, and look-ups never walk them.
#[derive(Drop)]
pub struct StatusLog {
    records: Past<Stamped>,
    state: StatusState,
    next: Option<u64>,
    count: u64,
}

impl Model for StatusLog {
    ghost use Rattle.cw_topics.specs.Statuses.{StatusList, IsStatusList};

    ghost Value = { StatusList };

    ghost view = { λ l. record { list = l.records.items; reserved = l.state.reserved } };

    ghost invariant = { λ l. IsStatusList l.records.items l.state.applied l.next l.count };
}

impl StatusLog {
    /// With no status.
    pub(crate) fn new(alloc: Global) -> StatusLog
        ensures { result ≡ record { list = []; reserved = [] } }
    {
        StatusLog {
            records: Past::new(),
            state: StatusState::new(alloc),
            next: Some(0),
            count: 0,
        }
    }

    /// With the statuses that the frames of a log hold.
    pub(crate) fn opened(alloc: Global, frames: &[Listed<Applied>]) -> Result<StatusLog, AllocError>
        ensures { IfOk result (λ log. log ≡ record { list = statuses_in frames.now; reserved = [] }) }
    {
        let mut log = StatusLog::new(alloc);
        for frame in frames {
            read_frame(alloc, &mut log, frame.as_slice())?;
        }
        Ok(log)
    }

    /// The latest statuses.
    pub(crate) fn state(&self) -> &StatusState
        ensures { result.now.applied ≡ plain self.now.list }
    {
        &self.state
    }

    /// The offset of the next record; none past 2^64 - 1.
    pub(crate) fn next(&self) -> Option<u64>
        ensures { result ≡ offset_from (next_in self.now.list) }
    {
        self.next
    }

    /// How many there are, at most 2^64 - 1.
    pub(crate) fn count(&self) -> u64
        ensures { result ≡ min (length self.now.list) (2 ^ 64 - 1) }
    {
        self.count
    }

    /// One record more of a log that is opened. Its offset may be any.
    pub(crate) fn add(&mut self, stamped: Stamped) -> Result<(), AllocError>
        requires { self.old.reserved ≡ [] }
        ensures { OnOk result (self.new ≡ record { list = self.old.list ++ stamped ∷ []; reserved = [] }) }
    {
        let records = self.records.and(&stamped);
        let next = above(self.next, stamped.status.offset);
        add_status(&mut self.state, stamped.status)?;
        self.records = records;
        self.next = next;
        self.count = self.count.saturating_add(1);
        Ok(())
    }

    /// Takes the memory of one record, and gives up what was taken before.
    pub(crate) fn reserve(&mut self, status: &StatusRecord) -> Result<(), AllocError>
        ensures same { self.new.list ≡ self.old.list }
        ensures ready { OnOk result (self.new.reserved ≡ status.now ∷ []) }
    {
        self.state.unreserve();
        self.state
            .reserve_apply(status.offset, &status.item, &status.value)?;
        Ok(())
    }

    /// Puts in the next record, for which memory was taken.
    pub(crate) fn put(&mut self, stamped: Stamped)
        requires ready { self.old.reserved ≡ stamped.status ∷ [] }
        requires next { stamped.status.offset ≡ next_in self.old.list }
        ensures { self.new ≡ record { list = self.old.list ++ stamped ∷ []; reserved = self.new.reserved } }
    {
        self.records = self.records.and(&stamped);
        self.next = stamped.status.offset.checked_add(1);
        self.count = self.count.saturating_add(1);
        apply_reserved(&mut self.state, stamped.status);
    }
}

// Applies the record for which memory was taken.
fn apply_reserved(state: &mut StatusState, status: StatusRecord)
    requires { state.old.reserved ≡ status ∷ [] }
    ensures { state.new.applied ≡ state.old.applied ++ status ∷ [] }
{
    let StatusRecord {
        offset,
        item,
        value,
    } = status;
    match state.apply(offset, &item, value) {
        Ok(()) => {}
        Err(_) => unreachable!(),
    }
}

// The next offset behind a record.
fn above(next: Option<u64>, offset: u64) -> Option<u64>
    ensures { (n : ℕ) → next ≡ offset_from n → result ≡ offset_from (max n (offset + 1)) }
{
    let end = next?;
    if offset < end {
        return Some(end);
    }
    offset.checked_add(1)
}

// Applies a record of a log that is opened.
fn add_status(state: &mut StatusState, status: StatusRecord) -> Result<(), AllocError>
    requires { state.old.reserved ≡ [] }
    ensures ok { OnOk result (state.new ≡ record {
      applied = state.old.applied ++ status ∷ [];
      reserved = [];
    }) }
    ensures err { OnErr result (state.new ≡ state.old) }
{
    let StatusRecord {
        offset,
        item,
        value,
    } = status;
    state.apply(offset, &item, value)
}

// The statuses of a frame, behind others.
fn read_frame(alloc: Global, log: &mut StatusLog, frame: &[Applied]) -> Result<(), AllocError>
    requires { log.old.reserved ≡ [] }
    ensures { OnOk result (log.new ≡ record {
      list = log.old.list ++ filter_map status_in frame.now;
      reserved = [];
    }) }
{
    for applied in frame {
        let found = read_record(alloc, applied)?;
        add_some(log, found)?;
    }
    Ok(())
}

// One status more, if there is one.
fn add_some(log: &mut StatusLog, found: Option<Stamped>) -> Result<(), AllocError>
    requires { log.old.reserved ≡ [] }
    ensures { OnOk result (log.new ≡ record { list = log.old.list ++ cons_option found []; reserved = [] }) }
{
    match found {
        Some(stamped) => log.add(stamped),
        None => Ok(()),
    }
}

// The status that a record of the log is, if it is one.
fn read_record(alloc: Global, applied: &Applied) -> Result<Option<Stamped>, AllocError>
    ensures { IfOk result (λ found. found ≡ status_in applied.now) }
{
    match &applied.value {
        Some(text) => read_text(alloc, applied, text.as_slice()),
        None => Ok(None),
    }
}

// The status of a record with this value.
fn read_text(alloc: Global, applied: &Applied, text: &[u8]) -> Result<Option<Stamped>, AllocError>
    requires { applied.now.value ≡ Some text.now }
    ensures { IfOk result (λ found. found ≡ status_in applied.now) }
{
    match read_status(alloc, applied.key.as_slice(), text) {
        Ok((item, value)) => Ok(Some(Stamped {
            stamp: applied.stamp,
            status: StatusRecord {
                offset: applied.offset,
                item,
                value,
            },
        })),
        Err(KeyFault::Memory) => Err(AllocError),
        Err(KeyFault::BadKey) => Ok(None),
        Err(KeyFault::BadValue) => Ok(None),
    }
}
