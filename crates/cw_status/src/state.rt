//! The latest statuses.
ghost use Rattle.std.specs.Prelude.{◌≡◌, [], ◌∷◌, ◌++◌, Contains, OnOk, OnErr, IsOk, MatchOption, option_copied};
ghost use Rattle.cw_status.specs.Statuses.{latest};

use crate::record::{RecordRef, StatusRecord};
use crate::table::{make_row, put, put_made, status_at};
use cw_keys::StatusValue;
use cw_types::{Item, Past};
use std::alloc::{AllocError, Global};
use std::collections::BTreeMap;
use std::marker::Model;

/// The latest status of each connector and task: at run time it keeps no other. Look-ups take no memory and
/// never walk the records.
#[derive(Drop)]
pub struct StatusState {
    applied: Past<StatusRecord>,
    reserved: Vec<StatusRecord>,
    latest: BTreeMap<Item, Option<StatusValue>>,
}

impl Model for StatusState {
    ghost use Rattle.cw_status.specs.Records.{Records};

    ghost Value = { Records };

    ghost use Rattle.cw_status.specs.Table.{IsStatuses};

    ghost view = { λ a. record { applied = a.applied.items; reserved = a.reserved.items } };

    ghost invariant = { λ a. IsStatuses a.latest a.applied.items a.reserved.items };
}

impl StatusState {
    ghost use Rattle.cw_status.specs.Records.{Records, Applies};

    /// With no record. It takes no memory.
    pub fn new(alloc: Global) -> StatusState
        ensures { result ≡ record { applied = []; reserved = [] } }
    {
        StatusState {
            applied: Past::new(),
            reserved: Vec::new(alloc),
            latest: BTreeMap::new(alloc),
        }
    }

    /// The status that was last applied of a connector or a task.
    pub fn latest(&self, item: &Item) -> Option<&StatusValue>
        ensures { option_copied result ≡ latest item.now self.now.applied }
    {
        status_at(&self.latest, item)
    }

    /// Applies a record of the status log.
    pub fn apply(&mut self, offset: u64, item: &Item, value: StatusValue) -> Result<(), AllocError>
        ensures ok { OnOk result (Applies
            (record { offset = offset; item = item.now; value = value }) self.old self.new) }
        ensures err { OnErr result (self.new ≡ self.old) }
        ensures reserved { Contains self.old.reserved (record { offset = offset; item = item.now; value = value }) →
            IsOk result }
    {
        let applied = RecordRef {
            offset,
            item,
            value: &value,
        };
        if let Some(at) = place_of(&self.reserved, &applied) {
            let reserved = self.reserved.remove(at);
            put_made(&mut self.latest, &mut self.applied, reserved);
            return Ok(());
        }
        let record = StatusRecord {
            offset,
            item: item.copy()?,
            value,
        };
        put(&mut self.latest, &mut self.applied, record)
    }

    /// Makes room for an `apply`, so that making it once can't want memory.
    pub fn reserve_apply(
        &mut self,
        offset: u64,
        item: &Item,
        value: &StatusValue,
    ) -> Result<(), AllocError>
        ensures ok { OnOk result (self.new ≡ record self.old {
          reserved =
              self.old.reserved ++ record { offset = offset; item = item.now; value = value.now } ∷ [];
        }) }
        ensures err { OnErr result (self.new ≡ self.old) }
    {
        make_row(&mut self.latest, item)?;
        let applied = RecordRef {
            offset,
            item,
            value,
        };
        self.reserved.push(applied.to_record()?)?;
        Ok(())
    }

    /// Gives up all that is reserved. It takes no memory.
    pub fn unreserve(&mut self)
        ensures { self.new ≡ record self.old { reserved = [] } }
    {
        self.reserved.clear();
    }
}

ghost use Rattle.cw_status.specs.Table.{record_of, IsFirstAt};

// The first place of a record in a list.
fn place_of(list: &[StatusRecord], applied: &RecordRef<'_>) -> Option<usize>
    ensures { MatchOption result (¬ Contains list.now (record_of applied.now))
        (λ at. IsFirstAt (record_of applied.now) list.now at) }
{
    for at in 0..list.len() {
        if applied.is(&list[at]) {
            return Some(at);
        }
    }
    None
}
