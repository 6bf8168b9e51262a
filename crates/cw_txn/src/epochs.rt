//! The last epoch of each producer.
ghost use Rattle.std.specs.Prelude.{◌≡◌, ◌+◌, ◌<◌, ◌^◌, OnOk, is_some};
ghost use Rattle.std.specs.BTreeMap.{get};
ghost use Rattle.cw_types.specs.declared.ids.Tid.{Tid};
ghost use Rattle.cw_types.specs.Same.{tid_order};
ghost use Rattle.cw_txn.specs.Tables.{epoch_at, HasEpoch, KeepsEpochs, SameEpochs, RaisesRow, RaisesEpoch};

use cw_tables::{has_row, make_row};
use cw_types::Tid;
use std::alloc::AllocError;
use std::collections::BTreeMap;

/// A row for a producer, which reads as before.
pub fn make_epoch(epochs: &mut BTreeMap<Tid, u64>, tid: &Tid) -> Result<(), AllocError>
    ensures same { SameEpochs epochs.old epochs.new }
    ensures kept { KeepsEpochs epochs.old epochs.new }
    ensures there { OnOk result (HasEpoch epochs.new tid.now) }
{
    if has_row(epochs, tid) {
        return Ok(());
    }
    make_row(epochs, tid.copy()?, 0)
}

/// Raises the epoch of a producer that has a row, and says whether it has one.
pub fn raise_row(epochs: &mut BTreeMap<Tid, u64>, tid: &Tid) -> bool
    requires { (q : Tid) → epoch_at epochs.old q + 1 < 2 ^ 64 }
    ensures there { result ≡ is_some (get tid_order epochs.old tid.now) }
    ensures raised { RaisesRow result epochs.old epochs.new tid.now }
{
    match epochs.get_mut(tid) {
        Some(epoch) => {
            *epoch += 1;
            true
        }
        None => false,
    }
}

/// The epoch of a producer is one higher, in its row or in a new one.
pub fn put_bump(epochs: &mut BTreeMap<Tid, u64>, tid: &Tid) -> Result<(), AllocError>
    requires { (q : Tid) → epoch_at epochs.old q + 1 < 2 ^ 64 }
    ensures { OnOk result (RaisesEpoch epochs.old epochs.new tid.now) }
{
    if raise_row(epochs, tid) {
        return Ok(());
    }
    epochs.insert(tid.copy()?, 1)?;
    Ok(())
}
