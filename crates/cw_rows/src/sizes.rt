//! How long a batch is, for one that is longer than any log may be.
ghost use Rattle.std.specs.Prelude.{◌≡◌, ◌≢◌, [], length, Err, IfOk, OnOk, IfSome};
ghost use Rattle.std.specs.List.{flat_map};
ghost use Rattle.cw_bytes.specs.Spelling.{text};
ghost use Rattle.cw_data.specs.Body.{IsShort, entry_bytes};
ghost use Rattle.cw_data.specs.declared.entry.DataEntry.TheVariants.{Batch as InBatch};
ghost use Rattle.cw_model.specs.Bodies.{frame_of};
ghost use Rattle.cw_model.specs.declared.fault.WorldFault.{WorldFault as FaultValue};
ghost use Rattle.cw_model.specs.declared.fault.WorldFault.TheVariants as fault;
ghost use Rattle.cw_rows.specs.Producing.{IsTooLong};

use cw_data::{Batch, DataEntry, write_data};
use cw_model::WorldFault;
use cw_types::{Listed, LogName};
use std::alloc::Global;

// From so many bytes on, values may be too many or too long for the fields that tell their number and length.
const LONG: u64 = 4_294_967_296;

/// A batch that is short enough to be written; no log has room for any other.
pub(crate) fn short_batch(alloc: Global, batch: Batch, bytes: u64) -> Result<Batch, WorldFault>
    ensures batch { IfOk result (λ own. own ≡ batch) }
    ensures short { OnOk result (IsShort (InBatch batch)) }
    ensures long { (why : FaultValue) → result ≡ Err why → why ≢ fault.Memory → IsTooLong batch bytes why }
{
    let Some(size) = texts_size(batch.values.as_slice()) else {
        return Err(WorldFault::Memory);
    };
    if size < LONG {
        return Ok(batch);
    }
    let Some(frame) = frame_size(alloc, batch, size) else {
        return Err(WorldFault::Memory);
    };
    Err(WorldFault::Full {
        log: LogName::Batches,
        length: bytes,
        frame,
    })
}

// How many bytes values have as they are spelled, where that can be told.
fn texts_size(values: &[Listed<u8>]) -> Option<u64>
    ensures { IfSome result (λ size. size ≡ length (flat_map text values.now)) }
{
    let mut size: u64 = 0;
    for value in values {
        let longer = size.checked_add(4)?;
        size = longer.checked_add(value.as_slice().len() as u64)?;
    }
    Some(size)
}

// How many bytes the frame of a batch has, by those of its values, where that can be told.
#[tactic(auto, using(crate::proofs::Cuts::batch_size))]
fn frame_size(alloc: Global, batch: Batch, size: u64) -> Option<u64>
    requires { size ≡ length (flat_map text batch.values) }
    ensures { IfSome result (λ frame. frame ≡ frame_of (entry_bytes (InBatch batch))) }
{
    let rest = size.checked_add(5)?;
    let bytes = size_without_values(alloc, batch)?;
    rest.checked_add(bytes)
}

// How many bytes a batch has without its values, where that can be told.
fn size_without_values(alloc: Global, batch: Batch) -> Option<u64>
    ensures { IfSome result (λ size. size ≡ length (entry_bytes (InBatch (record batch { values = [] })))) }
{
    let mut empty = batch;
    empty.values = Listed::new(Vec::new(alloc));
    match write_data(alloc, &DataEntry::Batch(empty)) {
        Ok(body) => Some(body.len() as u64),
        Err(_) => None,
    }
}
