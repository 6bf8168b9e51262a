//! Whether the feeds agree with what was committed of them.
ghost use Rattle.std.specs.Prelude.{◌↔◌, IsTrue, IfOk, [], ◌∷◌};
ghost use Rattle.cw_feed.specs.Feeds.{IsOfSource};
ghost use Rattle.cw_feed.specs.Yield.{HasYield, Yield};
ghost use Rattle.cw_model.specs.Committed.{Agrees, BatchAgrees};

use crate::batches::listed;
use crate::cluster::Cluster;
use cw_data::{Batch, DataEntry, same_values};
use cw_feed::{Feeds, yields_are_one};
use cw_txn::Coordinator;
use cw_types::PartKey;
use std::alloc::{AllocError, Global};

impl Cluster {
    /// Whether each committed batch of a source's part is what the feeds yield from its begin to its end. It walks the
    /// whole data log.
    pub fn agrees(&self) -> Result<bool, AllocError>
        ensures { IfOk result (λ agrees. IsTrue agrees ↔
            Agrees self.now.setting.feeds self.now.state.entries self.now.state.batches) }
    {
        log_agrees(
            self.alloc,
            &self.feeds,
            self.topics.coordinator(),
            self.topics.data().entries(),
        )
    }
}

// Whether each entry agrees.
fn log_agrees(
    alloc: Global,
    feeds: &Feeds,
    coordinator: &Coordinator,
    log: &[DataEntry],
) -> Result<bool, AllocError>
    ensures { IfOk result (λ agrees. IsTrue agrees ↔ Agrees feeds.now coordinator.now.entries log.now) }
{
    for entry in log {
        if !entry_agrees(alloc, feeds, coordinator, entry)? {
            return Ok(false);
        }
    }
    Ok(true)
}

// Whether an entry agrees; a marker does.
fn entry_agrees(
    alloc: Global,
    feeds: &Feeds,
    coordinator: &Coordinator,
    entry: &DataEntry,
) -> Result<bool, AllocError>
    ensures { IfOk result (λ agrees. IsTrue agrees ↔ Agrees feeds.now coordinator.now.entries (entry.now ∷ [])) }
{
    match entry {
        DataEntry::Batch(batch) => {
            let agrees = batch_agrees(alloc, feeds, coordinator, batch)?;
            Ok(agrees)
        }
        DataEntry::Mark { .. } => Ok(true),
    }
}

// Whether a batch agrees.
fn batch_agrees(
    alloc: Global,
    feeds: &Feeds,
    coordinator: &Coordinator,
    batch: &Batch,
) -> Result<bool, AllocError>
    ensures { IfOk result (λ agrees. IsTrue agrees ↔ BatchAgrees feeds.now coordinator.now.entries batch.now) }
{
    if !is_of_source(&batch.part) {
        return Ok(true);
    }
    if !coordinator.is_committed(&batch.tag) {
        return Ok(true);
    }
    let agrees = is_yield(alloc, feeds, batch)?;
    Ok(agrees)
}

// Whether a batch is what the feeds yield.
fn is_yield(alloc: Global, feeds: &Feeds, batch: &Batch) -> Result<bool, AllocError>
    ensures { IfOk result (λ is. IsTrue is ↔
        Yield feeds.now batch.now.part batch.now.from batch.now.to batch.now.values) }
{
    yields_are_one();
    if !feeds.has_yield(&batch.part, batch.from, batch.to) {
        return Ok(false);
    }
    let texts = feeds.yield_of(&batch.part, batch.from, batch.to)?;
    let values = listed(alloc, texts)?;
    Ok(same_values(values.as_slice(), batch.values.as_slice()))
}

// Whether a part is one of a source.
fn is_of_source(part: &PartKey) -> bool
    ensures { IsTrue result ↔ IsOfSource part.now }
{
    match part {
        PartKey::File { .. } | PartKey::Seq { .. } => true,
        PartKey::Raw(_) | PartKey::Sink { .. } => false,
    }
}
