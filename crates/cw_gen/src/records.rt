//! Counts committed records.
ghost use Rattle.std.specs.Prelude.{◌≡◌, ◌<◌, ◌^◌, length};
ghost use Rattle.std.specs.List.{count_by};
ghost use Rattle.cw_data.specs.Log.{records, records_in};
ghost use Rattle.cw_txn.specs.Legal.{is_committed};
ghost use Rattle.cw_gen.specs.Counts.{committed_count};

use cw_data::{Batch, DataEntry, DataState};
use cw_txn::Coordinator;
use cw_types::Name;

/// How many records of a topic are committed. Each batch costs one look-up of its transaction.
pub(crate) fn count_records(state: &DataState, txn: &Coordinator, topic: &Name) -> u64
    ensures { result ≡ committed_count topic.now txn.now.entries state.now.entries }
{
    // All of them are below the topic's end, which is a u64.
    let _end = state.end(topic);
    count_in(state.entries(), txn, topic)
}

// The same of these entries.
fn count_in(entries: &[DataEntry], txn: &Coordinator, topic: &Name) -> u64
    requires few { length (records topic.now entries.now) < 2 ^ 64 }
    ensures { result ≡ committed_count topic.now txn.now.entries entries.now }
{
    let mut count = 0;
    for entry in entries {
        count += count_of(entry, txn, topic);
    }
    count
}

// How many an entry adds.
fn count_of(entry: &DataEntry, txn: &Coordinator, topic: &Name) -> u64
    ensures { result ≡ count_by (λ r. is_committed r.tag txn.now.entries) (records_in topic.now entry.now) }
{
    match entry {
        DataEntry::Batch(batch) => count_of_batch(batch, txn, topic),
        DataEntry::Mark { .. } => 0,
    }
}

// How many a batch adds.
fn count_of_batch(batch: &Batch, txn: &Coordinator, topic: &Name) -> u64
    ensures { result ≡ count_by (λ r. is_committed r.tag txn.now.entries)
        (records_in topic.now (DataEntry.Batch batch.now)) }
{
    if topic.as_bytes() != batch.topic.as_bytes() {
        return 0;
    }
    if txn.is_committed(&batch.tag) {
        return batch.values.as_slice().len() as u64;
    }
    0
}
