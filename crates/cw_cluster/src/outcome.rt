//! What a directive came to.
use cw_model::{Did, Tick};
use cw_route::Reply;
use cw_types::{Epoch, Item, Listed, LogName, Span};

/// What a directive of a script came to, as its answer tells it. Workers and instances go by the numbers that the
/// script gives them.
#[derive(Drop)]
pub enum Outcome {
    /// A producer has this epoch (KIP-98, InitProducerId).
    Epoch(Epoch),
    /// A producer committed these spans.
    Committed(Listed<Span>),
    /// There is a new worker.
    Spawned(u32),
    /// The worker was killed.
    Killed(u32),
    /// The worker hears the group no longer.
    Deaf(u32),
    /// The worker hears the group again.
    Hears(u32),
    /// The group let the worker go.
    Expired(u32),
    /// It is so many milliseconds.
    Clock(u64),
    /// The worker's herder did this.
    Tick(u32, Tick),
    /// The instance did this.
    Step(u64, Did),
    /// Whether all is quiet, and how often something moved.
    Settled {
        /// Whether nothing is left to do.
        quiet: bool,
        /// How many turns moved something.
        moved: u64,
    },
    /// A request is answered so.
    Replied(Reply),
    /// The worker holds these items.
    Held(u32, Listed<Item>),
    /// The group knows the worker as the member with this incarnation, or doesn't know it.
    Member(u32, Option<u64>),
    /// A committed record and its offset.
    Record {
        /// The offset.
        offset: u64,
        /// The record's value.
        value: Listed<u8>,
    },
    /// There is no such record.
    NoRecord,
    /// A log was compacted.
    Compacted {
        /// The log.
        log: LogName,
        /// How many records it had.
        before: u64,
        /// How many it has.
        after: u64,
    },
}
