//! What a line of a script asks for.
ghost use Rattle.std.specs.Prelude.{◌≡◌, IfOk};

use cw_types::{Listed, LogName, Name};
use std::alloc::AllocError;

/// A part of a producer's stream, and the position up to which a commit moves it.
#[derive(Clone, Copy, Debug, PartialEq, Eq, Drop)]
pub struct PartEnd {
    /// The part's number.
    pub part: u32,
    /// The position behind the last record that the commit covers.
    pub to: u64,
}

/// What a line asks for. Workers and instances are numbered from 0 in the order in which they began.
#[derive(Debug, Drop)]
pub enum Directive {
    /// `init N`: a new epoch for the producer N (KIP-98, InitProducerId).
    Init(u32),
    /// `commit N E P TO ..`: the producer N commits under the epoch E; 1 to 16 parts, none of them twice.
    Commit {
        /// The producer's number.
        id: u32,
        /// The epoch that it holds.
        epoch: u64,
        /// The parts, each with its new end.
        pairs: Listed<PartEnd>,
    },
    /// `spawn`: a new worker.
    Spawn,
    /// `kill W`: the worker stops at once.
    Kill(u64),
    /// `deaf W`: the worker hears the group no longer.
    Deaf(u64),
    /// `hear W`: the worker hears the group again.
    Hear(u64),
    /// `expire W`: the group takes the worker for dead.
    Expire(u64),
    /// `clock MS`: the time is at least so many milliseconds.
    Clock(u64),
    /// `tick W`: the worker's herder does the next thing.
    Tick(u64),
    /// `step I`: the instance does the next thing.
    Step(u64),
    /// `settle MAX`: workers and instances take turns until all are quiet or 1 to 1,000,000 turns counted.
    Settle(u64),
    /// `rest W METHOD TARGET` and a body up to the line's end: a request to the worker.
    Rest {
        /// The worker.
        worker: u64,
        /// The method, with no space.
        method: Listed<u8>,
        /// The target, with no space.
        target: Listed<u8>,
        /// The body, any bytes.
        body: Listed<u8>,
    },
    /// `held W`: the items that the worker holds.
    Held(u64),
    /// `member W`: the worker's id in the group.
    Member(u64),
    /// `take TOPIC FROM`: the first committed record of the topic at an offset or behind it.
    Take {
        /// The topic.
        topic: Name,
        /// The offset.
        from: u64,
    },
    /// `compact LOG`: the log, `config`, `offsets` or `status`, is compacted.
    Compact(LogName),
}

impl Directive {
    /// A copy.
    pub fn copy(&self) -> Result<Self, AllocError>
        ensures { IfOk result (λ directive. directive ≡ self.now) }
    {
        match self {
            Directive::Init(id) => Ok(Directive::Init(*id)),
            Directive::Commit { id, epoch, pairs } => Ok(Directive::Commit {
                id: *id,
                epoch: *epoch,
                pairs: pairs.copy()?,
            }),
            Directive::Spawn => Ok(Directive::Spawn),
            Directive::Kill(worker) => Ok(Directive::Kill(*worker)),
            Directive::Deaf(worker) => Ok(Directive::Deaf(*worker)),
            Directive::Hear(worker) => Ok(Directive::Hear(*worker)),
            Directive::Expire(worker) => Ok(Directive::Expire(*worker)),
            Directive::Clock(moment) => Ok(Directive::Clock(*moment)),
            Directive::Tick(worker) => Ok(Directive::Tick(*worker)),
            Directive::Step(instance) => Ok(Directive::Step(*instance)),
            Directive::Settle(most) => Ok(Directive::Settle(*most)),
            Directive::Rest {
                worker,
                method,
                target,
                body,
            } => Ok(Directive::Rest {
                worker: *worker,
                method: method.copy()?,
                target: target.copy()?,
                body: body.copy()?,
            }),
            Directive::Held(worker) => Ok(Directive::Held(*worker)),
            Directive::Member(worker) => Ok(Directive::Member(*worker)),
            Directive::Take { topic, from } => Ok(Directive::Take {
                topic: topic.copy()?,
                from: *from,
            }),
            Directive::Compact(log) => Ok(Directive::Compact(*log)),
        }
    }
}
