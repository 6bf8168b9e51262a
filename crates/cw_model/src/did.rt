//! What a task's step did.
use cw_types::{Name, Span};

/// What a task's step did: the event of its phase, or why there was none.
#[derive(Debug, Drop)]
pub enum Did {
    /// It got this epoch.
    Init(u64),
    /// Its generation, which is this, is the newest and fenced.
    Verify(u64),
    /// It has its positions.
    Fetch,
    /// It wrote the records of this span.
    Produce(Span),
    /// It stored an offset.
    Offsets,
    /// It committed this span.
    Commit(Span),
    /// It handed out the records of a topic between two offsets.
    Deliver {
        /// The topic.
        topic: Name,
        /// The position at which they begin.
        from: u64,
        /// The position behind the last of them.
        to: u64,
    },
    /// There is nothing to take.
    AtEnd,
    /// Its connector is paused.
    Paused,
    /// Its generation isn't the newest, or it isn't one of that generation.
    Stale {
        /// Its generation.
        own: u64,
        /// The newest.
        current: u64,
    },
    /// The producers of older tasks aren't all fenced yet.
    Pending,
    /// Its epoch isn't its producer's last, so that it failed.
    Fenced {
        /// Its epoch.
        own: u64,
        /// The producer's last.
        current: u64,
    },
    /// A line, which begins here, is too long, so that it failed.
    LineTooLong(u64),
    /// It had ended.
    Gone,
    /// It had failed.
    Failed,
}
