//! Calls that change offsets.
ghost use Rattle.std.specs.Prelude.{◌≡◌, ◌↔◌, IfOk, IsTrue};
ghost use Rattle.cw_offset.specs.Tables.{call_of};

use cw_types::{PartKey, Tag};
use std::alloc::AllocError;

/// A call that changes what is committed of parts.
#[derive(Debug, Drop)]
pub enum OffsetCall {
    /// A transaction's records stand in the log, behind those of all that were told of before.
    Stand(Tag),
    /// An offset record was stored under a transaction, and waits for its mark.
    Put {
        /// The transaction.
        tag: Tag,
        /// The part.
        part: PartKey,
        /// Its offset.
        to: u64,
    },
    /// A transaction is committed: what waits under it takes effect, at its own place.
    Commit(Tag),
    /// A transaction is aborted: what waits under it never takes effect.
    Abort(Tag),
    /// A user set the offset of a part (KIP-875).
    Set {
        /// The part.
        part: PartKey,
        /// Its offset; with none the part begins anew.
        to: Option<u64>,
    },
}

/// A call that is borrowed in parts.
#[derive(Debug, Clone, Copy, Drop)]
pub enum CallRef<'a> {
    /// As `OffsetCall::Stand`.
    Stand(&'a Tag),
    /// As `OffsetCall::Put`.
    Put {
        /// The transaction.
        tag: &'a Tag,
        /// The part.
        part: &'a PartKey,
        /// Its offset.
        to: u64,
    },
    /// As `OffsetCall::Commit`.
    Commit(&'a Tag),
    /// As `OffsetCall::Abort`.
    Abort(&'a Tag),
    /// As `OffsetCall::Set`.
    Set {
        /// The part.
        part: &'a PartKey,
        /// Its offset.
        to: Option<u64>,
    },
}

impl CallRef<'_> {
    /// The call, copied.
    pub fn to_call(&self) -> Result<OffsetCall, AllocError>
        ensures { IfOk result (λ call. call ≡ call_of self.now) }
    {
        match self {
            CallRef::Stand(tag) => Ok(OffsetCall::Stand(tag.copy()?)),
            CallRef::Put { tag, part, to } => Ok(OffsetCall::Put {
                tag: tag.copy()?,
                part: part.copy()?,
                to: *to,
            }),
            CallRef::Commit(tag) => Ok(OffsetCall::Commit(tag.copy()?)),
            CallRef::Abort(tag) => Ok(OffsetCall::Abort(tag.copy()?)),
            CallRef::Set { part, to } => Ok(OffsetCall::Set {
                part: part.copy()?,
                to: *to,
            }),
        }
    }

    /// Whether it is this call.
    pub fn is(&self, call: &OffsetCall) -> bool
        ensures { IsTrue result ↔ (call.now ≡ call_of self.now) }
    {
        match (self, call) {
            (CallRef::Stand(tag), OffsetCall::Stand(other)) => same_tags(tag, other),
            (
                CallRef::Put { tag, part, to },
                OffsetCall::Put {
                    tag: other,
                    part: of,
                    to: place,
                },
            ) => same_tags(tag, other) && same_parts(part, of) && *to == *place,
            (CallRef::Commit(tag), OffsetCall::Commit(other)) => same_tags(tag, other),
            (CallRef::Abort(tag), OffsetCall::Abort(other)) => same_tags(tag, other),
            (
                CallRef::Set { part, to },
                OffsetCall::Set {
                    part: of,
                    to: place,
                },
            ) => { same_parts(part, of) && same_offsets(*to, *place) }
            _ => false,
        }
    }
}

fn same_tags(a: &Tag, b: &Tag) -> bool
    ensures { IsTrue result ↔ (b.now ≡ a.now) }
{
    a == b
}

fn same_parts(a: &PartKey, b: &PartKey) -> bool
    ensures { IsTrue result ↔ (b.now ≡ a.now) }
{
    a == b
}

fn same_offsets(a: Option<u64>, b: Option<u64>) -> bool
    ensures { IsTrue result ↔ (b ≡ a) }
{
    a == b
}
