//! The last record of each key.
ghost use Rattle.std.specs.Prelude.{◌≡◌, ◌++◌, ◌∷◌, [], OnOk, nat_le};
ghost use Rattle.cw_bytes.specs.Frames.{next_after, is_last};
ghost use Rattle.cw_compact.specs.Lasts.{higher, stays};

use cw_bytes::Applied;
use cw_types::Past;
use std::alloc::{AllocError, Global};
use std::collections::BTreeMap;
use std::marker::Model;

/// Records that were looked at, one behind the other. Clauses see their list; of each key the offset of the last one
/// is kept.
#[derive(Drop)]
pub struct Lasts {
    offsets: BTreeMap<Vec<u8>, u64>,
    highest: Option<u64>,
    records: Past<Applied>,
}

impl Model for Lasts {
    ghost use Rattle.std.specs.Prelude.{List};
    ghost use Rattle.cw_bytes.specs.declared.applied.Applied.{Applied};
    ghost use Rattle.cw_compact.specs.Lasts.{AreLasts};

    ghost Value = { List Applied };

    ghost view = { λ a. a.records.items };

    ghost invariant = { λ a. AreLasts a.offsets a.highest a.records.items };
}

impl Lasts {
    /// No record.
    pub fn new(alloc: Global) -> Lasts
        ensures { result ≡ [] }
    {
        Lasts {
            offsets: BTreeMap::new(alloc),
            highest: None,
            records: Past::new(),
        }
    }

    /// One record more.
    pub fn note(&mut self, written: &Applied) -> Result<(), AllocError>
        ensures { OnOk result (self.new ≡ self.old ++ written.now ∷ []) }
    {
        let key = written.key.copy()?.into_vec();
        self.offsets.insert(key, written.offset)?;
        self.highest = higher(self.highest, written.offset);
        self.records = self.records.and(written);
        Ok(())
    }

    /// Whether a record stands behind all of them, or is the last one of its key among them.
    pub fn keeps(&self, written: &Applied) -> bool
        ensures { result ≡ stays self.now written.now }
    {
        self.are_before(written.offset) || self.has_last(written)
    }

    // Whether an offset is above all of theirs.
    fn are_before(&self, offset: u64) -> bool
        ensures { result ≡ nat_le (next_after self.now) offset }
    {
        match self.highest {
            Some(highest) => highest < offset,
            None => true,
        }
    }

    // Whether a record is the last one of its key.
    fn has_last(&self, written: &Applied) -> bool
        ensures { result ≡ is_last self.now written.now }
    {
        match self.offsets.get(written.key.as_slice()) {
            Some(offset) => *offset == written.offset,
            None => false,
        }
    }
}

/// The higher one of offsets.
pub fn higher(most: Option<u64>, offset: u64) -> Option<u64>
    ensures { result ≡ higher most offset }
{
    match most {
        Some(most) => Some(most.max(offset)),
        None => Some(offset),
    }
}
