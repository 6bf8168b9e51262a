//! What waits under a transaction.
ghost use Rattle.std.specs.Prelude.{◌≡◌, Some, None, is_none, if◌then◌else◌};
ghost use Rattle.std.specs.BTreeMap.{get, is_at};
ghost use Rattle.cw_types.specs.declared.ids.PartKey.{PartKey};
ghost use Rattle.cw_types.specs.Same.{part_order};

use cw_tables::{set_row, value_at};
use cw_types::PartKey;
use std::alloc::Global;
use std::collections::BTreeMap;

/// What is committed or put of a part: its offset, and the place of the call that says it.
#[derive(Clone, Copy, Debug, PartialEq, Eq, Drop)]
pub struct Settled {
    /// The place among all calls.
    pub place: u64,
    /// The offset; none where the part begins anew.
    pub to: Option<u64>,
}

/// What waits under a transaction: the last put of each part. What stands before the place of its first call
/// that waits is past, and all is where there is none.
#[derive(Drop)]
pub struct Under {
    pub first: Option<u64>,
    pub parts: BTreeMap<PartKey, Option<Settled>>,
}

impl Under {
    ghost use Rattle.cw_offset.specs.Rows.{value_at, waits_in, begun, ended, HasPart};

    /// With nothing that waits.
    pub fn new(alloc: Global) -> Under
        ensures first { result.first ≡ None }
        ensures parts { (part : PartKey) → get part_order result.parts part ≡ None }
    {
        Under {
            first: None,
            parts: BTreeMap::new(alloc),
        }
    }

    /// The put of a part that waits.
    pub fn put_of(&self, part: &PartKey) -> Option<Settled>
        ensures { result ≡ waits_in self.now part.now }
    {
        let first = self.first?;
        let put = value_at(&self.parts, part, None)?;
        if first <= put.place { Some(put) } else { None }
    }

    /// The transaction waits from a place on, unless it does so already. Whether it begins to there.
    pub fn begin(&mut self, place: u64) -> bool
        ensures begun { self.new ≡ begun place self.old }
        ensures begins { result ≡ is_none self.old.first }
    {
        match self.first {
            Some(_) => false,
            None => {
                self.first = Some(place);
                true
            }
        }
    }

    /// One put more, of a part that has a row.
    pub fn put(&mut self, place: u64, part: &PartKey, to: u64)
        requires { HasPart self.old.parts part.now }
        ensures first { self.new.first ≡ self.old.first }
        ensures parts { (q : PartKey) → get part_order self.new.parts q
            ≡ (if is_at (part_order part.now) q then Some (Some (value_at place (Some to)))
            else get part_order self.old.parts q) }
    {
        let put = Settled {
            place,
            to: Some(to),
        };
        set_row(&mut self.parts, part, Some(put));
    }

    /// Nothing waits any more. It gives the place from which on something did.
    pub fn end(&mut self) -> Option<u64>
        ensures ended { self.new ≡ ended self.old }
        ensures first { result ≡ self.old.first }
    {
        let first = self.first;
        self.first = None;
        first
    }
}
