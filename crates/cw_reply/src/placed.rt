//! Parts in the order of their partitions' texts.
ghost use Rattle.std.specs.Prelude.{◌≡◌, ◌<◌, ◌^◌, All, IfOk, OnOk, refl};
ghost use Rattle.std.specs.Ordering.{as_partial_cmp, eq_by_cmp};
ghost use Rattle.std.specs.Cmp.{po, partial_equiv_from_equiv};
ghost use Rattle.std.proofs.lemmas.Cmp.{eq_by_cmp_equiv};
ghost use Rattle.cw_types.specs.Name.{IsName};
ghost use Rattle.cw_keys.specs.Parts.{IsPart};
ghost use Rattle.cw_reply.specs.Placed.{in_order, placed_cmp, placed_of, placed_total, with_part};

use crate::alteration::is_of_type;
use crate::offset::partition_value;
use cw_types::{Listed, Name, PartKey};
use std::alloc::{AllocError, Global};
use std::cmp::Ordering;
use std::collections::BTreeSet;

// A part with its partition's text, which tells its place.
#[derive(Drop)]
pub(crate) struct Placed {
    pub(crate) text: Listed<u8>,
    pub(crate) part: PartKey,
}

impl Placed {
    // Of a part.
    fn of(alloc: Global, part: &PartKey) -> Result<Placed, AllocError>
        ensures { IfOk result (λ placed. placed ≡ placed_of part.now) }
    {
        let partition = partition_value(alloc, part)?;
        Ok(Placed {
            text: Listed::new(partition.to_vec(alloc)?),
            part: part.copy()?,
        })
    }
}

// The law of every name. It does nothing at run time.
fn is_name(name: &Name)
    ensures { IsName name.now }
{
    let _ = name.as_bytes();
}

// The law of every index. It does nothing at run time.
fn is_index(index: u32)
    ensures { index < 2 ^ 32 }
{
    let _ = index;
}

// The law of every part: its names are names. It does nothing at run time.
fn is_part(part: &PartKey)
    ensures { IsPart part.now }
{
    match part {
        PartKey::Raw(_) => {}
        PartKey::File { connector, feed } => {
            is_name(connector);
            is_name(feed);
        }
        PartKey::Seq { connector, index } => {
            is_name(connector);
            is_index(*index);
        }
        PartKey::Sink { connector, topic } => {
            is_name(connector);
            is_name(topic);
        }
    }
}

// A part is put into its place, where it is one of a connector's type.
fn put(
    alloc: Global,
    is_source: bool,
    placed: &mut BTreeSet<Placed>,
    part: &PartKey,
) -> Result<(), AllocError>
    ensures { OnOk result (placed.new.keys ≡ with_part is_source placed.old.keys part.now) }
{
    if !is_of_type(is_source, part) {
        return Ok(());
    }
    placed.insert(Placed::of(alloc, part)?)?;
    Ok(())
}

// The parts of a type, each in its place.
pub(crate) fn in_order(
    alloc: Global,
    is_source: bool,
    parts: &[PartKey],
) -> Result<BTreeSet<Placed>, AllocError>
    ensures keys { IfOk result (λ placed. placed.keys ≡ in_order is_source parts.now) }
    ensures parts { OnOk result (All IsPart parts.now) }
{
    let mut placed = BTreeSet::new(alloc);
    for part in parts {
        is_part(part);
        put(alloc, is_source, &mut placed, part)?;
    }
    Ok(placed)
}

impl PartialEq for Placed {
    ghost eq = { eq_by_cmp placed_cmp };

    ghost laws = { partial_equiv_from_equiv (eq_by_cmp_equiv placed_total) };

    fn eq(&self, other: &Placed) -> bool {
        self.cmp(other).is_eq()
    }
}

impl Eq for Placed {
    ghost laws = { eq_by_cmp_equiv placed_total };
}

impl PartialOrd for Placed {
    ghost partial_cmp = { as_partial_cmp placed_cmp };

    ghost laws = { po placed_total (λ a b. refl) };

    fn partial_cmp(&self, other: &Placed) -> Option<Ordering> {
        Some(self.cmp(other))
    }
}

impl Ord for Placed {
    ghost cmp = { placed_cmp };

    ghost total = { placed_total };

    ghost matches_partial_cmp = { λ a b. refl };

    ghost matches_eq = { λ a b. refl };

    fn cmp(&self, other: &Placed) -> Ordering {
        self.text.as_slice().cmp(other.text.as_slice())
    }
}
