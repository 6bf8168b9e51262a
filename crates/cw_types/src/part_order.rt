//! The order of parts as keys of a table.
ghost use Rattle.std.specs.Prelude.{◌≡◌, refl};
ghost use Rattle.std.specs.Ordering.{as_partial_cmp};
ghost use Rattle.std.specs.Cmp.{po};
ghost use Rattle.cw_types.specs.PartOrder.{owner, kind, label, number, part_cmp, part_total, part_ties};

use crate::ids::PartKey;
use std::cmp::Ordering;

/// Scripts' parts come first, and each connector's parts stand side by side, by kind and then by name or number.
impl Ord for PartKey {
    ghost cmp = { part_cmp };

    ghost total = { part_total };

    ghost matches_partial_cmp = { λ a b. refl };

    ghost matches_eq = { part_ties };

    fn cmp(&self, other: &PartKey) -> Ordering {
        if let (PartKey::Raw(a), PartKey::Raw(b)) = (self, other) {
            return a.cmp(b);
        }
        owner(self)
            .cmp(owner(other))
            .then(kind(self).cmp(&kind(other)))
            .then(label(self).cmp(label(other)))
            .then(number(self).cmp(&number(other)))
    }
}

impl PartialOrd for PartKey {
    ghost partial_cmp = { as_partial_cmp part_cmp };

    ghost laws = { po part_total part_ties };

    fn partial_cmp(&self, other: &PartKey) -> Option<Ordering> {
        Some(self.cmp(other))
    }
}

fn owner(part: &PartKey) -> &[u8]
    ensures { result.now ≡ owner part.now }
{
    match part {
        PartKey::Raw(_) => &[],
        PartKey::File { connector, .. } => connector.as_bytes(),
        PartKey::Seq { connector, .. } => connector.as_bytes(),
        PartKey::Sink { connector, .. } => connector.as_bytes(),
    }
}

fn kind(part: &PartKey) -> u8
    ensures { result ≡ kind part.now }
{
    match part {
        PartKey::Raw(_) => 0,
        PartKey::Seq { .. } => 1,
        PartKey::File { .. } => 2,
        PartKey::Sink { .. } => 3,
    }
}

fn label(part: &PartKey) -> &[u8]
    ensures { result.now ≡ label part.now }
{
    match part {
        PartKey::Raw(_) => &[],
        PartKey::File { feed, .. } => feed.as_bytes(),
        PartKey::Seq { .. } => &[],
        PartKey::Sink { topic, .. } => topic.as_bytes(),
    }
}

fn number(part: &PartKey) -> u32
    ensures { result ≡ number part.now }
{
    match part {
        PartKey::Raw(number) => *number,
        PartKey::File { .. } => 0,
        PartKey::Seq { index, .. } => *index,
        PartKey::Sink { .. } => 0,
    }
}
