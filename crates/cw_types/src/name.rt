//! Names of connectors, feeds, topics and groups.
ghost use Rattle.std.specs.Prelude.{◌≡◌, ◌≢◌, None, Some, IfOk, IfErr, take, position, not, nat_eq, refl};
ghost use Rattle.std.specs.Ordering.{nat_cmp};
ghost use Rattle.std.specs.Cmp.Lexicographic.{pointwise, slice_cmp, nat_list_eq_equiv, nat_list_cmp_total, texts_ties};
ghost use Rattle.std.specs.Cmp.Lexicographic.{texts_po};
ghost use Rattle.std.specs.Cmp.{partial_equiv_from_equiv};
ghost use Rattle.std.specs.Cmp.Rules.{hashing};
ghost use Rattle.std.proofs.Common.{rules};
ghost use Rattle.std.specs.Hash as fed;
ghost use Rattle.cw_types.specs.Name.{is_name_byte, name_fault, name_of, IsName};

use std::alloc::{AllocError, Global};
use std::cmp::Ordering;
use std::hash::{Hash, Hasher};
use std::marker::Model;
use thiserror::Error;

/// A name: 1 to 128 bytes, each from `!` (0x21) to `~` (0x7E). Clauses see its bytes.
#[derive(Debug, Drop)]
pub struct Name {
    held: Held,
}

impl Model for Name {
    ghost use Rattle.std.specs.Prelude.{List, ℕ};
    ghost use Rattle.cw_types.specs.Name.{IsName};
    ghost use Rattle.cw_types.specs.Held.{held_bytes};

    ghost Value = { List ℕ };

    ghost view = { λ a. held_bytes a.held };

    ghost invariant = { λ a. IsName (held_bytes a.held) };
}

// So many bytes lie in the value itself, which is then as large as a `Vec`.
const SHORT: usize = 19;

// Where the bytes of a name are. A short one needs no memory of its own, so that no look-up waits for it.
#[derive(Debug, Drop)]
pub(crate) enum Held {
    Short { length: u8, bytes: [u8; SHORT] },
    Long(Box<Vec<u8>>),
}

impl Held {
    ghost use Rattle.std.specs.Prelude.{◌<◌, length};
    ghost use Rattle.cw_types.specs.Held.{held_bytes};

    fn new(alloc: Global, text: &[u8]) -> Result<Held, AllocError>
        requires { length text.now < 256 }
        ensures { IfOk result (λ held. held_bytes held ≡ text.now) }
    {
        if text.len() > SHORT {
            return Ok(Held::Long(Box::new(alloc, text.to_vec(alloc)?)?));
        }
        let mut bytes = [0; SHORT];
        bytes[..text.len()].copy_from_slice(text);
        Ok(Held::Short {
            length: text.len() as u8,
            bytes,
        })
    }

    fn as_bytes(&self) -> &[u8]
        ensures { result.now ≡ held_bytes self.now }
    {
        match self {
            Held::Short { length, bytes } => first_of(bytes, *length as usize),
            Held::Long(bytes) => bytes.as_slice(),
        }
    }

    fn copy(&self) -> Result<Held, AllocError>
        ensures { IfOk result (λ held. held_bytes held ≡ held_bytes self.now) }
    {
        match self {
            Held::Short { length, bytes } => Ok(Held::Short {
                length: *length,
                bytes: *bytes,
            }),
            Held::Long(bytes) => Ok(Held::Long(bytes.clone()?)),
        }
    }
}

/// Why bytes are no name, the first that holds in this order.
#[derive(Clone, Copy, Debug, PartialEq, Eq, Drop, Error)]
pub enum NameFault {
    /// There is no byte.
    #[error("a name has no byte")]
    Empty,
    /// There are more than 128 bytes.
    #[error("a name has more than 128 bytes")]
    TooLong,
    /// The first byte outside 0x21 to 0x7E has this place, counted from 0.
    #[error("byte {0} of a name is outside 0x21 to 0x7E")]
    BadByte(usize),
    /// There was no memory for the copy.
    #[error("out of memory")]
    Memory,
}

impl From<AllocError> for NameFault {
    ghost use Rattle.cw_types.specs.declared.name.NameFault.TheVariants.{Memory};

    ghost from_gives = { λ _ fault. fault ≡ Memory };

    fn from(_: AllocError) -> NameFault {
        NameFault::Memory
    }
}

fn is_name_byte(byte: u8) -> bool
    ensures { result ≡ is_name_byte byte }
{
    (33..=126).contains(&byte)
}

// The place of the first byte that no name holds.
fn bad_byte(text: &[u8]) -> Option<usize>
    ensures { result ≡ position (λ b. not (is_name_byte b)) text.now }
{
    text.iter().position(|byte| !is_name_byte(*byte))
}

// The first so many bytes, as far as there are so many.
fn first_of(bytes: &[u8], count: usize) -> &[u8]
    ensures { result.now ≡ take count bytes.now }
{
    &bytes[..count.min(bytes.len())]
}

impl Name {
    /// Reads a name from its bytes, or says the first fault that they have.
    pub fn read(alloc: Global, text: &[u8]) -> Result<Name, NameFault>
        ensures ok { IfOk result (λ name. (name ≡ text.now) × IsName text.now) }
        ensures refused { IfErr result (λ fault. fault ≢ NameFault.Memory → name_fault text.now ≡ Some fault) }
    {
        if text.is_empty() {
            return Err(NameFault::Empty);
        }
        if text.len() > 128 {
            return Err(NameFault::TooLong);
        }
        if let Some(at) = bad_byte(text) {
            return Err(NameFault::BadByte(at));
        }
        Ok(Name {
            held: Held::new(alloc, text)?,
        })
    }

    /// The name that bytes are, or none where they have a fault. Want of memory alone is an error.
    pub fn from_bytes(alloc: Global, bytes: &[u8]) -> Result<Option<Name>, AllocError>
        ensures { IfOk result (λ name. name ≡ name_of bytes.now) }
    {
        match Name::read(alloc, bytes) {
            Ok(name) => Ok(Some(name)),
            Err(NameFault::Memory) => Err(AllocError),
            Err(_) => Ok(None),
        }
    }

    /// The bytes.
    pub fn as_bytes(&self) -> &[u8]
        ensures bytes { result.now ≡ self.now }
        ensures name { IsName self.now }
    {
        self.held.as_bytes()
    }

    /// A copy.
    pub fn copy(&self) -> Result<Self, AllocError>
        ensures { IfOk result (λ name. name ≡ self.now) }
    {
        Ok(Name {
            held: self.held.copy()?,
        })
    }
}

impl PartialEq for Name {
    ghost eq = { pointwise nat_eq };

    ghost laws = { partial_equiv_from_equiv nat_list_eq_equiv };

    fn eq(&self, other: &Name) -> bool {
        self.as_bytes() == other.as_bytes()
    }
}

impl Eq for Name {
    ghost laws = { nat_list_eq_equiv };
}

impl Hash for Name {
    ghost hash_input = { λ name. fed.slice fed.u8 name };

    ghost respects_eq = { Prim.search (hashing, rules) };

    fn hash<H: Hasher>(&self, state: &mut H) {
        self.as_bytes().hash(state);
    }
}

impl PartialOrd for Name {
    ghost partial_cmp = { λ x y. Some (slice_cmp nat_cmp x y) };

    ghost laws = { texts_po };

    fn partial_cmp(&self, other: &Name) -> Option<Ordering> {
        Some(self.cmp(other))
    }
}

impl Ord for Name {
    ghost cmp = { slice_cmp nat_cmp };

    ghost total = { nat_list_cmp_total };

    ghost matches_partial_cmp = { λ x y. refl };

    ghost matches_eq = { texts_ties };

    fn cmp(&self, other: &Name) -> Ordering {
        self.as_bytes().cmp(other.as_bytes())
    }
}

#[cfg(test)]
mod tests {
    use super::*;
    use std::test::Fail;

    #[test]
    fn short_and_long_names_are_read_and_copied(rt: HostRuntime) -> Result<(), Fail> {
        let long = [b'a'; 128];
        for text in [b"a-1".as_slice(), &long[..19], &long[..20], &long] {
            let name = Name::read(rt.alloc(), text)?;
            assert_eq!(rt; name.as_bytes(), text);
            assert!(rt; name.copy()? == name);
            assert!(rt; Name::from_bytes(rt.alloc(), text)? == Some(name));
        }
        assert!(rt; Name::from_bytes(rt.alloc(), b"a b")?.is_none());
        Ok(())
    }
}
