//! Properties: keys and values, each a text.
ghost use Rattle.std.specs.Prelude.{◌≡◌, [], IfOk, OnOk, OnErr, count_by, option_map};
ghost use Rattle.std.specs.Ordering.{nat_cmp, is_lt};
ghost use Rattle.std.specs.Cmp.Lexicographic.{slice_cmp};
ghost use Rattle.cw_json.specs.Rising.{IsRising};
ghost use Rattle.cw_json.specs.Inserting.{with_value};
ghost use Rattle.cw_json.specs.Pairs.{value_in};

use crate::text::Text;
use std::alloc::{AllocError, Global};
use std::marker::Model;

/// The properties of a connector or a task: pairs of a key and its value, the keys rising by bytes.
/// Clauses see the list of pairs.
#[derive(Debug, Drop)]
pub struct Props {
    pairs: Vec<(Text, Text)>,
}

impl Model for Props {
    ghost use Rattle.std.specs.Prelude.{List, ℕ};
    ghost use Rattle.cw_json.specs.Rising.{IsRising};

    ghost Value = { List (List ℕ × List ℕ) };

    ghost view = { λ a. a.pairs.items };

    ghost invariant = { λ a. IsRising a.pairs.items };
}

impl Props {
    /// No properties.
    pub fn empty(alloc: Global) -> Props
        ensures { result ≡ [] }
    {
        Props {
            pairs: Vec::new(alloc),
        }
    }

    /// The properties of these pairs, whose keys rise.
    pub fn new(pairs: Vec<(Text, Text)>) -> Props
        requires { IsRising pairs.items }
        ensures { result ≡ pairs.items }
    {
        Props { pairs }
    }

    /// The pairs, the keys rising by bytes.
    pub fn as_slice(&self) -> &[(Text, Text)]
        ensures pairs { result.now ≡ self.now }
        ensures rising { IsRising self.now }
    {
        self.pairs.as_slice()
    }

    /// Gives the pairs back.
    pub fn into_vec(self) -> Vec<(Text, Text)>
        ensures { result.items ≡ self }
    {
        self.pairs
    }

    /// The value of a key, if it has one.
    pub fn get(&self, key: &str) -> Option<&Text>
        ensures { option_map (λ value. value.now) result ≡ value_in self.now key.now }
    {
        for (name, value) in &self.pairs {
            if name.as_str() == key {
                return Some(value);
            }
        }
        None
    }

    /// Sets the value of a key: in place of the one that it has, or at the key's place among the others. After
    /// want of memory the properties are as they were.
    pub fn insert(&mut self, key: Text, value: Text) -> Result<(), AllocError>
        ensures ok { OnOk result (self.new ≡ with_value key value self.old) }
        ensures err { OnErr result (self.new ≡ self.old) }
    {
        let at = lesser(&self.pairs, key.as_str());
        if self.get(key.as_str()).is_some() {
            self.pairs[at] = (key, value);
            return Ok(());
        }
        self.pairs.insert(at, (key, value))?;
        Ok(())
    }

    /// A copy.
    pub fn copy(&self) -> Result<Self, AllocError>
        ensures { IfOk result (λ props. props ≡ self.now) }
    {
        let mut pairs = Vec::new(*self.pairs.allocator());
        for (key, value) in &self.pairs {
            pairs.push((key.copy()?, value.copy()?))?;
        }
        Ok(Props { pairs })
    }
}

fn is_below(name: &Text, key: &str) -> bool
    ensures { result ≡ is_lt (slice_cmp nat_cmp name.now key.now) }
{
    name.as_str().as_bytes().cmp(key.as_bytes()).is_lt()
}

// How many keys stand below a key.
fn lesser(pairs: &[(Text, Text)], key: &str) -> usize
    ensures { result ≡ count_by (λ p. is_lt (slice_cmp nat_cmp p.0 key.now)) pairs.now }
{
    pairs.iter().filter(|pair| is_below(&pair.0, key)).count()
}
