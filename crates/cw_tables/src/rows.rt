//! The rows of a table.
ghost use Rattle.std.specs.Prelude.{◌≡◌, OnOk, IsSome, Some, None, unwrap_or, if◌then◌else◌, IsTrue, ◌↔◌};
ghost use Rattle.std.specs.BTreeMap.{get, is_at, BTreeMap};

use std::alloc::AllocError;
use std::collections::BTreeMap;

/// What the table says of a key: its row's value, or the one of a missing row.
pub fn value_at<K: Ord, V: Copy>(table: &BTreeMap<K, V>, key: &K, missing: V) -> V
    ensures { result ≡ unwrap_or (get K.cmp table.now key.now) missing }
{
    table.get(key).copied().unwrap_or(missing)
}

/// Whether the key has a row.
pub fn has_row<K: Ord, V>(table: &BTreeMap<K, V>, key: &K) -> bool
    ensures { IsTrue result ↔ IsSome (get K.cmp table.now key.now) }
{
    table.contains_key(key)
}

/// Makes a row for a key that has none. It reads as a missing one, so that the table reads as before.
pub fn make_row<K: Ord + Drop, V: Copy>(
    table: &mut BTreeMap<K, V>,
    key: K,
    missing: V,
) -> Result<(), AllocError>
    requires { get K.cmp table.old key ≡ None }
    ensures same { (q : K) → unwrap_or (get K.cmp table.new q) missing ≡ unwrap_or (get K.cmp table.old q) missing }
    ensures kept { (q : K) → IsSome (get K.cmp table.old q) → IsSome (get K.cmp table.new q) }
    ensures there { OnOk result (IsSome (get K.cmp table.new key)) }
{
    table.insert(key, missing)?;
    Ok(())
}

/// Sets a new value in a row that is there.
pub fn set_row<K: Ord, V: Copy>(table: &mut BTreeMap<K, V>, key: &K, value: V)
    requires { IsSome (get K.cmp table.old key.now) }
    ensures { (q : K) → get K.cmp table.new q ≡
        (if is_at (K.cmp key.now) q then Some value else get K.cmp table.old q) }
{
    if let Some(place) = table.get_mut(key) {
        *place = value;
    }
}
