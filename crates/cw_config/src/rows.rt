//! Rows of a table. A row may be made before it is filled: until then it reads as one that isn't there.
ghost use Rattle.std.specs.Prelude.{◌≡◌, OnOk, IsSome, Some, None, option_copied, if◌then◌else◌};
ghost use Rattle.std.specs.BTreeMap.{get, is_at};
ghost use Rattle.cw_config.specs.Rows.{row_at};

use std::alloc::AllocError;
use std::collections::BTreeMap;

/// What a key's row has.
pub fn row_at<'a, K: Ord, V>(table: &'a BTreeMap<K, Option<V>>, key: &K) -> Option<&'a V>
    ensures { option_copied result ≡ row_at K.cmp table.now key.now }
{
    match table.get(key) {
        None => None,
        Some(row) => row.as_ref(),
    }
}

/// Makes a row without a value for a key that has none.
pub fn make_row<K: Ord + Drop, V: Drop>(
    table: &mut BTreeMap<K, Option<V>>,
    key: K,
) -> Result<(), AllocError>
    requires { get K.cmp table.old key ≡ None }
    ensures same { (q : K) → row_at K.cmp table.new q ≡ row_at K.cmp table.old q }
    ensures kept { (q : K) → IsSome (get K.cmp table.old q) → IsSome (get K.cmp table.new q) }
    ensures there { OnOk result (IsSome (get K.cmp table.new key)) }
{
    table.insert(key, None)?;
    Ok(())
}

/// Fills a row that is there.
pub fn fill_row<K: Ord, V: Drop>(table: &mut BTreeMap<K, Option<V>>, key: &K, value: V)
    requires { IsSome (get K.cmp table.old key.now) }
    ensures { (q : K) → get K.cmp table.new q
        ≡ (if is_at (K.cmp key.now) q then Some (Some value) else get K.cmp table.old q) }
{
    if let Some(row) = table.get_mut(key) {
        *row = Some(value);
    }
}
