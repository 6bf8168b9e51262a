//! The last status of each item, so that no look-up walks the records.
ghost use Rattle.std.specs.Prelude.{◌≡◌, ◌++◌, ◌∷◌, [], OnOk, OnErr, IsOk, IsSome, Some, None, unwrap_or};
ghost use Rattle.std.specs.Prelude.{option_copied, if◌then◌else◌};
ghost use Rattle.std.specs.BTreeMap.{get};
ghost use Rattle.cw_types.specs.declared.ids.Item.{Item};
ghost use Rattle.cw_status.specs.Statuses.{is_item};
ghost use Rattle.cw_status.specs.Table.{status_at, HasRow};

use crate::record::StatusRecord;
use cw_keys::StatusValue;
use cw_types::{Item, Past};
use std::alloc::AllocError;
use std::collections::BTreeMap;

/// The last status of an item.
pub fn status_at<'a>(
    latest: &'a BTreeMap<Item, Option<StatusValue>>,
    item: &Item,
) -> Option<&'a StatusValue>
    ensures { option_copied result ≡ status_at latest.now item.now }
{
    match latest.get(item) {
        None => None,
        Some(row) => row.as_ref(),
    }
}

/// A row of an item, which reads as none where it is new.
pub fn make_row(
    latest: &mut BTreeMap<Item, Option<StatusValue>>,
    item: &Item,
) -> Result<(), AllocError>
    ensures same { (q : Item) → status_at latest.new q ≡ status_at latest.old q }
    ensures kept { (q : Item) → HasRow latest.old q → HasRow latest.new q }
    ensures there { OnOk result (HasRow latest.new item.now) }
{
    if latest.contains_key(item) {
        return Ok(());
    }
    add_row(latest, item.copy()?)
}

// A row that reads as none.
fn add_row<K: Ord + Drop, V: Drop>(
    table: &mut BTreeMap<K, Option<V>>,
    key: K,
) -> Result<(), AllocError>
    requires { get K.cmp table.old key ≡ None }
    ensures same { (q : K) → unwrap_or (get K.cmp table.new q) None ≡ unwrap_or (get K.cmp table.old q) None }
    ensures kept { (q : K) → IsSome (get K.cmp table.old q) → IsSome (get K.cmp table.new q) }
    ensures there { OnOk result (IsSome (get K.cmp table.new key)) }
{
    table.insert(key, None)?;
    Ok(())
}

/// One record more: its status is its item's last. It takes no memory where the item has a row.
pub fn put(
    latest: &mut BTreeMap<Item, Option<StatusValue>>,
    applied: &mut Past<StatusRecord>,
    last: StatusRecord,
) -> Result<(), AllocError>
    ensures applied { OnOk result (applied.new.items ≡ applied.old.items ++ last ∷ []) }
    ensures set { OnOk result ((q : Item) →
        status_at latest.new q ≡ (if is_item last.item q then Some last.value else status_at latest.old q)) }
    ensures kept { (q : Item) → HasRow latest.old q → HasRow latest.new q }
    ensures same { OnErr result ((q : Item) → status_at latest.new q ≡ status_at latest.old q) }
    ensures err { OnErr result (applied.new.items ≡ applied.old.items) }
    ensures there { HasRow latest.old last.item → IsOk result }
{
    let more = applied.and(&last);
    latest.insert(last.item, Some(last.value))?;
    *applied = more;
    Ok(())
}

/// The same where the item has a row.
pub fn put_made(
    latest: &mut BTreeMap<Item, Option<StatusValue>>,
    applied: &mut Past<StatusRecord>,
    last: StatusRecord,
)
    requires { HasRow latest.old last.item }
    ensures applied { applied.new.items ≡ applied.old.items ++ last ∷ [] }
    ensures set { (q : Item) → status_at latest.new q
        ≡ (if is_item last.item q then Some last.value else status_at latest.old q) }
    ensures kept { (q : Item) → HasRow latest.old q → HasRow latest.new q }
{
    if put(latest, applied, last).is_err() {
        unreachable!();
    }
}
