//! Each call once with ample memory.

use cw_tables::{has_row, make_row, set_row, value_at};
use std::collections::BTreeMap;
use std::test::Fail;

#[test]
fn rows_read_as_missing_ones_until_they_are_set(rt: HostRuntime) -> Result<(), Fail> {
    let mut table: BTreeMap<u32, u64> = BTreeMap::new(rt.alloc());
    assert!(rt; !has_row(&table, &7));
    make_row(&mut table, 7, 3)?;
    assert!(rt; has_row(&table, &7));
    assert_eq!(rt; value_at(&table, &7, 3), 3);
    assert!(rt; has_row(&table, &7));
    set_row(&mut table, &7, 5);
    assert_eq!(rt; value_at(&table, &7, 3), 5);
    assert_eq!(rt; value_at(&table, &8, 3), 3);
    Ok(())
}
