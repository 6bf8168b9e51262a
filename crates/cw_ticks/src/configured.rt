//! What is configured, as a worker has read.
ghost use Rattle.std.specs.Prelude.{◌≡◌};
ghost use Rattle.cw_assign.specs.Items.{same_item};
ghost use Rattle.cw_model.specs.Lookups.{is_configured};

use cw_config::ConfigState;
use cw_types::{Item, order_of_items};

/// Whether two items are the same.
pub(crate) fn is_same(item: &Item, other: &Item) -> bool
    ensures { result ≡ same_item item.now other.now }
{
    order_of_items(item, other).is_eq()
}

/// Whether an item is configured: its connector is, and a task's number is below the count.
pub(crate) fn is_configured(read: &ConfigState, item: &Item) -> bool
    ensures { result ≡ is_configured read.now item.now }
{
    match item {
        Item::Connector(name) => read.config(name).is_some(),
        Item::Task(id) => {
            read.config(&id.connector).is_some() && id.index < read.task_count(&id.connector)
        }
    }
}
