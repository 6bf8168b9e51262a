//! The leader plans for what is configured (KIP-415).
ghost use Rattle.std.specs.Prelude.{◌≡◌, ◌<◌, ◌∷◌, length, map, IfOk};
ghost use Rattle.std.specs.List.{flat_map, range_with_len};
ghost use Rattle.std.specs.List.Sorted.{IsStrictlySortedBy};
ghost use Rattle.cw_types.specs.Order.{item_cmp};
ghost use Rattle.cw_model.specs.EventsGroups.{store_plan};
ghost use Rattle.cw_model.specs.Lookups.{items_of, configured_items};
ghost use Rattle.cw_types.specs.declared.ids.Item.TheVariants.{Connector};
ghost use Rattle.cw_rows.specs.Kept.{IsOrWants};
ghost use Rattle.cw_rows.specs.Planning.{task_of};

use crate::cluster::Cluster;
use cw_assign::ItemSet;
use cw_config::ConfigState;
use cw_group::GroupFault;
use cw_model::WorldFault;
use cw_types::{Item, Name, TaskId};
use std::alloc::{AllocError, Global};

impl Cluster {
    /// The leader plans, and each member gets its share; a delay that has run out ends.
    pub fn store_plan(&mut self, w: u32) -> Result<(), WorldFault>
        requires { w < length self.old.state.rows }
        ensures { IsOrWants (store_plan w) self.old self.new result }
    {
        self.test_worker(w)?;
        let Ok(items) = configured_items(self.topics.configs()) else {
            return Err(WorldFault::Memory);
        };
        match self.circle.store_plan(self.alloc, w, items.as_slice()) {
            Ok(()) => Ok(()),
            Err(GroupFault::Memory) => Err(WorldFault::Memory),
            Err(fault) => Err(WorldFault::Group(fault)),
        }
    }
}

/// The configured connectors' items, in item order. Its only error is want of memory.
#[tactic(auto, using(crate::proofs::Planned::listed_items))]
pub fn configured_items(configs: &ConfigState) -> Result<Vec<Item>, AllocError>
    ensures items { IfOk result (λ items. items.items ≡ configured_items configs.now) }
    ensures rising { IfOk result (λ items. IsStrictlySortedBy item_cmp items.items) }
{
    let names = configs.connectors()?;
    let alloc = *names.allocator();
    let items = items_of(alloc, configs, names.as_slice())?;
    let set = ItemSet::of(alloc, items.as_slice())?;
    let items = set.into_items(alloc)?;
    Ok(items)
}

// The items of some connectors.
fn items_of(alloc: Global, configs: &ConfigState, names: &[Name]) -> Result<Vec<Item>, AllocError>
    ensures { IfOk result (λ items. items.items ≡ flat_map (items_of configs.now) names.now) }
{
    let mut items = Vec::new(alloc);
    for name in names {
        let mut own = items_of_one(alloc, name, configs.task_count(name))?;
        items.append(&mut own)?;
    }
    Ok(items)
}

// A connector, and its tasks below a count.
fn items_of_one(alloc: Global, name: &Name, count: u32) -> Result<Vec<Item>, AllocError>
    ensures { IfOk result (λ items. items.items ≡
        Connector name.now ∷ map (task_of name.now) (range_with_len 0 count)) }
{
    let mut items = Vec::new(alloc);
    items.push(Item::Connector(name.copy()?))?;
    let mut tasks = tasks_below(alloc, name, count)?;
    items.append(&mut tasks)?;
    Ok(items)
}

// The tasks of a connector below a count.
fn tasks_below(alloc: Global, name: &Name, count: u32) -> Result<Vec<Item>, AllocError>
    ensures { IfOk result (λ tasks. tasks.items ≡ map (task_of name.now) (range_with_len 0 count)) }
{
    let mut tasks = Vec::new(alloc);
    for index in 0..count {
        tasks.push(Item::Task(TaskId {
            connector: name.copy()?,
            index,
        }))?;
    }
    Ok(tasks)
}
