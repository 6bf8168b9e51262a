//! Classes of items, and sets of items.
ghost use Rattle.std.specs.Prelude.{◌≡◌, ◌||◌, [], IfOk, OnOk};
ghost use Rattle.cw_types.specs.declared.ids.Item.{Item};
ghost use Rattle.std.specs.List.{fold, IsDistinct};
ghost use Rattle.std.specs.List.Sorted.{IsStrictlySortedBy};
ghost use Rattle.std.specs.BTreeSet.{insert_key};
ghost use Rattle.cw_types.specs.Order.{item_cmp};
ghost use Rattle.cw_assign.specs.Items.{is_of, has, same_item, in_order};

use cw_types::Item;
use std::alloc::{AllocError, Global};
use std::collections::BTreeSet;
use std::marker::Model;

/// A class of items. Each is planned apart from the other.
#[derive(Clone, Copy, Debug, PartialEq, Eq, Drop)]
pub enum Kind {
    /// The connectors themselves.
    Connectors,
    /// Their tasks.
    Tasks,
}

impl Kind {
    /// Whether an item is of this class.
    pub(crate) fn is_of(self, item: &Item) -> bool
        ensures { result ≡ is_of self item.now }
    {
        match (self, item) {
            (Kind::Connectors, Item::Connector(_)) => true,
            (Kind::Connectors, Item::Task(_)) => false,
            (Kind::Tasks, Item::Connector(_)) => false,
            (Kind::Tasks, Item::Task(_)) => true,
        }
    }
}

/// Items in their order, each once. Clauses see the list.
#[derive(Drop)]
pub struct ItemSet {
    items: BTreeSet<Item>,
}

impl Model for ItemSet {
    ghost use Rattle.std.specs.Prelude.{List};
    ghost use Rattle.cw_types.specs.declared.ids.Item.{Item};

    ghost Value = { List Item };

    ghost view = { λ a. a.items.keys };
}

impl ItemSet {
    /// With no item.
    pub fn new(alloc: Global) -> ItemSet
        ensures { result ≡ [] }
    {
        ItemSet {
            items: BTreeSet::new(alloc),
        }
    }

    /// With these items.
    pub fn of(alloc: Global, items: &[Item]) -> Result<ItemSet, AllocError>
        ensures has { IfOk result (λ set. (x : Item) → has set x ≡ has items.now x) }
        ensures items { IfOk result (λ set. set ≡ in_order items.now) }
    {
        let mut set = ItemSet::new(alloc);
        set.add(items)?;
        Ok(set)
    }

    /// Whether an item is in it.
    pub fn has(&self, item: &Item) -> bool
        ensures { result ≡ has self.now item.now }
    {
        self.items.contains(item)
    }

    /// Adds items.
    pub fn add(&mut self, items: &[Item]) -> Result<(), AllocError>
        ensures has { OnOk result ((x : Item) → has self.new x ≡ (has self.old x || has items.now x)) }
        ensures items { OnOk result (self.new ≡ fold (insert_key item_cmp) self.old items.now) }
    {
        for item in items {
            self.insert(item.copy()?)?;
        }
        Ok(())
    }

    // Adds an item.
    fn insert(&mut self, item: Item) -> Result<(), AllocError>
        ensures has { OnOk result ((x : Item) → has self.new x ≡ (has self.old x || same_item x item)) }
        ensures items { OnOk result (self.new ≡ insert_key item_cmp self.old item) }
    {
        self.items.insert(item)?;
        Ok(())
    }

    /// The items in their order, each once.
    #[tactic(auto, using(crate::proofs::ItemLemmas::once_rising))]
    pub fn into_items(self, alloc: Global) -> Result<Vec<Item>, AllocError>
        ensures items { IfOk result (λ items. items.items ≡ self) }
        ensures rising { IfOk result (λ items. IsStrictlySortedBy item_cmp items.items) }
        ensures once { IfOk result (λ items. IsDistinct same_item items.items) }
    {
        let items = self.collected(alloc)?;
        Ok(items)
    }

    fn collected(self, alloc: Global) -> Result<Vec<Item>, AllocError>
        ensures items { IfOk result (λ items. items.items ≡ self) }
        ensures rising { IfOk result (λ items. IsStrictlySortedBy item_cmp items.items) }
    {
        let _ = self.items.len();
        self.items.into_iter().collect(alloc)
    }
}
