//! The transactions that a walk has passed.
ghost use Rattle.std.specs.Prelude.{◌≡◌, ◌++◌, ◌∷◌, [], OnOk};
ghost use Rattle.std.specs.List.{list_any};
ghost use Rattle.cw_types.specs.Same.{same_tag};

use cw_types::{Past, Tag};
use std::alloc::{AllocError, Global};
use std::collections::BTreeMap;
use std::marker::Model;

/// Transactions, in the order in which they were passed. Which they are is asked of a table.
#[derive(Drop)]
pub(crate) struct Tags {
    rows: BTreeMap<Tag, bool>,
    passed: Past<Tag>,
}

impl Model for Tags {
    ghost use Rattle.std.specs.Prelude.{List};
    ghost use Rattle.cw_types.specs.declared.ids.Tag.{Tag};

    ghost Value = { List Tag };

    ghost use Rattle.cw_open.specs.Tables.{HasTags};

    ghost view = { λ a. a.passed.items };

    ghost invariant = { λ a. HasTags a.rows a.passed.items };
}

impl Tags {
    /// None.
    pub(crate) fn new(alloc: Global) -> Tags
        ensures { result ≡ [] }
    {
        Tags {
            rows: BTreeMap::new(alloc),
            passed: Past::new(),
        }
    }

    /// Whether a transaction is one of them.
    pub(crate) fn has(&self, tag: &Tag) -> bool
        ensures { result ≡ list_any (same_tag tag.now) self.now }
    {
        self.rows.contains_key(tag)
    }

    /// One more.
    pub(crate) fn add(&mut self, tag: &Tag) -> Result<(), AllocError>
        ensures { OnOk result (self.new ≡ self.old ++ tag.now ∷ []) }
    {
        self.rows.insert(tag.copy()?, true)?;
        self.passed = self.passed.and(tag);
        Ok(())
    }
}
