//! The numbers of what a worker runs.
ghost use Rattle.std.specs.Prelude.{◌≡◌, ◌==◌, ◌++◌, ◌∷◌, [], not, ℕ, ◌<◌, slice_index_or, OnOk};
ghost use Rattle.std.specs.List.{filter};
ghost use Rattle.cw_model.specs.Lookups.{no_instance};
ghost use Rattle.cw_model.specs.Phases.{is_ended};

use cw_model::{Instance, InstancePhase};
use std::alloc::{AllocError, Global};
use std::marker::Model;

/// Numbers of instances. Clauses see the list.
#[derive(Drop)]
pub(crate) struct Numbers {
    items: Vec<u64>,
}

impl Model for Numbers {
    ghost use Rattle.std.specs.Prelude.{List, ℕ};

    ghost Value = { List ℕ };

    ghost view = { λ a. a.items.items };
}

impl Numbers {
    /// None.
    pub(crate) fn new(alloc: Global) -> Numbers
        ensures { result ≡ [] }
    {
        Numbers {
            items: Vec::new(alloc),
        }
    }

    /// The numbers.
    pub(crate) fn as_slice(&self) -> &[u64]
        ensures { result.now ≡ self.now }
    {
        self.items.as_slice()
    }

    /// One more.
    pub(crate) fn push(&mut self, number: u64) -> Result<(), AllocError>
        ensures ok { OnOk result (self.new ≡ self.old ++ number ∷ []) }
        ensures err { OnErr result (self.new ≡ self.old) }
    {
        self.items.push(number)?;
        Ok(())
    }

    /// All but one.
    pub(crate) fn remove(&mut self, number: u64)
        ensures { self.new ≡ filter (λ n. not (n == number)) self.old }
    {
        self.items.retain(|n| *n != number);
    }

    /// Those of instances that haven't ended.
    pub(crate) fn keep_running(&mut self, instances: &[Instance])
        ensures { self.new ≡
            filter (λ n. not (is_ended (slice_index_or instances.now n no_instance).phase)) self.old }
    {
        self.items.retain(|n| runs(instances, *n));
    }

    /// None any more.
    pub(crate) fn clear(&mut self)
        ensures { self.new ≡ [] }
    {
        self.items.clear();
    }
}

ghost use Rattle.std.specs.Prelude.{OnErr};

// Whether an instance hasn't ended; one that isn't there has.
fn runs(instances: &[Instance], number: u64) -> bool
    ensures { result ≡ not (is_ended (slice_index_or instances.now number no_instance).phase) }
{
    match instances.get(number as usize) {
        Some(instance) => instance.phase != InstancePhase::Ended,
        None => false,
    }
}
