//! What a worker runs of an item, and what was reported of that.
ghost use Rattle.std.specs.Prelude.{◌≡◌, ◌<◌, length, map, Some, slice_index_or, option_copied};
ghost use Rattle.std.specs.List.{find, fold, AllByRecursion};
ghost use Rattle.cw_assign.specs.Items.{same_item};
ghost use Rattle.cw_model.specs.Lookups.{no_instance};
ghost use Rattle.cw_rows.specs.Crew.{change_at, numbers_at};
ghost use Rattle.cw_rows.specs.Statuses.{reporting, with_reports};
ghost use Rattle.cw_model.specs.EventsReports.{is_item_at};

use crate::crew::{Crew, is_of};
use cw_keys::State;
use cw_model::Instance;
use cw_types::Item;

impl Crew {
    /// The numbers of the instances that a worker runs.
    pub fn numbers(&self, w: u32) -> &[u64]
        requires { w < length self.now.rows }
        ensures { result.now ≡ numbers_at w self.now.instances }
    {
        self.runs[w as usize].as_slice()
    }

    /// What a worker runs of an item: the first such instance.
    pub fn running(&self, w: u32, item: &Item) -> Option<&Instance>
        requires { w < length self.now.rows }
        ensures { option_copied result ≡ find (is_item_at w item.now) self.now.instances }
    {
        first_of(&self.instances, self.runs[w as usize].as_slice(), item)
    }

    /// The state of what a worker runs of an item counts as reported.
    pub fn report(&mut self, w: u32, item: &Item, state: State)
        requires { w < length self.old.rows }
        ensures { self.new ≡ with_reports w item.now state self.old }
    {
        report_among(
            &mut self.instances,
            self.runs[w as usize].as_slice(),
            item,
            state,
        );
    }
}

// The first of these instances that is of an item.
fn first_of<'a>(instances: &'a [Instance], numbers: &[u64], item: &Item) -> Option<&'a Instance>
    requires { AllByRecursion (λ n. n < length instances.now) numbers.now }
    ensures { option_copied result ≡ find (λ i. same_item i.item item.now)
        (map (λ n. slice_index_or instances.now n no_instance) numbers.now) }
{
    for number in numbers {
        let instance = &instances[*number as usize];
        if is_of(instance, item) {
            return Some(instance);
        }
    }
    None
}

// The state of the instances of these numbers that are of an item counts as reported.
fn report_among(instances: &mut Vec<Instance>, numbers: &[u64], item: &Item, state: State)
    requires { AllByRecursion (λ n. n < length instances.old.items) numbers.now }
    ensures { instances.new.items ≡ fold (change_at (λ i. same_item i.item item.now) (reporting state) no_instance)
        instances.old.items numbers.now }
{
    for number in numbers {
        report_if(instances, *number as usize, item, state);
    }
}

// The state of the instance at a place counts as reported where it is of an item.
fn report_if(instances: &mut Vec<Instance>, at: usize, item: &Item, state: State)
    requires { at < length instances.old.items }
    ensures { instances.new.items ≡
        change_at (λ i. same_item i.item item.now) (reporting state) no_instance instances.old.items at }
{
    if is_of(&instances[at], item) {
        instances[at].reported = Some(state);
    }
}
