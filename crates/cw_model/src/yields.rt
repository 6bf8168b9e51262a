//! What a task writes for a cut is what its feeds yield.
ghost use Rattle.std.specs.Prelude.{ℕ};
ghost use Rattle.cw_types.specs.declared.ids.PartKey.{PartKey};
ghost use Rattle.cw_io.specs.Shelf.{Files};
ghost use Rattle.cw_feed.specs.Yield.{HasYield, Yield};
ghost use Rattle.cw_model.specs.Tasks.{yielded};

use cw_feed::yields_are_one;

/// Where a part yields something between two positions, that is what a task writes for them.
pub fn what_is_yielded_is_the_feeds_yield()
    ensures { (feeds : Files) (part : PartKey) (from to : ℕ) →
        HasYield feeds part from to → Yield feeds part from to (yielded feeds part from to) }
{
    yields_are_one()
}
