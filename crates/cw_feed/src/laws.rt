//! Laws of cuts and yields.
ghost use Rattle.std.specs.Prelude.{◌≡◌, ◌<◌, ◌++◌, ℕ, List};
ghost use Rattle.cw_types.specs.declared.ids.PartKey.{PartKey};
ghost use Rattle.cw_types.specs.declared.ids.PartKey.TheVariants.{File};
ghost use Rattle.cw_io.specs.Shelf.{Files};
ghost use Rattle.cw_feed.specs.declared.cut.CutAnswer.TheVariants.{Cut};
ghost use Rattle.cw_feed.specs.Yield.{HasYield, Yield};
ghost use Rattle.cw_feed.specs.Feeds.{feed_of};
ghost use Rattle.cw_feed.specs.Cut.{next_cut, TakesMost};

/// A cut goes on, and a part yields something up to it.
pub fn cuts_have_yields()
    ensures further { (feeds : Files) (part : PartKey) (count from max to : ℕ) → 0 < max →
        next_cut feeds part count from max ≡ Cut to → from < to }
    ensures yields { (feeds : Files) (part : PartKey) (count from max to : ℕ) → 0 < max →
        next_cut feeds part count from max ≡ Cut to → HasYield feeds part from to }
{}

/// The lines that a cut of a feed takes are the most that it may take.
pub fn cuts_are_most()
    ensures { (feeds : Files) (connector feed : List ℕ) (count from max to : ℕ) → 0 < max →
        next_cut feeds (File connector feed) count from max ≡ Cut to → TakesMost (feed_of feed feeds) from max to }
{}

/// There is a yield exactly where [`Feeds::has_yield`] says so, and no other.
///
/// [`Feeds::has_yield`]: crate::Feeds::has_yield
pub fn yields_are_one()
    ensures exist { (feeds : Files) (part : PartKey) (from to : ℕ) → HasYield feeds part from to →
        (records : List (List ℕ)) × Yield feeds part from to records }
    ensures there { (feeds : Files) (part : PartKey) (from to : ℕ) (records : List (List ℕ)) →
        Yield feeds part from to records → HasYield feeds part from to }
    ensures one { (feeds : Files) (part : PartKey) (from to : ℕ) (records others : List (List ℕ)) →
        Yield feeds part from to records → Yield feeds part from to others → records ≡ others }
{}

/// Two yields one behind the other are one yield.
pub fn yields_are_joined()
    ensures { (feeds : Files) (part : PartKey) (from middle to : ℕ) (records more : List (List ℕ)) →
        Yield feeds part from middle records → Yield feeds part middle to more →
        Yield feeds part from to (records ++ more) }
{}
