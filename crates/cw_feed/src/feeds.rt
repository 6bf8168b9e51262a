//! The feeds that sources read.
ghost use Rattle.std.specs.Prelude.{◌≡◌, ◌≤◌, ◌<◌, ◌^◌, ◌++◌, ◌∷◌, [], ◌↔◌, length, map, Some, IfOk, OnOk, IsTrue};
ghost use Rattle.std.specs.List.{AllByRecursion};
ghost use Rattle.cw_types.specs.Faults.{Rose};
ghost use Rattle.cw_io.specs.Shelf.{Files, names_of, AreRising};
ghost use Rattle.cw_feed.specs.Feeds.{feed_of, IsOfSource};
ghost use Rattle.cw_feed.specs.Yield.{HasYield, Yield};
ghost use Rattle.cw_feed.specs.Cut.{next_cut};

use crate::cut::{CutAnswer, cut_of_feed, cut_of_sequence};
use crate::yields::{ends_line, lines_between, records_between};
use cw_io::{Shelf, ShelfFault};
use cw_types::{Listed, Name, PartKey};
use std::alloc::{AllocError, Global};
use std::marker::Model;

/// The feeds that file sources read, as a shelf had them when they were loaded. Clauses see them as pairs of
/// a name and its bytes, in the order of the names.
#[derive(Drop)]
pub struct Feeds {
    alloc: Global,
    names: Vec<Name>,
    contents: Vec<Listed<u8>>,
}

impl Model for Feeds {
    ghost use Rattle.std.specs.Prelude.{◌≡◌, length};
    ghost use Rattle.std.specs.List.{zip};
    ghost use Rattle.cw_io.specs.Shelf.{Files, AreRising};

    ghost Value = { Files };

    ghost view = { λ f. zip f.names.items f.contents.items };

    ghost invariant = { λ f. (length f.contents.items ≡ length f.names.items) × AreRising f.names.items };
}

impl Feeds {
    /// Loads every feed of a shelf.
    pub fn load<H: Shelf>(alloc: Global, shelf: &mut H) -> Result<Feeds, ShelfFault>
        ensures loaded { IfOk result (λ feeds. (held : Files) → H.files shelf.old ≡ Some held → feeds ≡ held) }
        ensures kept { H.files shelf.new ≡ H.files shelf.old }
        ensures later { H.faults shelf.old ≤ H.faults shelf.new }
        ensures rose { result ≡ Err ShelfFault.Failed → Rose (H.faults shelf.old) (H.faults shelf.new) }
    {
        let names = shelf.names()?;
        let mut contents = Vec::new(alloc);
        for name in &names {
            add(&mut contents, shelf.load(name)?)?;
        }
        Ok(Feeds {
            alloc,
            names,
            contents,
        })
    }

    /// The names of the feeds, in the order of their bytes.
    pub fn names(&self) -> &[Name]
        ensures names { result.now ≡ names_of self.now }
        ensures rising { AreRising (names_of self.now) }
    {
        self.names.as_slice()
    }

    /// The law of every feed: its length fits into 64 bits. It does nothing but look at each.
    pub fn are_short(&self)
        ensures { AllByRecursion (λ feed. length feed.1 < 2 ^ 64) self.now }
    {
        for content in &self.contents {
            let _ = content.as_slice().len();
        }
    }

    /// Where a poll of a part cuts that begins at `from` and takes at most `max` records. A sequence has
    /// `count` records; of a feed `count` says nothing. A missing feed is empty, and behind its end a feed is at
    /// its end. It takes no memory.
    pub fn next_cut(&self, part: &PartKey, count: u64, from: u64, max: u32) -> CutAnswer
        requires part { IsOfSource part.now }
        requires some { 0 < max }
        ensures { result ≡ next_cut self.now part.now count from max }
    {
        match part {
            PartKey::File { feed, .. } => cut_of_feed(self.bytes_of(feed), from, max),
            PartKey::Seq { .. } => cut_of_sequence(count, from, max),
            _ => CutAnswer::AtEnd,
        }
    }

    /// Whether a part yields something between two positions: of a feed, whether the bytes between are whole
    /// lines behind the first position, if there are any.
    pub fn has_yield(&self, part: &PartKey, from: u64, to: u64) -> bool
        ensures { IsTrue result ↔ HasYield self.now part.now from to }
    {
        match part {
            PartKey::File { feed, .. } => ends_line(self.bytes_of(feed), from, to),
            PartKey::Seq { .. } => from <= to,
            _ => false,
        }
    }

    /// What a part yields between two positions: of a feed, the bytes between cut at each `\n`; of a sequence
    /// the texts `<index>-<k>`.
    pub fn yield_of(&self, part: &PartKey, from: u64, to: u64) -> Result<Vec<Vec<u8>>, AllocError>
        requires { HasYield self.now part.now from to }
        ensures { IfOk result (λ records. Yield self.now part.now from to (map (λ text. text.items) records.items)) }
    {
        match part {
            PartKey::File { feed, .. } => lines_between(self.alloc, self.bytes_of(feed), from, to),
            PartKey::Seq { index, .. } => records_between(self.alloc, *index, from, to),
            _ => Ok(Vec::new(self.alloc)),
        }
    }

    // The bytes of a feed, none where it is missing.
    fn bytes_of(&self, feed: &Name) -> &[u8]
        ensures { result.now ≡ feed_of feed.now self.now }
    {
        match self.names.binary_search(feed) {
            Ok(at) => self.contents[at].as_slice(),
            Err(_) => &[],
        }
    }
}

// One more content.
fn add(contents: &mut Vec<Listed<u8>>, bytes: Vec<u8>) -> Result<(), AllocError>
    ensures { OnOk result (contents.new.items ≡ contents.old.items ++ bytes.items ∷ []) }
{
    contents.push(Listed::new(bytes))?;
    Ok(())
}
