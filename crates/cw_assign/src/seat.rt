//! A member's seat, at which its hand of a class is dealt.
ghost use Rattle.std.specs.Prelude.{◌≡◌, ◌<◌, ◌≤◌, ℕ, [], ◌∷◌, ◌++◌, OnOk, length, slice_index_or};
ghost use Rattle.cw_assign.specs.Plan.{Hand, load_of, give};

use cw_types::Item;
use std::alloc::{AllocError, Global};
use std::marker::Model;
use std::mem;

/// A member's hand: what it keeps of a class, and what it is newly given of it.
#[derive(Drop)]
pub(crate) struct Seat {
    kept: Vec<Item>,
    fresh: Vec<Item>,
}

impl Model for Seat {
    ghost use Rattle.cw_assign.specs.Plan.{Hand};

    ghost Value = { Hand };

    ghost view = { λ a. record { kept = a.kept.items; fresh = a.fresh.items } };
}

impl Seat {
    /// With what is kept.
    pub(crate) fn new(alloc: Global, kept: Vec<Item>) -> Seat
        ensures { result ≡ record { kept = kept.items; fresh = [] } }
    {
        Seat {
            kept,
            fresh: Vec::new(alloc),
        }
    }

    // How many items it has.
    fn load(&self) -> usize
        ensures { result ≡ load_of self.now }
    {
        self.kept.len() + self.fresh.len()
    }

    // Gives it an item.
    fn take(&mut self, item: Item) -> Result<(), AllocError>
        ensures { OnOk result (self.new ≡ record { kept = self.old.kept; fresh = self.old.fresh ++ item ∷ [] }) }
    {
        self.fresh.push(item)?;
        Ok(())
    }

    /// Leaves an empty hand, and answers this one.
    pub(crate) fn cleared(&mut self, alloc: Global) -> Seat
        ensures { result ≡ self.old }
    {
        mem::replace(self, Seat::new(alloc, Vec::new(alloc)))
    }

    /// What it kept, and what it was given.
    pub(crate) fn into_items(self) -> (Vec<Item>, Vec<Item>)
        ensures kept { result.0.items ≡ self.kept }
        ensures fresh { result.1.items ≡ self.fresh }
    {
        (self.kept, self.fresh)
    }
}

/// Gives an item to the seat with the least load, of several to the first.
pub(crate) fn give(seats: &mut [Seat], item: Item) -> Result<(), AllocError>
    requires { 0 < length seats.old }
    ensures { OnOk result (seats.new ≡ give seats.old item) }
{
    let at = least(seats);
    seats[at].take(item)?;
    Ok(())
}

// The first seat with the least load.
fn least(seats: &[Seat]) -> usize
    requires { 0 < length seats.now }
    ensures within { result < length seats.now }
    ensures least { (k : ℕ) (d : Hand) → k < length seats.now →
        load_of (slice_index_or seats.now result d) ≤ load_of (slice_index_or seats.now k d) }
    ensures first { (k : ℕ) (d : Hand) → k < result →
        load_of (slice_index_or seats.now result d) < load_of (slice_index_or seats.now k d) }
{
    let mut best = 0;
    for at in 1..seats.len() {
        if seats[at].load() < seats[best].load() {
            best = at;
        }
    }
    best
}
