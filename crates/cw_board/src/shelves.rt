//! What is published: each worker's config state, and how far the history is in them.
ghost use Rattle.std.specs.Prelude.{◌≡◌, ◌<◌, ◌∷◌, [], length, map, replicate, Some, slice_get};
ghost use Rattle.std.specs.Prelude.{IfOk, OnOk, OnErr, MatchResult};
ghost use Rattle.cw_board.specs.Shelving.{added, add_at};
ghost use Rattle.cw_board.specs.Posting.{behind};

use crate::history::Front;
use crate::posted::Posted;
use crate::shelf::Shelf;
use cw_bytes::Applied;
use left_right::Absorb;
use std::alloc::{AllocError, Global};
use std::marker::Model;

/// Each worker's config state. Contracts see their records, and the beginning of the history that they are.
#[derive(Drop)]
pub struct Shelves {
    shelves: Vec<Shelf>,
    front: Front,
}

impl Model for Shelves {
    ghost use Rattle.std.specs.Prelude.{map};
    ghost use Rattle.cw_board.specs.Shelving.{Shelved};

    ghost Value = { Shelved };

    ghost view = { λ s. record {
      book = s.front.book;
      log = s.front.log;
      shelved = map (λ shelf. shelf.config) s.shelves.items;
    } };
}

// The states of so many workers, with no record.
fn empty_shelves(alloc: Global, workers: u32) -> Result<Vec<Shelf>, AllocError>
    ensures { IfOk result (λ made. map (λ shelf. shelf.config) made.items ≡ replicate workers []) }
{
    let mut shelves = Vec::new(alloc);
    for _worker in 0..workers {
        shelves.push(Shelf::new(alloc))?;
    }
    Ok(shelves)
}

// Adds a record to a worker's state.
fn add_to(shelves: &mut Vec<Shelf>, worker: u32, applied: &Applied) -> Result<(), AllocError>
    ensures { MatchResult result
        (λ _. map (λ shelf. shelf.config) shelves.new.items
        ≡ add_at worker (added applied.now) (map (λ shelf. shelf.config) shelves.old.items))
        (λ _. map (λ shelf. shelf.config) shelves.new.items ≡ map (λ shelf. shelf.config) shelves.old.items) }
{
    let worker = worker as usize;
    if worker >= shelves.len() {
        return Err(AllocError);
    }
    shelves[worker].add(applied)
}

impl Shelves {
    /// With no record.
    pub fn new(alloc: Global, front: Front, workers: u32) -> Result<Shelves, AllocError>
        ensures { IfOk result (λ made. made ≡
            record { book = front.book; log = front.log; shelved = replicate workers [] }) }
    {
        let shelves = empty_shelves(alloc, workers)?;
        Ok(Shelves { shelves, front })
    }

    /// All records that they have.
    pub fn front(&self) -> Front
        ensures { result ≡ record { book = self.now.book; log = self.now.log } }
    {
        self.front.again()
    }

    /// A worker's state.
    pub fn shelf(&self, worker: u32) -> &Shelf
        requires { worker < length self.now.shelved }
        ensures { slice_get self.now.shelved worker ≡ Some result.now.config }
    {
        &self.shelves[worker as usize]
    }

    // Adds the record of a post.
    fn take(&mut self, post: &Post) -> Result<(), AllocError>
        ensures { MatchResult result (λ _. self.new ≡ behind self.old post.now) (λ _. self.new ≡ self.old) }
    {
        add_to(&mut self.shelves, post.posted.worker, &post.posted.applied)?;
        self.front = post.front.again();
        Ok(())
    }
}

/// A record that was put, and the history up to it.
#[derive(Drop)]
pub struct Post {
    pub posted: Posted,
    pub front: Front,
}

impl Absorb<Post> for Shelves {
    type State = Shelves;

    ghost state = { λ shelves. shelves };

    ghost applied = { behind };

    fn absorb_first(&mut self, operation: &Post, _other: &Shelves) -> Result<(), AllocError> {
        self.take(operation)
    }
}
