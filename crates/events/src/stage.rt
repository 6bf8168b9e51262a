//! The one world that the lines are about, and how it is opened.
use crate::disks::{empty_disks, images, put_disk};
use crate::line::Line;
use crate::logs::sizes;
use crate::refusal::{Made, Refusal};
use cw_disk::{Disks, MemDisk, Way};
use cw_feed::Feeds;
use cw_io::MemShelf;
use cw_open::{ReopenFault, reopen};
use cw_types::Name;
use cw_world::World;
use percent_encoding::percent_decode;
use std::alloc::Global;

/// A world over disks in memory.
pub(crate) type Trial = World<MemDisk>;

/// The world that is opened, if one is.
#[derive(Drop)]
pub(crate) struct Stage {
    pub(crate) alloc: Global,
    pub(crate) world: Option<Trial>,
}

impl Stage {
    /// With no world.
    pub(crate) fn new(alloc: Global) -> Stage {
        Stage { alloc, world: None }
    }

    /// `open`: a world over empty disks. It and the others answer how many frames each log has.
    pub(crate) fn open(&mut self, line: &mut Line<'_>) -> Made {
        self.open_over(empty_disks(self.alloc), line)
    }

    /// `open-failing DISK N`: the same, but the call of this number of a disk fails, counted from 0.
    pub(crate) fn open_failing(&mut self, line: &mut Line<'_>) -> Made {
        let name = line.word();
        let failing = [line.long()?].to_vec(self.alloc)?;
        let disk = MemDisk::new(self.alloc, Vec::new(self.alloc), failing, u64::MAX)?;
        self.open_over(put_disk(empty_disks(self.alloc), name, disk), line)
    }

    /// `open-image DISK BYTES`: the same, but a disk has these bytes, of which any may be spelled as `%` and two
    /// digits.
    pub(crate) fn open_image(&mut self, line: &mut Line<'_>) -> Made {
        let name = line.word();
        let mut bytes = Vec::new(self.alloc);
        percent_decode(line.word().as_bytes()).append_to(&mut bytes)?;
        let disk = MemDisk::new(self.alloc, bytes, Vec::new(self.alloc), u64::MAX)?;
        self.open_over(put_disk(empty_disks(self.alloc), name, disk), line)
    }

    /// `reopen WAY`: a world over what a stop leaves of the disks: as they read, `old` or `noise`.
    pub(crate) fn reopen(&mut self, line: &mut Line<'_>) -> Made {
        let way = match line.word() {
            "old" => Way::Old,
            "noise" => Way::Noise,
            _ => Way::AsRead,
        };
        match self.world.take() {
            Some(world) => self.open_over(left(world, way), line),
            None => Err(Refusal::NotNow),
        }
    }

    // Over these disks.
    fn open_over(&mut self, disks: Disks<MemDisk>, line: &mut Line<'_>) -> Made {
        match opened(self.alloc, disks) {
            Ok(world) => self.take_up(world, line),
            Err(refusal) => Err(refusal),
        }
    }

    // This is the world from now on.
    fn take_up(&mut self, world: Trial, line: &mut Line<'_>) -> Made {
        let told = sizes(&world, line);
        drop(self.world.replace(world));
        told
    }
}

// What a stop leaves of a world's disks.
fn left(world: Trial, way: Way) -> Disks<MemDisk> {
    let (disks, _journal) = world.give_back();
    images(disks, way)
}

// A cluster over disks, in which what a lost member ran is free at once.
fn opened(alloc: Global, disks: Disks<MemDisk>) -> Result<Trial, Refusal> {
    match prepare(alloc) {
        Ok(given) => opened_with(alloc, disks, given),
        Err(refusal) => {
            drop(disks);
            Err(refusal)
        }
    }
}

// What a cluster is opened with beside its disks.
#[derive(Drop)]
struct Given {
    feeds: Feeds,
    group: Name,
}

fn prepare(alloc: Global) -> Result<Given, Refusal> {
    Ok(Given {
        feeds: no_feeds(alloc)?,
        group: group(alloc)?,
    })
}

fn opened_with(alloc: Global, disks: Disks<MemDisk>, given: Given) -> Result<Trial, Refusal> {
    match reopened(alloc, disks, given) {
        Ok(world) => Ok(world),
        Err(fault) => Err(unopened(fault)),
    }
}

fn reopened(
    alloc: Global,
    disks: Disks<MemDisk>,
    given: Given,
) -> Result<Trial, ReopenFault<MemDisk>> {
    let Given { feeds, group } = given;
    reopen(alloc, disks, feeds, group, 0)
}

fn unopened(fault: ReopenFault<MemDisk>) -> Refusal {
    let ReopenFault { disks, cause } = fault;
    drop(disks);
    Refusal::Unopened(cause)
}

fn no_feeds(alloc: Global) -> Result<Feeds, Refusal> {
    let mut shelf = MemShelf::new(alloc, Vec::new(alloc));
    Feeds::load(alloc, &mut shelf).map_err(|_| Refusal::NotNow)
}

fn group(alloc: Global) -> Result<Name, Refusal> {
    Name::read(alloc, b"g").map_err(|_| Refusal::NotNow)
}
