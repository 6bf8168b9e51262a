//! What the calls of a table change.

use crate::fault::Fault;
use cw_config::ConfigState;
use cw_data::DataState;
use cw_feed::Feeds;
use cw_group::Group;
use cw_io::{MemShelf, ShelfFault};
use cw_offset::OffsetState;
use cw_status::StatusState;
use cw_txn::Coordinator;
use std::alloc::Global;

/// What the calls of a table change: one of each kind, which a line `begin` of its table makes anew.
#[derive(Drop)]
pub struct States {
    /// The allocator.
    pub alloc: Global,
    /// The feeds of `cut` and `yield`.
    pub feeds: Feeds,
    /// The group of `group`.
    pub group: Group,
    /// The transactions of `coordinator`.
    pub coordinator: Coordinator,
    /// The data log of `data`.
    pub records: DataState,
    /// The offsets of `offsets`.
    pub offsets: OffsetState,
    /// The configs of `configs`.
    pub configs: ConfigState,
    /// The statuses of `statuses`.
    pub statuses: StatusState,
}

impl States {
    /// Each with nothing in it.
    pub fn new(alloc: Global) -> Result<States, Fault> {
        let mut shelf = MemShelf::new(alloc, Vec::new(alloc));
        Ok(States {
            alloc,
            feeds: load_feeds(alloc, &mut shelf)?,
            group: Group::new(alloc),
            coordinator: Coordinator::new(alloc),
            records: DataState::new(alloc),
            offsets: OffsetState::new(alloc),
            configs: ConfigState::new(alloc),
            statuses: StatusState::new(alloc),
        })
    }
}

/// The feeds of a shelf.
pub fn load_feeds(alloc: Global, shelf: &mut MemShelf) -> Result<Feeds, Fault> {
    match Feeds::load(alloc, shelf) {
        Ok(feeds) => Ok(feeds),
        Err(ShelfFault::Memory) => Err(Fault::Memory),
        Err(ShelfFault::Failed) => Err(Fault::NoCall),
    }
}
