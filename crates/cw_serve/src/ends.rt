//! What a server gives back.
use cw_desk::Disagree;
use cw_disk::Disk;
use cw_types::DiskName;
use cw_world::{Receipt, World};

/// Why a server ended.
#[derive(Drop)]
pub enum ServeEnd {
    /// As many connections were served as were wanted, or the listener had no more.
    Done,
    /// A disk failed.
    StoreFault {
        /// The disk.
        disk: DiskName,
        /// Its count of faults.
        count: u64,
    },
    /// The outlet failed.
    OutletFault,
    /// The listener failed.
    NetFault,
    /// A herder, a task runner, the cleaner or the start wanted memory.
    Memory,
    /// The receipts aren't the journal.
    Disagree(Disagree),
}

/// What a server leaves: the world, the outlet and the listener, the receipts of all calls that it answered, in the
/// order of the journal, and why it ended.
#[derive(Drop)]
pub struct Served<D: Disk, U, N> {
    /// The world, which hasn't ended.
    pub world: World<D>,
    /// Where sinks' tasks put their lines.
    pub outlet: U,
    /// Where the links came from.
    pub net: N,
    /// The receipts; none where they aren't the journal.
    pub receipts: Vec<Receipt>,
    /// Why it ended.
    pub end: ServeEnd,
}
