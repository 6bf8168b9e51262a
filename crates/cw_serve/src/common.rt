//! What all threads of a server share.
ghost use Rattle.std.specs.Prelude.{◌≡◌, ◌<◌};

use crate::naming::Begun;
use crate::outlet::Poured;
use crate::shared::Shared;
use cw_disk::Disk;
use cw_feed::Feeds;
use cw_io::Outlet;
use std::sync::{Mutex, Wait};

/// The three locks, the feeds that sources read, and how many workers and task runners there are. No thread holds two
/// of the locks at once.
pub struct Common<J: Begun, D: Disk, U: Outlet, C, W: Wait + Drop> {
    pub shared: Mutex<Shared<J, D, W>>,
    pub outlet: Mutex<Poured<J, U>>,
    pub clock: Mutex<C>,
    pub feeds: Feeds,
    pub workers: u32,
    pub runners: u32,
    pub ghost worked: { workers ≡ J.workers },
    pub ghost some: { (0 < workers) × (0 < runners) },
}
