//! A cluster over empty disks.
ghost use Rattle.std.specs.Prelude.{◌≡◌, ℕ, [], true, Some, IfOk};
ghost use Rattle.cw_types.specs.declared.logs.DiskName.{DiskName};
ghost use Rattle.cw_model.specs.Cases.{empty_cluster};
ghost use Rattle.cw_open.specs.Reopened.{disk_in};
ghost use Rattle.cw_cluster.specs.Breaking.{IsAlive, tell_all};
ghost use Rattle.cw_gen.specs.Scripts.{setting_of};

use crate::nowhere::BareShelf;
use cw_disk::{Disk, Disks};
use cw_feed::Feeds;
use cw_io::ShelfFault;
use cw_model::empty_files_stand_for_the_empty_cluster;
use cw_open::{ReopenCause, ReopenFault, reopen};
use cw_types::Name;
use cw_world::World;
use std::alloc::{AllocError, Global};

/// Opens empty disks that never fail as a cluster of this group, without feeds.
pub(crate) fn open<D: Disk + Drop>(
    alloc: Global,
    disks: Disks<D>,
    group: Name,
    delay: u64,
) -> Result<World<D>, AllocError>
    requires steady { (disk : D) → D.count disk ≡ 0 }
    requires empty { (name : DiskName) → D.holds (disk_in name disks) ≡ Some [] }
    ensures setting { IfOk result (λ world. world.setting ≡ setting_of group delay) }
    ensures state { IfOk result (λ world. world.state ≡ empty_cluster) }
    ensures alive { IfOk result (λ world. IsAlive D.Disk world) }
    ensures tells { IfOk result (λ world. tell_all D.Disk world.logs ≡ true) }
{
    empty_files_stand_for_the_empty_cluster();
    let feeds = no_feeds(alloc)?;
    match reopen(alloc, disks, feeds, group, delay) {
        Ok(world) => Ok(world),
        Err(fault) => {
            let ReopenFault { disks, cause } = fault;
            drop(disks);
            match cause {
                ReopenCause::Memory => Err(AllocError),
                ReopenCause::Damaged { .. } | ReopenCause::StoreFault { .. } => unreachable!(),
            }
        }
    }
}

// No feeds.
fn no_feeds(alloc: Global) -> Result<Feeds, AllocError>
    ensures { IfOk result (λ feeds. feeds ≡ []) }
{
    match Feeds::load(alloc, &mut BareShelf { alloc }) {
        Ok(feeds) => Ok(feeds),
        Err(ShelfFault::Memory) => Err(AllocError),
        Err(ShelfFault::Failed) => unreachable!(),
    }
}
