// The log on the chosen side, and the other disk.
ghost use Rattle.std.specs.Prelude.{◌≡◌, not};
ghost use Rattle.cw_pair.specs.State.{side_of};

use cw_disk::Disk;
use cw_log::TopicLog;

/// The log on the chosen side, and the other disk.
#[derive(Drop)]
pub struct Two<D: Disk> {
    pub(crate) log: TopicLog<D>,
    pub(crate) other: D,
    pub(crate) on_b: bool,
}

impl<D: Disk> Two<D> {
    // The chosen side, and the count of faults of its disk.
    pub(crate) fn log_faults(&self) -> (u8, u64)
        ensures { result ≡ (side_of self.now.on_b, D.count self.now.log.disk) }
    {
        if self.on_b {
            return (1, self.log.disk().faults());
        }
        (0, self.log.disk().faults())
    }

    // The other side, and the count of faults of its disk.
    pub(crate) fn other_faults(&self) -> (u8, u64)
        ensures { result ≡ (side_of (not self.now.on_b), D.count self.now.other) }
    {
        if self.on_b {
            return (0, self.other.faults());
        }
        (1, self.other.faults())
    }
}
