//! What is written to the logs: the end of all writing.
ghost use Rattle.std.specs.Prelude.{◌≡◌, ℕ};
ghost use Rattle.cw_model.specs.Reopening.{closed_by};

use crate::cluster::Cluster;
use cw_types::DiskName;

impl Cluster {
    /// Ends all writing behind a fault of a disk.
    pub fn close(&mut self, disk: DiskName, count: u64)
        ensures state { self.new.state ≡ closed_by disk count self.old.state }
        ensures setting { self.new.setting ≡ self.old.setting }
    {
        self.closed = Some((disk, count));
    }
}
