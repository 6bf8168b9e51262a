//! What is looked up in a world beside its cluster.
ghost use Rattle.std.specs.Prelude.{◌≡◌, length, None};
ghost use Rattle.cw_model.specs.Reopening.{stored_of};
ghost use Rattle.cw_rows.specs.Writes.{bytes_in};
ghost use Rattle.cw_world.specs.Logs.{view_in, view_of, list_in};

use crate::world::World;
use cw_disk::Disk;
use cw_log::BodyLog;
use cw_types::LogName;

impl<D: Disk> World<D> {
    /// How many frames a log has, and how many bytes.
    pub fn log_size(&self, log: LogName) -> (u64, u64)
        ensures told { let view = view_in D.Disk log self.now.logs in result ≡ (view.size, view.bytes) }
        ensures held { self.now.state.closed ≡ None →
            result ≡ (length (list_in log (stored_of self.now.state)), bytes_in log self.now.state) }
    {
        let _ = &self.cluster;
        self.told_size(log)
    }

    // What a log tells of its size.
    fn told_size(&self, log: LogName) -> (u64, u64)
        ensures { let view = view_in D.Disk log self.now.logs in result ≡ (view.size, view.bytes) }
    {
        match log {
            LogName::Config => size_of(&self.logs.config),
            LogName::Offsets => size_of(&self.logs.offsets),
            LogName::Status => size_of(&self.logs.status),
            LogName::Txn => size_of(&self.logs.txn),
            LogName::Batches => size_of(&self.logs.batches),
        }
    }
}

// How many bodies a log has, and how many bytes.
fn size_of<L: BodyLog>(log: &L) -> (u64, u64)
    ensures { let view = view_of L.BodyLog log.now in result ≡ (view.size, view.bytes) }
{
    (log.count(), log.length())
}
