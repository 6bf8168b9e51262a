//! Compaction of the logs of two sides (Kafka's compacted topics): a log's whole list is replaced by what is left of
//! it.
ghost use Rattle.std.specs.Prelude.{◌≡◌, ◌≢◌, ◌+◌, ◌-◌, ◌<◌, ◌^◌, All, Err, None, IfOk, IfErr, OnOk};
ghost use Rattle.cw_types.specs.declared.logs.LogName.TheVariants as log;
ghost use Rattle.cw_log.specs.Log.{IsBody, length_of};
ghost use Rattle.cw_log.specs.Compaction.{bodies_in};
ghost use Rattle.cw_compact.specs.Left.{AreLeft};
ghost use Rattle.cw_config.specs.Compaction.{compact_configs};
ghost use Rattle.cw_offset.specs.Compaction.{compact_offsets};
ghost use Rattle.cw_status.specs.Compaction.{compact_statuses};
ghost use Rattle.cw_model.specs.declared.fault.WorldFault.TheVariants as fault;
ghost use Rattle.cw_model.specs.Bodies.{config_length, offsets_length, status_length};
ghost use Rattle.cw_model.specs.EventsCompaction.{compact, MayCompact};
ghost use Rattle.cw_model.specs.Facts.{AreFacts};
ghost use Rattle.cw_topics.specs.Left.{IsLeftLog};
ghost use Rattle.cw_rows.specs.Writes.{bytes_in};
ghost use Rattle.cw_world.specs.Logs.{IsOpenLog, view_of_pair};
ghost use Rattle.cw_world.specs.Rewrite.{IsRewrite, MayTurn};
ghost use Rattle.cw_world.specs.World.{Writes};

use crate::world::World;
use crate::write::disk_of;
use cw_compact::LeftRecords;
use cw_disk::Disk;
use cw_laws::logs_keep_facts;
use cw_log::{BodyLog, CompactFault};
use cw_model::WorldFault;
use cw_pair::PairLog;
use cw_rows::Cluster;
use cw_topics::LeftOffsetLog;
use cw_types::LogName;

impl<D: Disk> World<D> {
    /// A log of two sides is compacted onto its other side: of the config log and the status log the last record of
    /// each key stays, and of the config log all that stands where a task's config still waits for its commit; of the
    /// offset log goes what an abort or a later change has outdated. The answer is how many records there were and are,
    /// markers not counted. Nothing that is asked of the state changes by it. The log is full, at a frame of no bytes,
    /// where its side has the greatest number.
    pub fn compact(&mut self, log: LogName) -> Result<(u64, u64), WorldFault>
        requires { MayCompact log }
        ensures { Writes D.Disk log (compact log) self.old self.new result }
    {
        match log {
            LogName::Config => self.compact_configs(),
            LogName::Offsets => self.compact_offsets(),
            LogName::Status => self.compact_statuses(),
            LogName::Txn => unreachable!(),
            LogName::Batches => unreachable!(),
        }
    }

    // The config log is compacted.
    fn compact_configs(&mut self) -> Result<(u64, u64), WorldFault>
        ensures { Writes D.Disk log.Config (compact log.Config) self.old self.new result }
    {
        logs_keep_facts();
        let left = left_configs(&self.cluster, &self.logs.config)?;
        let side = rewrite(
            &mut self.logs.config,
            &mut self.cluster,
            LogName::Config,
            &left.bodies,
        )?;
        Ok(self.cluster.put_left_configs(left, side))
    }

    // The status log is compacted.
    fn compact_statuses(&mut self) -> Result<(u64, u64), WorldFault>
        ensures { Writes D.Disk log.Status (compact log.Status) self.old self.new result }
    {
        logs_keep_facts();
        let left = left_statuses(&self.cluster, &self.logs.status)?;
        let side = rewrite(
            &mut self.logs.status,
            &mut self.cluster,
            LogName::Status,
            &left.bodies,
        )?;
        Ok(self.cluster.put_left_statuses(left, side))
    }

    // The offset log is compacted.
    fn compact_offsets(&mut self) -> Result<(u64, u64), WorldFault>
        ensures { Writes D.Disk log.Offsets (compact log.Offsets) self.old self.new result }
    {
        logs_keep_facts();
        let left = left_offsets(&self.cluster, &self.logs.offsets)?;
        let side = rewrite(
            &mut self.logs.offsets,
            &mut self.cluster,
            LogName::Offsets,
            left.bodies(),
        )?;
        Ok(self.cluster.put_left_offsets(left, side))
    }
}

// What a compaction leaves of the config log, unless it is refused.
fn left_configs<D: Disk>(cluster: &Cluster, pair: &PairLog<D>) -> Result<LeftRecords, WorldFault>
    requires facts { AreFacts cluster.now.setting cluster.now.state }
    requires side { cluster.now.state.closed ≡ None → pair.now.log.number ≡ cluster.now.state.config.side }
    requires size { cluster.now.state.closed ≡ None → pair.now.log.length ≡ config_length cluster.now.state }
    ensures due { OnOk result (MayTurn cluster.now.state.closed cluster.now.state.config.side) }
    ensures left { IfOk result (AreLeft cluster.now.state.config.frames
        (compact_configs cluster.now.state.config.frames)) }
    ensures refused { IfErr result (λ why. why ≢ fault.Memory →
        compact log.Config cluster.now.state ≡ (Err why, cluster.now.state)) }
{
    logs_keep_facts();
    cluster.test_open()?;
    test_side(pair, LogName::Config)?;
    cluster.left_configs()
}

// What a compaction leaves of the status log, unless it is refused.
fn left_statuses<D: Disk>(cluster: &Cluster, pair: &PairLog<D>) -> Result<LeftRecords, WorldFault>
    requires facts { AreFacts cluster.now.setting cluster.now.state }
    requires side { cluster.now.state.closed ≡ None → pair.now.log.number ≡ cluster.now.state.status.side }
    requires size { cluster.now.state.closed ≡ None → pair.now.log.length ≡ status_length cluster.now.state }
    ensures due { OnOk result (MayTurn cluster.now.state.closed cluster.now.state.status.side) }
    ensures left { IfOk result (AreLeft cluster.now.state.status.frames
        (compact_statuses cluster.now.state.status.frames)) }
    ensures refused { IfErr result (λ why. why ≢ fault.Memory →
        compact log.Status cluster.now.state ≡ (Err why, cluster.now.state)) }
{
    logs_keep_facts();
    cluster.test_open()?;
    test_side(pair, LogName::Status)?;
    cluster.left_statuses()
}

// What a compaction leaves of the offset log, unless it is refused.
fn left_offsets<D: Disk>(cluster: &Cluster, pair: &PairLog<D>) -> Result<LeftOffsetLog, WorldFault>
    requires facts { AreFacts cluster.now.setting cluster.now.state }
    requires side { cluster.now.state.closed ≡ None → pair.now.log.number ≡ cluster.now.state.offsets.side }
    requires size { cluster.now.state.closed ≡ None → pair.now.log.length ≡ offsets_length cluster.now.state }
    ensures due { OnOk result (MayTurn cluster.now.state.closed cluster.now.state.offsets.side) }
    ensures left { IfOk result (IsLeftLog cluster.now.state.offsets.frames
        (compact_offsets cluster.now.state.entries cluster.now.state.offsets.frames)) }
    ensures refused { IfErr result (λ why. why ≢ fault.Memory →
        compact log.Offsets cluster.now.state ≡ (Err why, cluster.now.state)) }
{
    logs_keep_facts();
    cluster.test_open()?;
    test_side(pair, LogName::Offsets)?;
    cluster.left_offsets()
}

// Refuses where the side of a log has the greatest number.
fn test_side<D: Disk>(log: &PairLog<D>, name: LogName) -> Result<(), WorldFault>
    ensures passed { OnOk result (log.now.log.number < 2 ^ 64 - 1) }
    ensures worn { IfErr result (λ why.
        (why ≡ fault.Full name log.now.log.length 0) × (log.now.log.number ≡ 2 ^ 64 - 1)) }
{
    if log.number() == u64::MAX {
        return Err(WorldFault::Full {
            log: name,
            length: log.length(),
            frame: 0,
        });
    }
    Ok(())
}

// Replaces the list of the log of a name by these bodies, on its other side: it is done, and the number of that side is
// told, or there is no next side, or memory is wanting, or a disk fails, which ends all writing of the cluster. Want of
// memory changes nothing.
fn rewrite<D: Disk>(
    log: &mut PairLog<D>,
    cluster: &mut Cluster,
    name: LogName,
    bodies: &Vec<Vec<u8>>,
) -> Result<u64, WorldFault>
    requires bodies { All IsBody (bodies_in bodies.now.items) }
    requires fits { length_of (bodies_in bodies.now.items) < 2 ^ 64 }
    requires ready { IsOpenLog (bytes_in name cluster.old.state) (view_of_pair D.Disk log.old) }
    ensures { IsRewrite D.Disk name (bodies_in bodies.now.items) log.old log.new cluster.old cluster.new result }
{
    match log.compact(bodies) {
        Ok(()) => Ok(log.number()),
        Err(CompactFault::Worn) => Err(WorldFault::Full {
            log: name,
            length: log.length(),
            frame: 0,
        }),
        Err(CompactFault::Memory) => Err(WorldFault::Memory),
        Err(CompactFault::Failed) => match log.failed() {
            Some((side, count)) => {
                let disk = disk_of(name, side);
                cluster.close(disk, count);
                Err(WorldFault::StoreFault { disk, count })
            }
            None => unreachable!(),
        },
        Err(CompactFault::Shut) => unreachable!(),
    }
}
