//! Events of logs: they are marked and compacted.
ghost use Rattle.std.specs.Prelude.{IfSome};
ghost use Rattle.cw_model.specs.EventsCompaction.{MayCompact};
ghost use Rattle.cw_model.specs.EventsMarking.{MayMark};

use crate::line::Line;
use crate::refusal::{Made, Refusal};
use crate::stage::Trial;
use cw_types::LogName;

/// `sizes` answers how many frames the logs of configs, offsets, statuses, transactions and data have.
pub(crate) fn sizes(world: &Trial, line: &mut Line<'_>) -> Made {
    line.tell(world.log_size(LogName::Config).0)?;
    line.tell(world.log_size(LogName::Offsets).0)?;
    line.tell(world.log_size(LogName::Status).0)?;
    line.tell(world.log_size(LogName::Txn).0)?;
    line.tell(world.log_size(LogName::Batches).0)
}

/// `mark` answers the epoch and the number of a transaction, and 1 where it is committed.
pub(crate) fn mark(world: &mut Trial, line: &mut Line<'_>) -> Made {
    let Some(log) = unmarked(world) else {
        return Err(Refusal::NotNow);
    };
    let (tag, committed) = world.mark(log)?;
    line.tell(tag.epoch.0)?;
    line.tell(tag.number)?;
    line.tell(u64::from(committed))
}

// The log that has a transaction to mark.
fn unmarked(world: &Trial) -> Option<LogName>
    ensures { IfSome result (λ log. MayMark log world.now.state) }
{
    world.cluster().unmarked_log()
}

/// `compact LOG` answers how many records it had and has.
pub(crate) fn compact(world: &mut Trial, line: &mut Line<'_>) -> Made {
    match line.word() {
        "config" => compact_log(world, LogName::Config, line),
        "offsets" => compact_log(world, LogName::Offsets, line),
        "status" => compact_log(world, LogName::Status, line),
        _ => Err(Refusal::NoEvent),
    }
}

fn compact_log(world: &mut Trial, log: LogName, line: &mut Line<'_>) -> Made
    requires { MayCompact log }
{
    let (before, after) = world.compact(log)?;
    line.tell(before)?;
    line.tell(after)
}
