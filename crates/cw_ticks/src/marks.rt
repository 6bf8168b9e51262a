//! Where a leader is to mark a transaction that has ended (KIP-98, control records).
ghost use Rattle.std.specs.Prelude.{◌≡◌, ◌<◌, length};
ghost use Rattle.cw_model.specs.TickRules.{mark_applies};

use cw_rows::Cluster;
use cw_types::LogName;

/// The log in which a leader has to mark a transaction, the data log before the offset log.
pub fn mark_applies(cluster: &Cluster, w: u32) -> Option<LogName>
    requires { w < length cluster.now.state.rows }
    ensures { result ≡ mark_applies w cluster.now.state }
{
    if cluster.row_of(w).lead.is_none() {
        return None;
    }
    cluster.unmarked_log()
}
