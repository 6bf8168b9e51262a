//! When a worker is to read the config log.
ghost use Rattle.std.specs.Prelude.{◌≡◌, ◌<◌, length};
ghost use Rattle.cw_model.specs.TickRules.{read_applies};

use cw_rows::Cluster;

/// Whether the config log goes on behind what a worker has read.
pub fn read_applies(cluster: &Cluster, w: u32) -> bool
    requires { w < length cluster.now.state.rows }
    ensures { result ≡ read_applies w cluster.now.state }
{
    cluster.row_of(w).prefix < cluster.config_count()
}
