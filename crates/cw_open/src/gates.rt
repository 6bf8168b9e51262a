//! Where the gates of all frames stand.
ghost use Rattle.std.specs.Prelude.{◌≡◌, slice_index_or};
ghost use Rattle.cw_open.specs.Contents.{GateLists, gates_in};

use cw_types::LogName;
use std::marker::Model;

/// Where the gates of all frames stand, log by log.
#[derive(Drop)]
pub(crate) struct Gates {
    pub(crate) config: Vec<u64>,
    pub(crate) offsets: Vec<u64>,
    pub(crate) status: Vec<u64>,
    pub(crate) txn: Vec<u64>,
    pub(crate) batches: Vec<u64>,
}

impl Model for Gates {
    ghost use Rattle.cw_open.specs.Contents.{GateLists};

    ghost Value = { GateLists };

    ghost view = { λ g. record {
      config = g.config.items;
      offsets = g.offsets.items;
      status = g.status.items;
      txn = g.txn.items;
      batches = g.batches.items;
    } };
}

impl Gates {
    /// The place of the gate of a frame of this number, or 0 where the log has no such frame.
    pub(crate) fn place(&self, log: LogName, number: u64) -> u64
        ensures { result ≡ slice_index_or (gates_in log self.now) number 0 }
    {
        match log {
            LogName::Config => place_in(self.config.as_slice(), number),
            LogName::Offsets => place_in(self.offsets.as_slice(), number),
            LogName::Status => place_in(self.status.as_slice(), number),
            LogName::Txn => place_in(self.txn.as_slice(), number),
            LogName::Batches => place_in(self.batches.as_slice(), number),
        }
    }
}

fn place_in(gates: &[u64], number: u64) -> u64
    ensures { result ≡ slice_index_or gates.now number 0 }
{
    match gates.get(number as usize) {
        Some(gate) => *gate,
        None => 0,
    }
}
