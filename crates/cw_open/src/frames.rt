//! What the five logs hold, read.
ghost use Rattle.std.specs.Prelude.{◌≡◌};
ghost use Rattle.cw_model.specs.StandsFor.{Frames};

use cw_bytes::Applied;
use cw_data::DataEntry;
use cw_offset::OffsetEntry;
use cw_txn::Entry;
use cw_types::Listed;
use std::marker::Model;

/// The frames of the five logs, the oldest first, read field by field. Clauses see the model's frames.
#[derive(Drop)]
pub struct FramesRead {
    /// The records of each frame of the config log.
    pub config: Vec<Listed<Applied>>,
    /// The entries of the offset log.
    pub offsets: Vec<OffsetEntry>,
    /// The records of each frame of the status log.
    pub status: Vec<Listed<Applied>>,
    /// The entries of each frame of the transaction log.
    pub txn: Vec<Listed<Entry>>,
    /// The entries of the data log.
    pub batches: Vec<DataEntry>,
}

impl Model for FramesRead {
    ghost use Rattle.cw_model.specs.StandsFor.{Frames};

    ghost Value = { Frames };

    ghost view = { λ a. record {
      config = a.config.items;
      offsets = a.offsets.items;
      status = a.status.items;
      txn = a.txn.items;
      batches = a.batches.items;
    } };
}

impl FramesRead {
    /// These frames.
    pub fn new(
        config: Vec<Listed<Applied>>,
        offsets: Vec<OffsetEntry>,
        status: Vec<Listed<Applied>>,
        txn: Vec<Listed<Entry>>,
        batches: Vec<DataEntry>,
    ) -> FramesRead
        ensures { result ≡ record {
          config = config.items;
          offsets = offsets.items;
          status = status.items;
          txn = txn.items;
          batches = batches.items;
        } }
    {
        FramesRead {
            config,
            offsets,
            status,
            txn,
            batches,
        }
    }

    /// The frames of the config log.
    pub fn configs(&self) -> &[Listed<Applied>]
        ensures { result.now ≡ self.now.config }
    {
        self.config.as_slice()
    }

    /// The entries of the offset log.
    pub fn offsets(&self) -> &[OffsetEntry]
        ensures { result.now ≡ self.now.offsets }
    {
        self.offsets.as_slice()
    }

    /// The frames of the status log.
    pub fn statuses(&self) -> &[Listed<Applied>]
        ensures { result.now ≡ self.now.status }
    {
        self.status.as_slice()
    }

    /// The frames of the transaction log.
    pub fn entries(&self) -> &[Listed<Entry>]
        ensures { result.now ≡ self.now.txn }
    {
        self.txn.as_slice()
    }

    /// The entries of the data log.
    pub fn batches(&self) -> &[DataEntry]
        ensures { result.now ≡ self.now.batches }
    {
        self.batches.as_slice()
    }
}
