//! A state with room for one frame more.
ghost use Rattle.std.specs.Prelude.{◌≡◌, ◌++◌, OnOk};
ghost use Rattle.cw_config.specs.Compaction.{AreAccepted};
ghost use Rattle.cw_config.specs.Tables.{HaveRows, SameRows};

use crate::records::ConfigRecord;
use crate::state::ConfigState;
use crate::tables::{Tables, add};
use cw_types::Past;
use std::alloc::{AllocError, Global};
use std::marker::Model;

/// A state, and the records of a frame for which it has room. Clauses see both.
#[derive(Drop)]
pub struct ReservedConfigs {
    pub(crate) alloc: Global,
    pub(crate) records: Past<ConfigRecord>,
    pub(crate) tables: Tables,
    pub(crate) frame: Vec<ConfigRecord>,
}

impl Model for ReservedConfigs {
    ghost use Rattle.cw_config.specs.Reserved.{Reserved};

    ghost Value = { Reserved };

    ghost use Rattle.cw_config.specs.Tables.{IsReserved};

    ghost view = { λ a. record { records = a.records.items; frame = a.frame.items } };

    ghost invariant = { λ a. IsReserved a.tables a.records.items a.frame.items };
}

impl ReservedConfigs {
    /// Applies the records of the frame, each of which may stand where it does. It takes no memory.
    pub fn apply(self) -> ConfigState
        requires { AreAccepted self.records self.frame }
        ensures { result ≡ self.records ++ self.frame }
    {
        let mut tables = self.tables;
        let mut records = self.records;
        for added in self.frame {
            add(&mut tables, &mut records, added);
        }
        ConfigState {
            alloc: self.alloc,
            records,
            tables,
        }
    }

    /// Gives the room up: the state as it was. It takes no memory.
    pub fn give_up(self) -> ConfigState
        ensures { result ≡ self.records }
    {
        ConfigState {
            alloc: self.alloc,
            records: self.records,
            tables: self.tables,
        }
    }
}

/// A row for each record of a frame, which changes no meaning.
pub fn make_rows(tables: &mut Tables, frame: &[ConfigRecord]) -> Result<(), AllocError>
    ensures same { SameRows tables.old tables.new }
    ensures there { OnOk result (HaveRows tables.new frame.now) }
{
    for added in frame {
        tables.make_row(&added.key)?;
    }
    Ok(())
}
