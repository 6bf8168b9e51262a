//! Lines of a report, each under a text, in the order of these texts.
ghost use Rattle.std.specs.Prelude.{◌≡◌, ◌++◌, [], OnOk};
ghost use Rattle.std.specs.BTreeMap.{insert_entry};
ghost use Rattle.cw_types.specs.Order.{name_cmp};
ghost use Rattle.cw_audit.specs.Rows.{lines_in};

use crate::text::Text;
use std::alloc::{AllocError, Global};
use std::collections::BTreeMap;
use std::marker::Model;

/// Lines, each under a text, rising by the texts. Clauses see the texts with their lines.
#[derive(Drop)]
pub(crate) struct Rows {
    table: BTreeMap<Text, Text>,
}

impl Model for Rows {
    ghost use Rattle.cw_audit.specs.Rows.{Rows as RowsValue};

    ghost Value = { RowsValue };

    ghost view = { λ r. r.table.entries };
}

impl Rows {
    /// Without a line.
    pub(crate) fn new(alloc: Global) -> Rows
        ensures { result ≡ [] }
    {
        Rows {
            table: BTreeMap::new(alloc),
        }
    }

    /// Puts a line under a text. It takes the place of the line that stands there.
    pub(crate) fn put(&mut self, text: Vec<u8>, line: Vec<u8>) -> Result<(), AllocError>
        ensures { OnOk result (self.new ≡ insert_entry name_cmp self.old text.items line.items) }
    {
        self.table.insert(Text::new(text), Text::new(line))?;
        Ok(())
    }

    /// Puts the lines behind a report.
    pub(crate) fn write(&self, report: &mut Vec<u8>) -> Result<(), AllocError>
        ensures { OnOk result (report.new.items ≡ report.old.items ++ lines_in self.now) }
    {
        for line in self.table.values() {
            report.extend_from_slice(line.as_bytes())?;
        }
        Ok(())
    }
}
