//! The connectors with a task set in a report.
ghost use Rattle.std.specs.Prelude.{◌≡◌, ◌++◌, ◌∷◌, [], OnOk};
ghost use Rattle.std.specs.BTreeMap.{insert_entry};
ghost use Rattle.cw_types.specs.Order.{name_cmp};
ghost use Rattle.cw_audit.specs.Listed.{tasks_line, tasks_lines};
ghost use Rattle.cw_audit.specs.Rows.{with_connectors};

use crate::lines::connector_line;
use crate::rows::Rows;
use cw_config::{ConfigRecord, ConfigState};
use cw_keys::ConfigKey;
use cw_types::Name;
use std::alloc::{AllocError, Global};

/// Puts the lines of the connectors with a commit record behind a report. The records are those of the state.
pub(crate) fn write_connectors(
    alloc: Global,
    report: &mut Vec<u8>,
    records: &[ConfigRecord],
    configs: &ConfigState,
) -> Result<(), AllocError>
    requires { configs.now ≡ records.now }
    ensures { OnOk result (report.new.items ≡ report.old.items ++ tasks_lines records.now) }
{
    let mut rows = Rows::new(alloc);
    for config in records {
        put_config(alloc, &mut rows, config, configs)?;
    }
    rows.write(report)?;
    Ok(())
}

fn put_config(
    alloc: Global,
    rows: &mut Rows,
    config: &ConfigRecord,
    configs: &ConfigState,
) -> Result<(), AllocError>
    ensures { OnOk result (rows.new ≡ with_connectors configs.now (config.now ∷ []) rows.old) }
{
    match &config.key {
        ConfigKey::Connector(_) => Ok(()),
        ConfigKey::Task(_) => Ok(()),
        ConfigKey::Commit(name) => put_connector(alloc, rows, name, configs),
        ConfigKey::Target(_) => Ok(()),
        ConfigKey::Fencing(_) => Ok(()),
    }
}

fn put_connector(
    alloc: Global,
    rows: &mut Rows,
    name: &Name,
    configs: &ConfigState,
) -> Result<(), AllocError>
    ensures { OnOk result (rows.new ≡ insert_entry name_cmp rows.old name.now (tasks_line configs.now name.now)) }
{
    let generation = configs.generation(name).unwrap_or(0);
    let count = configs.task_count(name);
    let pending = configs.is_pending(name);
    let text = Vec::from_slice(alloc, name.as_bytes())?;
    let line = connector_line(alloc, text.as_slice(), generation, count, pending)?;
    rows.put(text, line)
}
