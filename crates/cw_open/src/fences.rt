//! The fences that the config log has.
ghost use Rattle.std.specs.Prelude.{◌≡◌, ◌↔◌, ◌≤◌, ℕ, [], ◌∷◌, ◌++◌, List, IfOk, OnOk, IsTrue, All, Some, is_some};
ghost use Rattle.std.specs.Prelude.{◌&&◌, if◌then◌else◌};
ghost use Rattle.std.specs.List.{filter_map};
ghost use Rattle.std.specs.BTreeMap.{get, is_at};
ghost use Rattle.cw_types.specs.Order.{name_cmp};
ghost use Rattle.cw_config.specs.declared.records.ConfigRecord.{ConfigRecord};
ghost use Rattle.cw_config.specs.Compaction.{config_in, configs_in};
ghost use Rattle.cw_model.specs.Fences.{StandingFence};
ghost use Rattle.cw_open.specs.Standing.{AreFences, Fences, Notes, fences_at};

use cw_bytes::Applied;
use cw_config::{ConfigRecord, record_in};
use cw_keys::ConfigKey;
use cw_types::{Listed, Name};
use std::alloc::{AllocError, Global};
use std::collections::BTreeMap;
use std::marker::Model;

/// A fence: the generation for which it stands, and its mark.
#[derive(Clone, Copy, Debug, PartialEq, Eq, Drop)]
pub(crate) struct Fence {
    pub(crate) generation: u64,
    pub(crate) mark: u64,
}

/// The fences of a connector, the oldest first.
#[derive(Drop)]
pub(crate) struct Fenced {
    fences: Vec<Fence>,
}

impl Model for Fenced {
    ghost use Rattle.std.specs.Prelude.{List};
    ghost use Rattle.cw_open.specs.declared.fences.Fence.{Fence};

    ghost Value = { List Fence };

    ghost view = { λ a. a.fences.items };
}

impl Fenced {
    fn of(alloc: Global, fence: Fence) -> Result<Fenced, AllocError>
        ensures { IfOk result (λ fenced. fenced ≡ fence ∷ []) }
    {
        let mut fences = Vec::new(alloc);
        fences.push(fence)?;
        Ok(Fenced { fences })
    }

    fn add(&mut self, fence: Fence) -> Result<(), AllocError>
        ensures { OnOk result (self.new ≡ self.old ++ fence ∷ []) }
    {
        self.fences.push(fence)?;
        Ok(())
    }

    // Whether a commit of a task of this generation, at this place of the transaction list, is none behind a fence of a
    // newer one.
    fn let_pass(&self, generation: u64, place: u64) -> bool
        ensures { IsTrue result ↔ All (λ fence. fence.mark ≤ place → fence.generation ≤ generation) self.now }
    {
        self.fences.iter().all(|fence| place < fence.mark || fence.generation <= generation)
    }
}

/// The generations of connectors, and the fences that stand for them.
#[derive(Drop)]
pub(crate) struct FenceTable {
    generations: BTreeMap<Name, u64>,
    standing: BTreeMap<Name, Fenced>,
}

impl FenceTable {
    /// Those of the records of the config log that can be read.
    pub(crate) fn of(alloc: Global, frames: &[Listed<Applied>]) -> Result<FenceTable, AllocError>
        ensures { IfOk result (λ table. AreFences table (configs_in frames.now)) }
    {
        let mut table = FenceTable::new(alloc);
        for at in 0..frames.len() {
            put_all(alloc, &mut table, frames[at].as_slice())?;
        }
        Ok(table)
    }

    fn new(alloc: Global) -> FenceTable
        ensures { AreFences result [] }
    {
        FenceTable {
            generations: BTreeMap::new(alloc),
            standing: BTreeMap::new(alloc),
        }
    }

    /// Whether a commit of a task of this connector and generation may stand at this place of the transaction list,
    /// behind no fence of a newer generation (KIP-618).
    pub(crate) fn let_pass(&self, name: &Name, generation: u64, place: u64) -> bool
        ensures { (records : List ConfigRecord) → AreFences self.now records → IsTrue result ↔
            ((newer mark : ℕ) → StandingFence records name.now newer mark → mark ≤ place → newer ≤ generation) }
    {
        match self.standing.get(name) {
            Some(fenced) => fenced.let_pass(generation, place),
            None => true,
        }
    }
}

fn put_all(alloc: Global, table: &mut FenceTable, frame: &[Applied]) -> Result<(), AllocError>
    ensures { OnOk result ((records : List ConfigRecord) → AreFences table.old records →
        AreFences table.new (records ++ filter_map config_in frame.now)) }
{
    for at in 0..frame.len() {
        put(alloc, table, &frame[at])?;
    }
    Ok(())
}

fn put(alloc: Global, table: &mut FenceTable, applied: &Applied) -> Result<(), AllocError>
    ensures { OnOk result ((records : List ConfigRecord) → AreFences table.old records →
        AreFences table.new (records ++ filter_map config_in (applied.now ∷ []))) }
{
    match record_in(alloc, applied)? {
        Some(read) => {
            add(alloc, table, &read)?;
            Ok(())
        }
        None => Ok(()),
    }
}

fn add(alloc: Global, table: &mut FenceTable, added: &ConfigRecord) -> Result<(), AllocError>
    ensures { OnOk result ((records : List ConfigRecord) → AreFences table.old records →
        AreFences table.new (records ++ added.now ∷ [])) }
{
    match &added.key {
        ConfigKey::Connector(_) => Ok(()),
        ConfigKey::Task(_) => Ok(()),
        ConfigKey::Commit(name) => {
            note_commit(&mut table.generations, name, added.offset)?;
            Ok(())
        }
        ConfigKey::Target(_) => Ok(()),
        ConfigKey::Fencing(name) => {
            note_fence(alloc, table, name, added.stamp)?;
            Ok(())
        }
    }
}

fn note_commit(
    generations: &mut BTreeMap<Name, u64>,
    name: &Name,
    offset: u64,
) -> Result<(), AllocError>
    ensures { OnOk result ((q : List ℕ) → get name_cmp generations.new q ≡
        (if is_at (name_cmp name.now) q then Some offset else get name_cmp generations.old q)) }
{
    generations.insert(name.copy()?, offset)?;
    Ok(())
}

// A fence before which there is no commit stands for none.
fn note_fence(
    alloc: Global,
    table: &mut FenceTable,
    name: &Name,
    mark: u64,
) -> Result<(), AllocError>
    ensures { OnOk result (Fences name.now mark table.old table.new) }
{
    match table.generations.get(name).copied() {
        Some(generation) => {
            note(alloc, &mut table.standing, name, Fence { generation, mark })?;
            Ok(())
        }
        None => Ok(()),
    }
}

fn note(
    alloc: Global,
    standing: &mut BTreeMap<Name, Fenced>,
    name: &Name,
    fence: Fence,
) -> Result<(), AllocError>
    ensures { OnOk result (Notes name.now fence standing.old standing.new) }
{
    if add_to_row(standing, name, fence)? {
        return Ok(());
    }
    let fenced = Fenced::of(alloc, fence)?;
    standing.insert(name.copy()?, fenced)?;
    Ok(())
}

// Adds a fence to a connector's, if it has any, and says whether it has.
fn add_to_row(
    standing: &mut BTreeMap<Name, Fenced>,
    name: &Name,
    fence: Fence,
) -> Result<bool, AllocError>
    ensures there { IfOk result (λ there. there ≡ is_some (get name_cmp standing.old name.now)) }
    ensures rows { IfOk result (λ there. (q : List ℕ) → get name_cmp standing.new q ≡
        (if there && is_at (name_cmp name.now) q then Some (fences_at standing.old name.now ++ fence ∷ [])
        else get name_cmp standing.old q)) }
{
    match standing.get_mut(name) {
        Some(fenced) => {
            fenced.add(fence)?;
            Ok(true)
        }
        None => Ok(false),
    }
}
