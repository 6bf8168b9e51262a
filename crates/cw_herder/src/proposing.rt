//! The leader writes the tasks that a connector's config asks for, and their commit (Connect's task configs and commit
//! records in the config topic).
ghost use Rattle.std.specs.Prelude.{◌≡◌, ◌<◌, ◌≤◌, ◌-◌, ◌^◌, length, IfOk, if◌then◌else◌};
ghost use Rattle.cw_types.specs.Name.{IsName};
ghost use Rattle.cw_model.specs.Proposals.{proposal_of, are_deferred, task_records};
ghost use Rattle.cw_ticks.specs.Proposed.{AreFaultless};
ghost use Rattle.cw_herder.specs.declared.op.OpDone.TheVariants as done;
ghost use Rattle.cw_herder.specs.Operations.{proposal_records, told_proposal, proposes, MayPropose};
ghost use Rattle.cw_world.specs.World.{Acts};
ghost use Rattle.cw_rest.specs.Operations.{commit_values};

use crate::op::OpDone;
use cw_config::ConfigState;
use cw_disk::Disk;
use cw_json::Props;
use cw_keys::{ConfigKey, ConfigValue};
use cw_model::WorldFault;
use cw_ticks::{are_deferred, commit_values, proposal_of, task_records};
use cw_types::Name;
use cw_world::World;
use std::alloc::{AllocError, Global};

// What is written: the tasks' records, or the record that commits them.
#[derive(Drop)]
struct Proposal {
    records: Vec<(ConfigKey, Option<ConfigValue>)>,
    count: u32,
    commits: bool,
}

/// A record for each task is written, or, once these stand, the record that commits them.
pub(crate) fn propose<D: Disk>(
    alloc: Global,
    world: &mut World<D>,
    w: u32,
    connector: &Name,
) -> Result<OpDone, WorldFault>
    requires there { w < length world.old.state.rows }
    requires may { MayPropose w connector.now world.old.state }
    ensures { Acts D.Disk (proposes w connector.now) world.old world.new result }
{
    world.is_safe();
    match proposal_for(alloc, world.cluster().config_state(), connector) {
        Ok(proposal) => write_proposal(world, w, connector, proposal),
        Err(AllocError) => Err(WorldFault::Memory),
    }
}

// These records are written.
fn write_proposal<D: Disk>(
    world: &mut World<D>,
    w: u32,
    connector: &Name,
    proposal: Proposal,
) -> Result<OpDone, WorldFault>
    requires there { w < length world.old.state.rows }
    requires may { MayPropose w connector.now world.old.state }
    requires records { proposal.records.items ≡ proposal_records world.old.state.configs connector.now }
    requires count { proposal.count ≡ length (proposal_of connector.now world.old.state.configs) }
    requires commits { proposal.commits ≡ are_deferred world.old.state.configs connector.now }
    ensures { Acts D.Disk (proposes w connector.now) world.old world.new result }
{
    world.is_safe();
    is_name(connector);
    match world.append_config(w, proposal.records.as_slice()) {
        Ok(offset) => Ok(told(&proposal, offset)),
        Err(fault) => Err(fault),
    }
}

// What is told of it.
fn told(proposal: &Proposal, offset: u64) -> OpDone
    ensures { result ≡ (if proposal.now.commits then done.Committed offset else done.Proposed proposal.now.count) }
{
    if proposal.commits {
        OpDone::Committed(offset)
    } else {
        OpDone::Proposed(proposal.count)
    }
}

// What is written of the tasks that a connector's config asks for. There are never 2^32.
fn proposal_for(
    alloc: Global,
    configs: &ConfigState,
    connector: &Name,
) -> Result<Proposal, AllocError>
    requires { AreFaultless configs.now }
    ensures records { IfOk result (λ proposal. proposal.records.items ≡ proposal_records configs.now connector.now) }
    ensures count { IfOk result (λ proposal. proposal.count ≡ length (proposal_of connector.now configs.now)) }
    ensures commits { IfOk result (λ proposal. proposal.commits ≡ are_deferred configs.now connector.now) }
{
    let tasks = proposal_of(alloc, configs, connector)?;
    let Ok(count) = u32::try_from(tasks.len()) else {
        return Err(AllocError);
    };
    let commits = are_deferred(alloc, configs, connector)?;
    let records = records_for(alloc, connector, tasks.as_slice(), count, commits)?;
    Ok(Proposal {
        records,
        count,
        commits,
    })
}

// The records of these tasks, or the one that commits them.
fn records_for(
    alloc: Global,
    connector: &Name,
    tasks: &[Props],
    count: u32,
    commits: bool,
) -> Result<Vec<(ConfigKey, Option<ConfigValue>)>, AllocError>
    requires { length tasks.now ≤ 2 ^ 32 - 1 }
    ensures { IfOk result (λ records. records.items ≡
        (if commits then commit_values connector.now count else task_records connector.now tasks.now)) }
{
    if commits {
        commit_values(alloc, connector, count)
    } else {
        task_records(alloc, connector, tasks)
    }
}

// The law of every name. It does nothing at run time.
fn is_name(name: &Name)
    ensures { IsName name.now }
{
    let _ = name.as_bytes();
}
