//! Whether a worker's tick and an instance's step would find nothing to do, as one sees without making them.
ghost use Rattle.std.specs.Prelude.{◌≡◌, ◌<◌, ℕ, length, is_none, IfOk};
ghost use Rattle.cw_model.specs.declared.instance.InstancePhase.TheVariants as phase;
ghost use Rattle.cw_model.specs.Lookups.{instance_of};
ghost use Rattle.cw_model.specs.State.{Cluster};
ghost use Rattle.cw_ticks.specs.Turns.{rule_of};
ghost use Rattle.cw_run.specs.Resting.{rests, rests_in};
ghost use Rattle.cw_cluster.specs.Turning.{is_idle_at, rests_at};

use cw_disk::Disk;
use cw_model::InstancePhase;
use cw_sinktask::gather;
use cw_sourcetask::batches_take_some;
use cw_tasks::waits;
use cw_ticks::{Turn, is_sink, next_turn, source_turn};
use cw_world::World;
use std::alloc::{AllocError, Global};

/// Whether a worker takes no part in the group, or its tick would find nothing to do.
pub(crate) fn is_idle<D: Disk>(alloc: Global, world: &World<D>, w: u32) -> Result<bool, AllocError>
    requires { w < length world.now.state.rows }
    ensures { IfOk result (λ idle. idle ≡ is_idle_at w world.now.state) }
{
    let row = world.cluster().row_of(w);
    if !(row.live && row.hearing) {
        return Ok(true);
    }
    world.is_safe();
    let turn = next_turn(alloc, world.cluster(), w)?;
    Ok(has_no_rule(&turn))
}

// Whether a turn is that of no rule.
fn has_no_rule(turn: &Turn) -> bool
    ensures { (w : ℕ) (s : Cluster) → result ≡ is_none (rule_of turn.now w s) }
{
    matches!(turn, Turn::Idle)
}

/// Whether an instance's step would find nothing to do, or that it ended.
pub(crate) fn rests<D: Disk>(alloc: Global, world: &World<D>, i: u64) -> Result<bool, AllocError>
    requires { i < length world.now.state.instances }
    ensures { IfOk result (λ rest. rest ≡ rests_at world.now.setting i world.now.state) }
{
    world.is_safe();
    if waits(world.cluster(), i) {
        return Ok(true);
    }
    rests_by_phase(alloc, world, i)
}

// The same of one that isn't paused.
fn rests_by_phase<D: Disk>(alloc: Global, world: &World<D>, i: u64) -> Result<bool, AllocError>
    requires { i < length world.now.state.instances }
    ensures { IfOk result (λ rest.
        rest ≡ rests_in world.now.setting i world.now.state (instance_of i world.now.state).phase) }
{
    match world.cluster().instance_of(i).phase {
        InstancePhase::Connector | InstancePhase::Failed | InstancePhase::Ended => Ok(true),
        InstancePhase::Polling => has_nothing_to_poll(alloc, world, i),
        InstancePhase::New
        | InstancePhase::Inited
        | InstancePhase::Verified
        | InstancePhase::Produced
        | InstancePhase::Offered
        | InstancePhase::Delivered => Ok(false),
    }
}

// Whether a poll would find nothing.
fn has_nothing_to_poll<D: Disk>(alloc: Global, world: &World<D>, i: u64) -> Result<bool, AllocError>
    requires there { i < length world.now.state.instances }
    requires polling { (instance_of i world.now.state).phase ≡ phase.Polling }
    ensures { IfOk result (λ rest. rest ≡ rests_in world.now.setting i world.now.state phase.Polling) }
{
    let instance = world.cluster().instance_of(i);
    if is_sink(instance) {
        return Ok(gather(alloc, world, i)?.is_none());
    }
    world.is_safe();
    batches_take_some();
    Ok(source_turn(world.cluster().feeds(), instance).is_none())
}
