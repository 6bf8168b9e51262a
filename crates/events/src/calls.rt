//! Calls of the REST API, through worker 0. Each answers its number in the journal and the reply's code.
ghost use Rattle.std.specs.Prelude.{◌≡◌, true};
ghost use Rattle.cw_model.specs.Lookups.{row_of};

use crate::line::Line;
use crate::refusal::{Made, only_where};
use crate::stage::Trial;
use cw_desk::turn;
use cw_route::Call;
use cw_types::Listed;
use cw_world::Receipt;

/// `put NAME TEXT`: a connector gets a config.
pub(crate) fn put(world: &mut Trial, line: &mut Line<'_>) -> Made {
    let name = line.name()?;
    let text = line.word().as_bytes().to_vec(line.alloc)?;
    ask(world, Call::PutConfig(name, Listed::new(text)), line)
}

/// `stop NAME`
pub(crate) fn stop(world: &mut Trial, line: &mut Line<'_>) -> Made {
    let call = Call::Stop(line.name()?);
    ask(world, call, line)
}

/// `reset NAME`: its offsets are removed.
pub(crate) fn reset(world: &mut Trial, line: &mut Line<'_>) -> Made {
    let call = Call::Reset(line.name()?);
    ask(world, call, line)
}

fn ask(world: &mut Trial, call: Call, line: &mut Line<'_>) -> Made {
    only_where(is_there(world))?;
    let receipt = turn(line.alloc, world, 0, call)?;
    let told = tell_receipt(&receipt, line);
    drop(receipt);
    told
}

// Whether worker 0 lives.
fn is_there(world: &Trial) -> bool
    ensures { result ≡ true → (row_of 0 world.now.state).live ≡ true }
{
    world.cluster().has_worker(0) && world.cluster().row_of(0).live
}

// Answers the number of a call's entry and the code of its reply.
fn tell_receipt(receipt: &Receipt, line: &mut Line<'_>) -> Made {
    line.tell(receipt.number())?;
    line.tell(u64::from(receipt.entry().reply.code))
}
