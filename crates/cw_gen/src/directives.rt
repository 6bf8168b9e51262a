//! Directives, made from draws.
ghost use Rattle.std.specs.Prelude.{◌≡◌, ◌+◌, ◌<◌, ◌++◌, IfOk, OnOk, codes, slice_get};
ghost use Rattle.cw_gen.specs.Draws.{next_number, drawn};
ghost use Rattle.cw_gen.specs.Directives.{by_draw, clock_from, creation, due, first_six, put_from, source_config};
ghost use Rattle.cw_gen.specs.Directives.{step_from, turn_from};

use crate::draws::Draws;
use cw_script::Directive;
use cw_types::Listed;
use std::alloc::{AllocError, Global};

/// Makes the directive that is due behind so many, in a cluster with so many instances at a moment in milliseconds.
pub(crate) fn due(
    alloc: Global,
    draws: &mut Draws,
    made: u64,
    instances: u64,
    moment: u64,
) -> Result<Directive, AllocError>
    ensures { IfOk result (λ directive.
        due made instances moment draws.old ≡ record { directive = directive; number = draws.new }) }
{
    match first(alloc, made)? {
        Some(directive) => Ok(directive),
        None => drawn_one(alloc, draws, instances, moment),
    }
}

// One of the first six.
fn first(alloc: Global, made: u64) -> Result<Option<Directive>, AllocError>
    ensures { IfOk result (λ directive. directive ≡ slice_get first_six made) }
{
    match made {
        0..=2 => Ok(Some(Directive::Spawn)),
        3 | 5 => Ok(Some(Directive::Settle(1000))),
        4 => Ok(Some(creation(alloc)?)),
        _ => Ok(None),
    }
}

// The source is created.
fn creation(alloc: Global) -> Result<Directive, AllocError>
    ensures { IfOk result (λ directive. directive ≡ creation) }
{
    let mut body = b"{\"name\":\"g\",\"config\":".to_vec(alloc)?;
    add_config(alloc, &mut body, 7)?;
    body.push(b'}')?;
    request(alloc, 0, b"POST", b"/connectors", body)
}

// Puts the source's config, with batches of so many records, behind a text.
fn add_config(alloc: Global, text: &mut Vec<u8>, batch: u64) -> Result<(), AllocError>
    ensures { OnOk result (text.new.items ≡ text.old.items ++ source_config batch) }
{
    text.extend_from_slice(b"{\"connector.class\":\"SequenceSource\",\"partitions\":8,")?;
    text.extend_from_slice(b"\"count\":1000,\"tasks.max\":4,\"batch.size\":")?;
    text.extend_from_slice(batch.to_string(alloc)?.as_bytes())?;
    text.extend_from_slice(b",\"topic\":\"t\"}")?;
    Ok(())
}

// A request to a worker.
fn request(
    alloc: Global,
    worker: u64,
    method: &[u8],
    target: &[u8],
    body: Vec<u8>,
) -> Result<Directive, AllocError>
    ensures { IfOk result (λ directive. directive ≡ Directive.Rest worker method.now target.now body.items) }
{
    Ok(Directive::Rest {
        worker,
        method: Listed::new(method.to_vec(alloc)?),
        target: Listed::new(target.to_vec(alloc)?),
        body: Listed::new(body),
    })
}

// One that is drawn.
fn drawn_one(
    alloc: Global,
    draws: &mut Draws,
    instances: u64,
    moment: u64,
) -> Result<Directive, AllocError>
    ensures { IfOk result (λ directive. by_draw (drawn 16 draws.old) instances moment (next_number draws.old) ≡
        record { directive = directive; number = draws.new }) }
{
    match draws.draw(16) {
        0..=5 => Ok(Directive::Tick(draws.draw(3))),
        6..=12 => Ok(step(draws, instances)),
        13 => put(alloc, draws),
        14 => Ok(turn(draws)),
        _ => Ok(clock(draws, moment)),
    }
}

// One of the instances steps; where there is none, the cluster settles.
fn step(draws: &mut Draws, instances: u64) -> Directive
    ensures { step_from instances draws.old ≡ record { directive = result; number = draws.new } }
{
    if instances == 0 {
        return Directive::Settle(10);
    }
    Directive::Step(draws.draw(instances))
}

// The source gets other batches.
fn put(alloc: Global, draws: &mut Draws) -> Result<Directive, AllocError>
    ensures { IfOk result (λ directive. put_from draws.old ≡ record { directive = directive; number = draws.new }) }
{
    let worker = draws.draw(3);
    let batch = 1 + draws.draw(9);
    let mut body = Vec::new(alloc);
    add_config(alloc, &mut body, batch)?;
    request(alloc, worker, b"PUT", b"/connectors/g/config", body)
}

// A worker is lost, or comes back.
fn turn(draws: &mut Draws) -> Directive
    ensures { turn_from draws.old ≡ record { directive = result; number = draws.new } }
{
    let kind = draws.draw(3);
    let worker = draws.draw(3);
    match kind {
        0 => Directive::Expire(worker),
        1 => Directive::Deaf(worker),
        _ => Directive::Hear(worker),
    }
}

// Time goes on.
fn clock(draws: &mut Draws, moment: u64) -> Directive
    ensures { clock_from moment draws.old ≡ record { directive = result; number = draws.new } }
{
    Directive::Clock(moment.saturating_add(60_000 * draws.draw(10)))
}
