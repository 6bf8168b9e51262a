//! What a task writes for a cut: its transaction, and what the feeds yield.
ghost use Rattle.std.specs.Prelude.{◌≡◌, ◌<◌, false, length, map, IfOk, not};
ghost use Rattle.cw_data.specs.declared.entry.DataEntry.TheVariants.{Batch as InBatch};
ghost use Rattle.cw_feed.specs.Yield.{HasYield};
ghost use Rattle.cw_model.specs.EventsSources.{ends_badly, is_bad_cut, batch_of};
ghost use Rattle.cw_model.specs.Tasks.{parts_of, part_at, count_of, tag_of, topic_of, yielded};
ghost use Rattle.cw_rows.specs.Producing.{cut_test, HasTopic};

use crate::steps::position_at;
use cw_data::Batch;
use cw_feed::{Feeds, yields_are_one};
use cw_model::{Cut, Instance, WorldFault, what_is_yielded_is_the_feeds_yield};
use cw_topics::tid_of;
use cw_types::{Epoch, Listed, Name, PartKey, Tag};
use std::alloc::{AllocError, Global};

/// The transaction that a task writes under.
pub(crate) fn tag_of(instance: &Instance) -> Result<Tag, AllocError>
    ensures { IfOk result (λ tag. tag ≡ tag_of instance.now) }
{
    Ok(Tag {
        number: instance.number,
        epoch: instance.epoch.unwrap_or(Epoch(0)),
        tid: tid_of(&instance.item)?,
    })
}

/// The part of a turn.
pub fn part_at(instance: &Instance, turn: u32) -> &PartKey
    requires { turn < length (parts_of instance.now) }
    ensures { result.now ≡ part_at turn instance.now }
{
    match &instance.task {
        Some(task) => &task.parts.as_slice()[turn as usize],
        None => unreachable!(),
    }
}

/// Whether a task may take a cut.
pub(crate) fn test_cut(feeds: &Feeds, instance: &Instance, cut: Cut) -> Result<(), WorldFault>
    requires { cut.turn < length (parts_of instance.now) }
    ensures { result ≡ cut_test feeds.now cut instance.now }
{
    if is_bad_cut(feeds, instance, cut) {
        return Err(WorldFault::BadCut {
            from: cut.from,
            to: cut.to,
        });
    }
    Ok(())
}

// Whether a task may not take a cut: it begins elsewhere, is empty, or ends badly.
fn is_bad_cut(feeds: &Feeds, instance: &Instance, cut: Cut) -> bool
    requires { cut.turn < length (parts_of instance.now) }
    ensures { result ≡ is_bad_cut feeds.now instance.now cut }
{
    if cut.from != position_at(instance, cut.turn) {
        return true;
    }
    if cut.to <= cut.from {
        return true;
    }
    let part = part_at(instance, cut.turn);
    ends_badly(feeds, part, count_of(instance), cut.from, cut.to)
}

// Whether a part may not be cut there.
fn ends_badly(feeds: &Feeds, part: &PartKey, count: u64, from: u64, to: u64) -> bool
    requires { from < to }
    ensures { result ≡ ends_badly feeds.now part.now count to }
{
    match part {
        PartKey::File { .. } => !feeds.has_yield(part, from, to),
        PartKey::Seq { .. } => count < to,
        PartKey::Raw(_) => true,
        PartKey::Sink { .. } => true,
    }
}

/// How many records each of a task's sequences has.
pub fn count_of(instance: &Instance) -> u64
    ensures { result ≡ count_of instance.now }
{
    match &instance.task {
        Some(task) => task.count,
        None => 0,
    }
}

/// What a task writes for a cut.
pub(crate) fn batch_of(
    alloc: Global,
    feeds: &Feeds,
    instance: &Instance,
    tag: Tag,
    cut: Cut,
) -> Result<Batch, AllocError>
    requires turn { cut.turn < length (parts_of instance.now) }
    requires tag { tag ≡ tag_of instance.now }
    requires topic { HasTopic instance.now }
    requires good { is_bad_cut feeds.now instance.now cut ≡ false }
    ensures batch { IfOk result (λ batch. InBatch batch ≡ batch_of feeds.now instance.now cut) }
{
    let part = part_at(instance, cut.turn);
    let values = values_between(alloc, feeds, part, cut.from, cut.to)?;
    let topic = topic_of(instance)?;
    Ok(Batch {
        tag,
        topic,
        part: part.copy()?,
        from: cut.from,
        to: cut.to,
        values,
    })
}

// The topic that a source writes.
fn topic_of(instance: &Instance) -> Result<Name, AllocError>
    requires { HasTopic instance.now }
    ensures { IfOk result (λ topic. topic ≡ topic_of instance.now) }
{
    match &instance.task {
        Some(task) => match &task.topic {
            Some(topic) => topic.copy(),
            None => unreachable!(),
        },
        None => unreachable!(),
    }
}

// What a part yields between two positions.
fn values_between(
    alloc: Global,
    feeds: &Feeds,
    part: &PartKey,
    from: u64,
    to: u64,
) -> Result<Listed<Listed<u8>>, AllocError>
    requires { HasYield feeds.now part.now from to }
    ensures { IfOk result (λ values. values ≡ yielded feeds.now part.now from to) }
{
    yields_are_one();
    what_is_yielded_is_the_feeds_yield();
    let texts = feeds.yield_of(part, from, to)?;
    let values = listed(alloc, texts)?;
    Ok(values)
}

pub(crate) fn listed(alloc: Global, texts: Vec<Vec<u8>>) -> Result<Listed<Listed<u8>>, AllocError>
    ensures { IfOk result (λ values. values ≡ map (λ text. text.items) texts.items) }
{
    let values = texts
        .into_iter()
        .map(|text| Listed::new(text))
        .collect(alloc)?;
    Ok(Listed::new(values))
}
