//! Feeds and sequences: where a batch ends, and what it has.

use crate::answer::Answer;
use crate::fault::Fault;
use crate::fields::Fields;
use crate::states::{States, load_feeds};
use cw_feed::{CutAnswer, Feeds};
use cw_io::MemShelf;
use cw_types::PartKey;
use std::alloc::Global;

/// `feed NAME PIECES`: loads one feed, of pieces that stand so many times each.
pub fn load(
    states: &mut States,
    fields: &mut Fields<'_>,
    answer: &mut Answer,
) -> Result<(), Fault> {
    let mut shelf = MemShelf::new(states.alloc, Vec::new(states.alloc));
    let name = fields.name(states.alloc)?;
    let content = pieces(states.alloc, fields)?;
    answer.count(content.len())?;
    shelf.put(name, content)?;
    states.feeds = load_feeds(states.alloc, &mut shelf)?;
    answer.count(states.feeds.names().len())
}

/// Bytes, as pieces that stand so many times each.
pub fn pieces(alloc: Global, fields: &mut Fields<'_>) -> Result<Vec<u8>, Fault> {
    let count = fields.short()?;
    let mut content = Vec::new(alloc);
    for _ in 0..count {
        let text = fields.text(alloc)?;
        let times = fields.short()?;
        add_times(&mut content, &text, times)?;
    }
    Ok(content)
}

fn add_times(content: &mut Vec<u8>, text: &[u8], times: u32) -> Result<(), Fault> {
    for _ in 0..times {
        content.extend_from_slice(text)?;
    }
    Ok(())
}

/// `cut PART COUNT FROM MAX`: where the next batch ends.
pub fn next_cut(
    states: &mut States,
    fields: &mut Fields<'_>,
    answer: &mut Answer,
) -> Result<(), Fault> {
    let part = fields.part(states.alloc)?;
    let cut = read_cut(&states.feeds, &part, fields)?;
    say_cut(cut, answer)
}

// The cut of a part that the fields behind it ask for.
fn read_cut(feeds: &Feeds, part: &PartKey, fields: &mut Fields<'_>) -> Result<CutAnswer, Fault> {
    let count = fields.long()?;
    let from = fields.long()?;
    let most = fields.short()?;
    cut_of(feeds, part, count, from, most).ok_or(Fault::NoCall)
}

fn say_cut(cut: CutAnswer, answer: &mut Answer) -> Result<(), Fault> {
    match cut {
        CutAnswer::Cut { to } => {
            answer.word("Cut")?;
            answer.long(to)
        }
        CutAnswer::AtEnd => answer.word("AtEnd"),
        CutAnswer::LineTooLong(at) => {
            answer.word("LineTooLong")?;
            answer.long(at)
        }
    }
}

// The cut of a source's part, for at least one record.
fn cut_of(feeds: &Feeds, part: &PartKey, count: u64, from: u64, most: u32) -> Option<CutAnswer> {
    if most == 0 {
        return None;
    }
    match part {
        PartKey::File { .. } | PartKey::Seq { .. } => Some(feeds.next_cut(part, count, from, most)),
        PartKey::Raw(_) | PartKey::Sink { .. } => None,
    }
}

/// `yield PART FROM TO`: the records between.
pub fn yield_of(
    states: &mut States,
    fields: &mut Fields<'_>,
    answer: &mut Answer,
) -> Result<(), Fault> {
    let part = fields.part(states.alloc)?;
    let records = read_yield(&states.feeds, &part, fields)?;
    answer.count(records.len())?;
    for record in &records {
        answer.text(record)?;
    }
    Ok(())
}

// The records of a part between the positions that the fields behind it name.
fn read_yield(
    feeds: &Feeds,
    part: &PartKey,
    fields: &mut Fields<'_>,
) -> Result<Vec<Vec<u8>>, Fault> {
    let from = fields.long()?;
    let to = fields.long()?;
    if !feeds.has_yield(part, from, to) {
        return Err(Fault::NoCall);
    }
    Ok(feeds.yield_of(part, from, to)?)
}
