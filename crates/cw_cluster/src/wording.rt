//! The words in which an answer tells what a directive came to.
ghost use Rattle.std.specs.Prelude.{◌≡◌, ◌++◌, map, codes, IfOk, OnOk};
ghost use Rattle.serde_json.specs.Written.{compact_text};
ghost use Rattle.uuid.specs.Text.{lower, hyphenated_text};
ghost use Rattle.cw_rest.specs.Offsets.{partition_of};
ghost use Rattle.cw_model.specs.StepText.{step_text};
ghost use Rattle.cw_model.specs.StepText as stepped;
ghost use Rattle.cw_model.specs.TickText.{words, item_text};
ghost use Rattle.cw_run.specs.Answers.{committed_words, reply_words, worker_words, span_words, part_number};
ghost use Rattle.cw_run.specs.Looks.{member_name, uuid_of};
ghost use Rattle.cw_cluster.specs.Outcomes.{incarnation_words, outcome_words, spaced};

use crate::outcome::Outcome;
use crate::texts::{ItemText, LogText, TickText};
use cw_keys::text_of_name;
use cw_model::Did;
use cw_reply::partition_value;
use cw_route::Reply;
use cw_types::{Item, Name, PartKey, Span};
use std::alloc::{AllocError, Global};
use std::io;
use std::io::Write;
use uuid::Uuid;

/// Puts the words of an outcome in a group behind a text, parted by one space. Where memory is wanting some of them
/// may stand there.
pub(crate) fn write_outcome(
    alloc: Global,
    text: &mut Vec<u8>,
    group: &Name,
    outcome: &Outcome,
) -> io::Result<()>
    ensures { OnOk result (text.new.items ≡ text.old.items ++ words (outcome_words group.now outcome.now)) }
{
    match outcome {
        Outcome::Epoch(epoch) => {
            let number = epoch.0;
            write!(text, "epoch {number}")
        }
        Outcome::Committed(spans) => write_spans(text, spans.as_slice()),
        Outcome::Spawned(w) => write!(text, "worker {w}"),
        Outcome::Killed(w) => write!(text, "killed {w}"),
        Outcome::Deaf(w) => write!(text, "deaf {w}"),
        Outcome::Hears(w) => write!(text, "hears {w}"),
        Outcome::Expired(w) => write!(text, "expired {w}"),
        Outcome::Clock(now) => write!(text, "clock {now}"),
        Outcome::Tick(w, tick) => {
            let tick = TickText { group, tick };
            write!(text, "tick {w} {tick}")
        }
        Outcome::Step(i, did) => {
            write!(text, "step {i} ")?;
            write_step(alloc, text, did)
        }
        Outcome::Settled { quiet: true, moved } => write!(text, "quiet {moved}"),
        Outcome::Settled {
            quiet: false,
            moved,
        } => write!(text, "unquiet {moved}"),
        Outcome::Replied(reply) => write_reply(text, reply),
        Outcome::Held(w, items) => write_held(text, *w, items.as_slice()),
        Outcome::Member(w, incarnation) => write_member(alloc, text, group, *w, *incarnation),
        Outcome::Record { offset, value } => {
            write!(text, "record {offset} ")?;
            text.write_all(value.as_slice())
        }
        Outcome::NoRecord => write!(text, "none"),
        Outcome::Compacted { log, before, after } => {
            let log = LogText { log: *log };
            write!(text, "compacted {log} {before} {after}")
        }
    }
}

// The spans of a commit.
fn write_spans(text: &mut Vec<u8>, spans: &[Span]) -> io::Result<()>
    ensures { OnOk result (text.new.items ≡ text.old.items ++ words (committed_words spans.now)) }
{
    write!(text, "committed")?;
    for span in spans {
        write_span(text, span)?;
    }
    Ok(())
}

// The number of a script's part, and the positions between which it was committed, each behind a space.
fn write_span(text: &mut Vec<u8>, span: &Span) -> io::Result<()>
    ensures { OnOk result (text.new.items ≡ text.old.items ++ spaced (span_words span.now)) }
{
    let Span { part, from, to } = span;
    let number = part_number(part);
    write!(text, " {number} {from} {to}")
}

// The number of a script's part.
fn part_number(part: &PartKey) -> u32
    ensures { result ≡ part_number part.now }
{
    match part {
        PartKey::Raw(number) => *number,
        _ => 0,
    }
}

// What a worker holds.
fn write_held(text: &mut Vec<u8>, w: u32, items: &[Item]) -> io::Result<()>
    ensures { OnOk result (text.new.items ≡
        text.old.items ++ words (worker_words (codes "held") w ++ map item_text items.now)) }
{
    write!(text, "held {w}")?;
    write_items(text, items)
}

// Items, each behind a space.
fn write_items(text: &mut Vec<u8>, items: &[Item]) -> io::Result<()>
    ensures { OnOk result (text.new.items ≡ text.old.items ++ spaced (map item_text items.now)) }
{
    for item in items {
        let item = ItemText { item };
        write!(text, " {item}")?;
    }
    Ok(())
}

// A request's reply: its code, and the body where there is one.
fn write_reply(text: &mut Vec<u8>, reply: &Reply) -> io::Result<()>
    ensures { OnOk result (text.new.items ≡ text.old.items ++ words (reply_words reply.now)) }
{
    let code = reply.code;
    let body = reply.body.as_slice();
    write!(text, "{code}")?;
    if body.is_empty() {
        return Ok(());
    }
    write!(text, " ")?;
    text.write_all(body)
}

// The id of a worker as a member.
fn write_member(
    alloc: Global,
    text: &mut Vec<u8>,
    group: &Name,
    w: u32,
    incarnation: Option<u64>,
) -> io::Result<()>
    ensures { OnOk result (text.new.items ≡ text.old.items ++ words (incarnation_words group.now w incarnation)) }
{
    let Some(incarnation) = incarnation else {
        return write!(text, "none {w}");
    };
    write!(text, "member {w} ")?;
    write_uuid(text, &member_name(alloc, group, w, incarnation)?)
}

// The name that a member's id is made of.
fn member_name(alloc: Global, group: &Name, w: u32, incarnation: u64) -> Result<Vec<u8>, AllocError>
    ensures { IfOk result (λ name. name.items ≡ member_name group.now w incarnation) }
{
    let group = text_of_name(group);
    Ok(format!(in alloc; "{group}/{w}/{incarnation}")?.into_bytes())
}

// The UUID of a name.
#[tactic(auto, unfolding(cw_run::specs::Looks::uuid_of))]
fn uuid_of(name: &[u8]) -> Uuid
    ensures { result ≡ uuid_of name.now }
{
    Uuid::new_v5(&Uuid::nil(), name)
}

// The UUID of a name, in small letters and with hyphens.
fn write_uuid(text: &mut Vec<u8>, name: &[u8]) -> io::Result<()>
    ensures { OnOk result (text.new.items ≡ text.old.items ++ hyphenated_text lower (uuid_of name.now)) }
{
    let id = uuid_of(name);
    let mut buffer = Uuid::encode_buffer();
    let hyphenated = id.hyphenated().encode_lower(&mut buffer);
    text.write_all(hyphenated.as_bytes())
}

// What a step did.
fn write_step(alloc: Global, text: &mut Vec<u8>, did: &Did) -> io::Result<()>
    ensures { OnOk result (text.new.items ≡ text.old.items ++ step_text did.now) }
{
    match did {
        Did::Init(epoch) => write!(text, "init {epoch}"),
        Did::Verify(generation) => write!(text, "verify {generation}"),
        Did::Fetch => write!(text, "fetch"),
        Did::Produce(span) => {
            write!(text, "produce ")?;
            write_partition(alloc, text, span)
        }
        Did::Offsets => write!(text, "offsets"),
        Did::Commit(span) => {
            write!(text, "commit ")?;
            write_partition(alloc, text, span)
        }
        Did::Deliver { topic, from, to } => {
            let topic = text_of_name(topic);
            write!(text, "deliver {topic} {from} {to}")
        }
        Did::AtEnd => write!(text, "atend"),
        Did::Paused => write!(text, "paused"),
        Did::Stale { own, current } => write!(text, "stale {own} {current}"),
        Did::Pending => write!(text, "pending"),
        Did::Fenced { own, current } => write!(text, "fenced {own} {current}"),
        Did::LineTooLong(at) => write!(text, "linetoolong {at}"),
        Did::Gone => write!(text, "gone"),
        Did::Failed => write!(text, "failed"),
    }
}

// A span: its part's partition, and the positions between which it lies.
fn write_partition(alloc: Global, text: &mut Vec<u8>, span: &Span) -> io::Result<()>
    ensures { OnOk result (text.new.items ≡ text.old.items ++ words (stepped.span_words span.now)) }
{
    let Span { part, from, to } = span;
    text.write_all(&partition_text(alloc, part)?)?;
    write!(text, " {from} {to}")
}

// A part as a partition of Connect's offsets, in JSON.
fn partition_text(alloc: Global, part: &PartKey) -> Result<Vec<u8>, AllocError>
    ensures { IfOk result (λ text. text.items ≡ compact_text (partition_of part.now)) }
{
    partition_value(alloc, part)?.to_vec(alloc)
}
