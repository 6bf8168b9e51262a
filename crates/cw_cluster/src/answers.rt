//! The answers of a script, until they are written.
ghost use Rattle.std.specs.Prelude.{ℕ, ◌≡◌, ◌++◌, [], Ok, Err, OnOk, MatchResult};
ghost use Rattle.cw_run.specs.Answers.{refusal, text_of};
ghost use Rattle.cw_cluster.specs.Outcomes.{outcome_words};
ghost use Rattle.cw_cluster.specs.Saying.{Says, Writes, text_in};
ghost use Rattle.std.specs.Result.{result_err};

use crate::outcome::Outcome;
use crate::wording::write_outcome;
use cw_lines::DriveEnd;
use cw_model::WorldFault;
use cw_types::Name;
use std::alloc::Global;
use std::io;
use std::io::Write;
use std::marker::Model;

/// Answers that aren't written yet, a line for each.
#[derive(Drop)]
pub(crate) struct Answers {
    alloc: Global,
    line: Vec<u8>,
    text: Vec<u8>,
}

impl Model for Answers {
    ghost use Rattle.std.specs.Prelude.{List, ℕ};

    ghost Value = { List ℕ };

    ghost view = { λ a. a.text.items };
}

impl Answers {
    /// None yet.
    pub(crate) fn new(alloc: Global) -> Answers
        ensures { result ≡ [] }
    {
        Answers {
            alloc,
            line: Vec::new(alloc),
            text: Vec::new(alloc),
        }
    }

    /// Their text.
    pub(crate) fn as_bytes(&self) -> &[u8]
        ensures { result.now ≡ self.now }
    {
        self.text.as_slice()
    }

    /// Forgets them, once they are written.
    pub(crate) fn forget(&mut self)
        ensures { self.new ≡ [] }
    {
        self.text.clear();
    }

    /// Says in a line what a directive came to in a group, or why it was refused; `n` is the worker, the instance or
    /// the producer that it names. A log that is full, a disk that fails and want of memory end the script, and nothing
    /// is said.
    pub(crate) fn say(
        &mut self,
        group: &Name,
        n: u64,
        done: Result<Outcome, WorldFault>,
    ) -> Result<(), DriveEnd>
        ensures { Says (text_of n done (outcome_words group.now)) self.old self.new result }
    {
        self.line.clear();
        write_done(self.alloc, &mut self.line, group, n, done)?;
        self.line.extend_from_slice(b"\n")?;
        self.text.extend_from_slice(&self.line)?;
        Ok(())
    }
}

// Puts behind a text what a directive came to, or why it was refused. Where memory is wanting a part of it may stand
// there.
fn write_done(
    alloc: Global,
    text: &mut Vec<u8>,
    group: &Name,
    n: u64,
    done: Result<Outcome, WorldFault>,
) -> Result<(), DriveEnd>
    ensures { Writes (text_of n done (outcome_words group.now)) text.old.items text.new.items result }
{
    match done {
        Ok(outcome) => written(write_outcome(alloc, text, group, &outcome)),
        Err(fault) => match end_of(&fault) {
            Some(end) => Err(end),
            None => written(write_refusal(text, n, &fault)),
        },
    }
}

// Want of memory is all that a text in memory may fail of.
fn written(done: io::Result<()>) -> Result<(), DriveEnd>
    ensures { MatchResult done (λ _. result ≡ Ok tt) (λ _. result ≡ Err DriveEnd.Memory) }
{
    match done {
        Ok(()) => Ok(()),
        Err(_) => Err(DriveEnd::Memory),
    }
}

// How a refusal ends the script; None where it is said.
fn end_of(fault: &WorldFault) -> Option<DriveEnd>
    ensures { (n : ℕ) → result ≡ result_err (refusal n fault.now) }
{
    match fault {
        WorldFault::Full { log, length, frame } => Some(DriveEnd::Full {
            log: *log,
            length: *length,
            frame: *frame,
        }),
        WorldFault::StoreFault { disk, count } | WorldFault::Closed { disk, count } => {
            Some(DriveEnd::StoreFault {
                disk: *disk,
                count: *count,
            })
        }
        WorldFault::Memory => Some(DriveEnd::Memory),
        _ => None,
    }
}

// Puts the words of a refusal behind a text; nothing where it ends the script.
fn write_refusal(text: &mut Vec<u8>, n: u64, fault: &WorldFault) -> io::Result<()>
    ensures { OnOk result (text.new.items ≡ text.old.items ++ text_in (refusal n fault.now)) }
{
    match fault {
        WorldFault::Fenced { own, current } => write!(text, "fenced {own} {current}"),
        WorldFault::StaleGeneration { own, current } => write!(text, "stale {own} {current}"),
        WorldFault::PendingFence => write!(text, "pending"),
        WorldFault::BadCut { from, to } => write!(text, "badcut {from} {to}"),
        WorldFault::Gone(i) => write!(text, "gone {i}"),
        WorldFault::Dead(w) => write!(text, "dead {w}"),
        WorldFault::Group(_) => write!(text, "unknown {n}"),
        WorldFault::TooMany => write!(text, "toomany 64"),
        WorldFault::Full { .. }
        | WorldFault::StoreFault { .. }
        | WorldFault::Closed { .. }
        | WorldFault::Memory => Ok(()),
    }
}
