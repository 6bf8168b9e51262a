//! A line: its words, read from left to right, and what it is answered.
ghost use Rattle.std.specs.Prelude.{◌<◌, ◌^◌, IfOk};

use crate::refusal::{Made, Refusal};
use cw_types::{Item, Name, Span, TaskId, read_u32, read_u64};
use std::alloc::Global;
use std::fmt::Write;

/// The words of a line that aren't read yet, and the words of its answer.
#[derive(Drop)]
pub(crate) struct Line<'a> {
    pub(crate) alloc: Global,
    rest: &'a str,
    pub(crate) answer: String,
}

impl<'a> Line<'a> {
    /// A line that isn't answered.
    pub(crate) fn of(alloc: Global, text: &'a str) -> Line<'a> {
        Line {
            alloc,
            rest: text,
            answer: String::new(alloc),
        }
    }

    /// The next word; an empty one behind the last.
    pub(crate) fn word(&mut self) -> &'a str {
        let (word, rest) = self.rest.split_once(' ').unwrap_or((self.rest, ""));
        self.rest = rest;
        word
    }

    /// A number below 2^64.
    pub(crate) fn long(&mut self) -> Result<u64, Refusal>
        ensures { IfOk result (λ number. number < 2 ^ 64) }
    {
        read_u64(self.word().as_bytes()).ok_or(Refusal::NoEvent)
    }

    /// A number below 2^32.
    pub(crate) fn short(&mut self) -> Result<u32, Refusal>
        ensures { IfOk result (λ number. number < 2 ^ 32) }
    {
        read_u32(self.word().as_bytes()).ok_or(Refusal::NoEvent)
    }

    /// A name.
    pub(crate) fn name(&mut self) -> Result<Name, Refusal> {
        Name::from_bytes(self.alloc, self.word().as_bytes())?.ok_or(Refusal::NoEvent)
    }

    /// A task, as `NAME/INDEX`.
    pub(crate) fn task(&mut self) -> Result<Item, Refusal> {
        let (connector, index) = self.word().split_once('/').ok_or(Refusal::NoEvent)?;
        let id = TaskId::from_bytes(self.alloc, connector.as_bytes(), index.as_bytes())?;
        Ok(Item::Task(id.ok_or(Refusal::NoEvent)?))
    }

    /// Answers a number, behind those that it answered before.
    pub(crate) fn tell(&mut self, number: u64) -> Made {
        Ok(write!(self.answer, " {number}")?)
    }

    /// Answers the positions of a span.
    pub(crate) fn tell_span(&mut self, span: &Span) -> Made {
        let Span { part: _, from, to } = span;
        Ok(write!(self.answer, " {from}..{to}")?)
    }
}
