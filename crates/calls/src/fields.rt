//! The fields of a line, read from left to right.

use crate::fault::Fault;
use cw_json::{JsonFault, Props, read_props};
use cw_types::{Epoch, Item, Name, NameFault, PartKey, Span, Tag, TaskId, Tid, read_u32, read_u64};
use hex::decode;
use std::alloc::Global;

/// The fields of a line that aren't read yet.
#[derive(Debug, Drop)]
pub struct Fields<'a> {
    rest: Option<&'a str>,
}

impl<'a> Fields<'a> {
    /// Those of a whole line.
    pub fn of(line: &'a str) -> Fields<'a> {
        Fields { rest: Some(line) }
    }

    /// The next field as it is.
    pub fn word(&mut self) -> Result<&'a str, Fault> {
        let Some(text) = self.rest else {
            return Err(Fault::NoCall);
        };
        match text.split_once('\t') {
            Some((word, rest)) => {
                self.rest = Some(rest);
                Ok(word)
            }
            None => {
                self.rest = None;
                Ok(text)
            }
        }
    }

    /// A number below 2^64.
    pub fn long(&mut self) -> Result<u64, Fault> {
        read_u64(self.word()?.as_bytes()).ok_or(Fault::NoCall)
    }

    /// A number below 2^32.
    pub fn short(&mut self) -> Result<u32, Fault> {
        read_u32(self.word()?.as_bytes()).ok_or(Fault::NoCall)
    }

    /// `yes` or `no`.
    pub fn flag(&mut self) -> Result<bool, Fault> {
        match self.word()? {
            "yes" => Ok(true),
            "no" => Ok(false),
            _ => Err(Fault::NoCall),
        }
    }

    /// A number below 2^64, or none.
    pub fn some_long(&mut self) -> Result<Option<u64>, Fault> {
        match self.word()? {
            "#-" => Ok(None),
            word => Ok(Some(read_u64(word.as_bytes()).ok_or(Fault::NoCall)?)),
        }
    }

    /// A text.
    pub fn text(&mut self, alloc: Global) -> Result<Vec<u8>, Fault> {
        text_of(alloc, self.word()?)
    }

    /// A text, or none.
    pub fn some_text(&mut self, alloc: Global) -> Result<Option<Vec<u8>>, Fault> {
        match self.word()? {
            "#-" => Ok(None),
            word => Ok(Some(text_of(alloc, word)?)),
        }
    }

    /// A name.
    pub fn name(&mut self, alloc: Global) -> Result<Name, Fault> {
        let text = self.text(alloc)?;
        match Name::read(alloc, &text) {
            Ok(name) => Ok(name),
            Err(NameFault::Memory) => Err(Fault::Memory),
            Err(_) => Err(Fault::NoCall),
        }
    }

    /// A task: its connector and its index.
    pub fn task(&mut self, alloc: Global) -> Result<TaskId, Fault> {
        Ok(TaskId {
            connector: self.name(alloc)?,
            index: self.short()?,
        })
    }

    /// A connector, behind a `c`, or a task, behind a `t`.
    pub fn item(&mut self, alloc: Global) -> Result<Item, Fault> {
        let item = match self.word()? {
            "c" => Item::Connector(self.name(alloc)?),
            "t" => Item::Task(self.task(alloc)?),
            _ => return Err(Fault::NoCall),
        };
        Ok(item.copy()?)
    }

    /// A producer's id, behind its kind.
    pub fn tid(&mut self, alloc: Global) -> Result<Tid, Fault> {
        let tid = match self.word()? {
            "lead" => Tid::Lead,
            "task" => Tid::Task(self.task(alloc)?),
            "raw" => Tid::Raw(self.short()?),
            _ => return Err(Fault::NoCall),
        };
        Ok(tid.copy()?)
    }

    /// A transaction: its producer's id, the epoch and the number.
    pub fn tag(&mut self, alloc: Global) -> Result<Tag, Fault> {
        let tag = Tag {
            tid: self.tid(alloc)?,
            epoch: Epoch(self.long()?),
            number: self.long()?,
        };
        Ok(tag.copy()?)
    }

    /// A part, behind its kind.
    pub fn part(&mut self, alloc: Global) -> Result<PartKey, Fault> {
        let part = match self.word()? {
            "raw" => PartKey::Raw(self.short()?),
            "file" => PartKey::File {
                connector: self.name(alloc)?,
                feed: self.name(alloc)?,
            },
            "seq" => PartKey::Seq {
                connector: self.name(alloc)?,
                index: self.short()?,
            },
            "sink" => PartKey::Sink {
                connector: self.name(alloc)?,
                topic: self.name(alloc)?,
            },
            _ => return Err(Fault::NoCall),
        };
        Ok(part.copy()?)
    }

    /// A span: its part, its start and its end.
    pub fn span(&mut self, alloc: Global) -> Result<Span, Fault> {
        let span = self.span_as_read(alloc)?;
        let copy = span.copy();
        drop(span);
        Ok(copy?)
    }

    fn span_as_read(&mut self, alloc: Global) -> Result<Span, Fault> {
        let part = self.part(alloc)?;
        match self.ends() {
            Ok((from, to)) => Ok(Span { part, from, to }),
            Err(fault) => {
                drop(part);
                Err(fault)
            }
        }
    }

    fn ends(&mut self) -> Result<(u64, u64), Fault> {
        Ok((self.long()?, self.long()?))
    }

    /// Properties as a JSON object.
    pub fn props(&mut self, alloc: Global) -> Result<Props, Fault> {
        let text = self.text(alloc)?;
        match read_props(alloc, &text) {
            Ok(props) => Ok(props),
            Err(JsonFault::Memory) => Err(Fault::Memory),
            Err(_) => Err(Fault::NoCall),
        }
    }

    /// A list of names.
    pub fn names(&mut self, alloc: Global) -> Result<Vec<Name>, Fault> {
        let count = self.short()?;
        let mut names = Vec::new(alloc);
        for _ in 0..count {
            names.push(self.name(alloc)?)?;
        }
        Ok(names)
    }

    /// A list of connectors and tasks.
    pub fn items(&mut self, alloc: Global) -> Result<Vec<Item>, Fault> {
        let count = self.short()?;
        let mut items = Vec::new(alloc);
        for _ in 0..count {
            items.push(self.item(alloc)?)?;
        }
        Ok(items)
    }

    /// A list of spans.
    pub fn spans(&mut self, alloc: Global) -> Result<Vec<Span>, Fault> {
        let count = self.short()?;
        let mut spans = Vec::new(alloc);
        for _ in 0..count {
            spans.push(self.span(alloc)?)?;
        }
        Ok(spans)
    }
}

// The bytes that a field stands for.
fn text_of(alloc: Global, word: &str) -> Result<Vec<u8>, Fault> {
    match word.strip_prefix('#') {
        Some(digits) => decode(alloc, digits).map_err(|_| Fault::NoCall),
        None => Ok(word.as_bytes().to_vec(alloc)?),
    }
}
