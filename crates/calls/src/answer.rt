//! The answer of a call: fields that are parted by tabs.

use crate::fault::Fault;
use cw_json::{Props, Text, text_of};
use cw_types::{Item, Name, PartKey, Span, Tag, TaskId, Tid};
use hex::encode;
use std::alloc::{AllocError, Global};

/// The answer of a call, field by field.
#[derive(Debug, Drop)]
pub struct Answer {
    alloc: Global,
    text: String,
}

impl Answer {
    /// With no field.
    pub fn new(alloc: Global) -> Answer {
        Answer {
            alloc,
            text: String::new(alloc),
        }
    }

    /// Forgets the fields.
    pub fn clear(&mut self) {
        self.text.clear();
    }

    /// Ends the line, and gives its bytes.
    pub fn line(&mut self) -> Result<&[u8], AllocError> {
        self.text.push('\n')?;
        Ok(self.text.as_bytes())
    }

    /// A field as it is.
    pub fn word(&mut self, word: &str) -> Result<(), Fault> {
        if !self.text.is_empty() {
            self.text.push('\t')?;
        }
        Ok(self.text.push_str(word)?)
    }

    /// A number.
    pub fn long(&mut self, number: u64) -> Result<(), Fault> {
        let word = number.to_string(self.alloc)?;
        self.word(word.as_str())
    }

    /// A number, or none.
    pub fn some_long(&mut self, number: Option<u64>) -> Result<(), Fault> {
        match number {
            Some(number) => self.long(number),
            None => self.word("#-"),
        }
    }

    /// The length of a list, which goes before its elements.
    pub fn count(&mut self, count: usize) -> Result<(), Fault> {
        self.long(count as u64)
    }

    /// `yes` or `no`.
    pub fn flag(&mut self, flag: bool) -> Result<(), Fault> {
        self.word(if flag { "yes" } else { "no" })
    }

    /// A text.
    pub fn text(&mut self, bytes: &[u8]) -> Result<(), Fault> {
        match printable(bytes) {
            Some(word) => self.word(word),
            None => self.hex(bytes),
        }
    }

    // A text as hex.
    fn hex(&mut self, bytes: &[u8]) -> Result<(), Fault> {
        self.word("#")?;
        let digits = encode(self.alloc, bytes)?;
        Ok(self.text.push_str(digits.as_str())?)
    }

    /// A text, or none.
    pub fn some_text(&mut self, bytes: Option<&[u8]>) -> Result<(), Fault> {
        match bytes {
            Some(bytes) => self.text(bytes),
            None => self.word("#-"),
        }
    }

    /// A text of a JSON value.
    pub fn json_text(&mut self, text: &Text) -> Result<(), Fault> {
        self.text(text.as_str().as_bytes())
    }

    /// A name.
    pub fn name(&mut self, name: &Name) -> Result<(), Fault> {
        self.text(name.as_bytes())
    }

    /// A task.
    pub fn task(&mut self, id: &TaskId) -> Result<(), Fault> {
        self.name(&id.connector)?;
        self.long(u64::from(id.index))
    }

    /// A connector or a task.
    pub fn item(&mut self, item: &Item) -> Result<(), Fault> {
        match item {
            Item::Connector(name) => {
                self.word("c")?;
                self.name(name)
            }
            Item::Task(id) => {
                self.word("t")?;
                self.task(id)
            }
        }
    }

    /// A list of connectors and tasks.
    pub fn items(&mut self, items: &[Item]) -> Result<(), Fault> {
        self.count(items.len())?;
        for item in items {
            self.item(item)?;
        }
        Ok(())
    }

    /// A producer's id.
    pub fn tid(&mut self, tid: &Tid) -> Result<(), Fault> {
        match tid {
            Tid::Lead => self.word("lead"),
            Tid::Task(id) => {
                self.word("task")?;
                self.task(id)
            }
            Tid::Raw(number) => {
                self.word("raw")?;
                self.long(u64::from(*number))
            }
        }
    }

    /// A transaction.
    pub fn tag(&mut self, tag: &Tag) -> Result<(), Fault> {
        self.tid(&tag.tid)?;
        self.long(tag.epoch.0)?;
        self.long(tag.number)
    }

    /// A transaction, or none.
    pub fn some_tag(&mut self, tag: Option<&Tag>) -> Result<(), Fault> {
        match tag {
            Some(tag) => self.tag(tag),
            None => self.word("#-"),
        }
    }

    /// A part.
    pub fn part(&mut self, part: &PartKey) -> Result<(), Fault> {
        match part {
            PartKey::Raw(number) => {
                self.word("raw")?;
                self.long(u64::from(*number))
            }
            PartKey::File { connector, feed } => self.named_part("file", connector, feed),
            PartKey::Seq { connector, index } => {
                self.word("seq")?;
                self.name(connector)?;
                self.long(u64::from(*index))
            }
            PartKey::Sink { connector, topic } => self.named_part("sink", connector, topic),
        }
    }

    // A part of two names.
    fn named_part(&mut self, kind: &str, connector: &Name, of: &Name) -> Result<(), Fault> {
        self.word(kind)?;
        self.name(connector)?;
        self.name(of)
    }

    /// A list of parts.
    pub fn parts(&mut self, parts: &[PartKey]) -> Result<(), Fault> {
        self.count(parts.len())?;
        for part in parts {
            self.part(part)?;
        }
        Ok(())
    }

    /// A span.
    pub fn span(&mut self, span: &Span) -> Result<(), Fault> {
        self.part(&span.part)?;
        self.long(span.from)?;
        self.long(span.to)
    }

    /// Properties as a JSON object.
    pub fn props(&mut self, props: &Props) -> Result<(), Fault> {
        let text = text_of(self.alloc, props)?;
        self.text(&text)
    }

    /// Properties as a JSON object, or none.
    pub fn some_props(&mut self, props: Option<&Props>) -> Result<(), Fault> {
        match props {
            Some(props) => self.props(props),
            None => self.word("#-"),
        }
    }
}

// A text as it is, if it may stand so: printable ASCII that isn't empty and begins with no `#`.
fn printable(bytes: &[u8]) -> Option<&str> {
    if bytes.is_empty() || bytes.starts_with(b"#") {
        return None;
    }
    if bytes.iter().all(|byte| (32..=126).contains(byte)) {
        std::str::from_utf8(bytes).ok()
    } else {
        None
    }
}
