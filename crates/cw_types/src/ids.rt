//! Ids of producers, items of a worker, and parts of sources and sinks.
ghost use Rattle.std.specs.Prelude.{◌≡◌, ◌^◌, ◌-◌, IfOk};
ghost use Rattle.cw_types.specs.Decimal.{number_of};
ghost use Rattle.cw_types.specs.Name.{name_of};
ghost use Rattle.cw_types.specs.Order.{item_cmp};
ghost use Rattle.cw_types.specs.Task.{task_of_parts};
ghost use Rattle.cw_types.specs.Text.{tid_text};

use crate::decimal::read_u32;
use crate::name::Name;
use std::alloc::{AllocError, Global};
use std::cmp::Ordering;

/// A task of a connector. Tasks are numbered from 0.
#[derive(Debug, PartialEq, Eq, PartialOrd, Ord, Hash, Drop)]
pub struct TaskId {
    /// The connector's name.
    pub connector: Name,
    /// The task's number in its connector.
    pub index: u32,
}

impl TaskId {
    /// The task whose connector and number bytes are, or none where they are no name or no decimal number below
    /// 2^32. Want of memory alone is an error.
    pub fn from_bytes(
        alloc: Global,
        connector: &[u8],
        index: &[u8],
    ) -> Result<Option<TaskId>, AllocError>
        ensures { IfOk result (λ id. id ≡ task_of_parts (name_of connector.now) (number_of (2 ^ 32 - 1) index.now)) }
    {
        let Some(connector) = Name::from_bytes(alloc, connector)? else {
            return Ok(None);
        };
        match read_u32(index) {
            Some(index) => Ok(Some(TaskId { connector, index })),
            None => Ok(None),
        }
    }

    /// A copy.
    pub fn copy(&self) -> Result<Self, AllocError>
        ensures { IfOk result (λ id. id ≡ self.now) }
    {
        Ok(TaskId {
            connector: self.connector.copy()?,
            index: self.index,
        })
    }
}

/// What a worker runs. Connectors come before tasks, each by the bytes of its name, tasks then by index.
#[derive(Debug, PartialEq, Eq, PartialOrd, Ord, Drop)]
pub enum Item {
    /// A connector.
    Connector(Name),
    /// One of its tasks.
    Task(TaskId),
}

impl Item {
    /// A copy.
    pub fn copy(&self) -> Result<Self, AllocError>
        ensures { IfOk result (λ item. item ≡ self.now) }
    {
        match self {
            Item::Connector(name) => Ok(Item::Connector(name.copy()?)),
            Item::Task(id) => Ok(Item::Task(id.copy()?)),
        }
    }
}

/// How two items are ordered.
pub fn order_of_items(a: &Item, b: &Item) -> Ordering
    ensures { result ≡ item_cmp a.now b.now }
{
    a.cmp(b)
}

/// The transactional id of a producer (KIP-98, KIP-618).
#[derive(Debug, PartialEq, Eq, PartialOrd, Ord, Hash, Drop)]
pub enum Tid {
    /// The leader of the group, which writes configs.
    Lead,
    /// A task.
    Task(TaskId),
    /// A producer of a script, by its number.
    Raw(u32),
}

impl Tid {
    /// A copy.
    pub fn copy(&self) -> Result<Self, AllocError>
        ensures { IfOk result (λ tid. tid ≡ self.now) }
    {
        match self {
            Tid::Lead => Ok(Tid::Lead),
            Tid::Task(id) => Ok(Tid::Task(id.copy()?)),
            Tid::Raw(number) => Ok(Tid::Raw(*number)),
        }
    }
}

/// A producer's epoch: how often its id was initialised or fenced up to then, 0 before the first time.
#[derive(Clone, Copy, Debug, PartialEq, Eq, PartialOrd, Ord, Hash, Drop)]
pub struct Epoch(pub u64);

/// A transaction: its producer's id and epoch, and a number that tells it from others of these.
#[derive(Debug, PartialEq, Eq, PartialOrd, Ord, Hash, Drop)]
pub struct Tag {
    /// The transaction's number under its producer's id and epoch. It stands first, so that tags are
    /// ordered by it, which keeps those of a table in the order of their making.
    pub number: u64,
    /// The producer's epoch.
    pub epoch: Epoch,
    /// The producer's id.
    pub tid: Tid,
}

impl Tag {
    /// A copy.
    pub fn copy(&self) -> Result<Self, AllocError>
        ensures { IfOk result (λ tag. tag ≡ self.now) }
    {
        Ok(Tag {
            tid: self.tid.copy()?,
            epoch: self.epoch,
            number: self.number,
        })
    }
}

/// What offsets are kept of: a partition of a source, or a topic of a sink.
#[derive(Debug, PartialEq, Eq, Hash, Drop)]
pub enum PartKey {
    /// A part of a script, by its number.
    Raw(u32),
    /// A feed of a file source.
    File {
        /// The connector.
        connector: Name,
        /// The feed.
        feed: Name,
    },
    /// A sequence of a sequence source.
    Seq {
        /// The connector.
        connector: Name,
        /// The sequence's number.
        index: u32,
    },
    /// A topic of a sink.
    Sink {
        /// The connector.
        connector: Name,
        /// The topic.
        topic: Name,
    },
}

impl PartKey {
    /// A copy.
    pub fn copy(&self) -> Result<Self, AllocError>
        ensures { IfOk result (λ part. part ≡ self.now) }
    {
        match self {
            PartKey::Raw(number) => Ok(PartKey::Raw(*number)),
            PartKey::File { connector, feed } => Ok(PartKey::File {
                connector: connector.copy()?,
                feed: feed.copy()?,
            }),
            PartKey::Seq { connector, index } => Ok(PartKey::Seq {
                connector: connector.copy()?,
                index: *index,
            }),
            PartKey::Sink { connector, topic } => Ok(PartKey::Sink {
                connector: connector.copy()?,
                topic: topic.copy()?,
            }),
        }
    }
}

/// What one transaction adds to a part: from one position up to another, which isn't in it.
#[derive(Debug, PartialEq, Eq, Drop)]
pub struct Span {
    /// The part.
    pub part: PartKey,
    /// Its end before the transaction.
    pub from: u64,
    /// Its end after it.
    pub to: u64,
}

impl Span {
    /// A copy.
    pub fn copy(&self) -> Result<Self, AllocError>
        ensures { IfOk result (λ span. span ≡ self.now) }
    {
        Ok(Span {
            part: self.part.copy()?,
            from: self.from,
            to: self.to,
        })
    }
}

/// The text of a transactional id, as Kafka's brokers would see it (KIP-618): `connect-cluster-GROUP`
/// for the leader, `GROUP-CONNECTOR-INDEX` for a task, `raw-NUMBER` for a producer of a script.
pub fn tid_text(alloc: Global, group: &Name, tid: &Tid) -> Result<Vec<u8>, AllocError>
    ensures { IfOk result (λ text. text.items ≡ tid_text group.now tid.now) }
{
    let mut text = Vec::new(alloc);
    match tid {
        Tid::Lead => {
            text.extend_from_slice(b"connect-cluster-")?;
            text.extend_from_slice(group.as_bytes())?;
        }
        Tid::Task(id) => {
            text.extend_from_slice(group.as_bytes())?;
            text.push(b'-')?;
            text.extend_from_slice(id.connector.as_bytes())?;
            text.push(b'-')?;
            text.extend_from_slice(id.index.to_string(alloc)?.as_bytes())?;
        }
        Tid::Raw(number) => {
            text.extend_from_slice(b"raw-")?;
            text.extend_from_slice(number.to_string(alloc)?.as_bytes())?;
        }
    }
    Ok(text)
}

#[cfg(test)]
mod tests {
    use super::*;
    use std::test::Fail;

    #[test]
    fn ids_are_read_and_copied(rt: HostRuntime) -> Result<(), Fail> {
        let id = TaskId::from_bytes(rt.alloc(), b"a-1", b"0")?.ok_or("a task")?;
        let item = Item::Task(id.copy()?);
        assert!(rt; item.copy()? == item);
        let tag = Tag {
            tid: Tid::Task(id),
            epoch: Epoch(3),
            number: 4,
        };
        assert!(rt; tag.copy()? == tag);
        Ok(())
    }

    #[test]
    fn spans_are_copied(rt: HostRuntime) -> Result<(), Fail> {
        let span = Span {
            part: PartKey::Seq {
                connector: Name::read(rt.alloc(), b"a")?,
                index: 9,
            },
            from: 1,
            to: 2,
        };
        assert!(rt; span.copy()? == span);
        Ok(())
    }

    #[test]
    fn ids_have_texts(rt: HostRuntime) -> Result<(), Fail> {
        let group = Name::read(rt.alloc(), b"g")?;
        let id = TaskId::from_bytes(rt.alloc(), b"a-1", b"0")?.ok_or("a task")?;
        let text = tid_text(rt.alloc(), &group, &Tid::Task(id))?;
        assert_eq!(rt; text.as_slice(), b"g-a-1-0".as_slice());
        Ok(())
    }
}
