//! The texts of a script's answers: items, logs, producers, and what a tick did.
use cw_keys::text_of_name;
use cw_model::Tick;
use cw_types::{Item, LogName, Name, Tag, TaskId, Tid};
use std::fmt;

/// An item, as `c/NAME` or `t/NAME/INDEX`.
#[derive(Clone, Copy, Drop)]
pub(crate) struct ItemText<'a> {
    pub(crate) item: &'a Item,
}

impl fmt::Display for ItemText<'_> {
    ghost use Rattle.std.specs.Prelude.{Some};
    ghost use Rattle.cw_model.specs.TickText.{item_text};

    ghost output = { λ text. Some (item_text text.item.now) };

    fn fmt<W: fmt::Write>(&self, f: &mut fmt::Formatter<W>) -> fmt::Result {
        match self.item {
            Item::Connector(name) => {
                let name = text_of_name(name);
                write!(f, "c/{name}")
            }
            Item::Task(TaskId { connector, index }) => {
                let name = text_of_name(connector);
                write!(f, "t/{name}/{index}")
            }
        }
    }
}

/// A task, as `NAME/INDEX`.
#[derive(Clone, Copy, Drop)]
struct TaskText<'a> {
    task: &'a TaskId,
}

impl fmt::Display for TaskText<'_> {
    ghost use Rattle.std.specs.Prelude.{Some};
    ghost use Rattle.cw_model.specs.TickText.{task_text};

    ghost output = { λ text. Some (task_text text.task.now) };

    fn fmt<W: fmt::Write>(&self, f: &mut fmt::Formatter<W>) -> fmt::Result {
        let TaskId { connector, index } = self.task;
        let name = text_of_name(connector);
        write!(f, "{name}/{index}")
    }
}

/// The name of a log.
#[derive(Clone, Copy, Drop)]
pub(crate) struct LogText {
    pub(crate) log: LogName,
}

impl fmt::Display for LogText {
    ghost use Rattle.std.specs.Prelude.{Some};
    ghost use Rattle.cw_rest.specs.Messages.{log_text};

    ghost output = { λ text. Some (log_text text.log) };

    fn fmt<W: fmt::Write>(&self, f: &mut fmt::Formatter<W>) -> fmt::Result {
        match self.log {
            LogName::Config => write!(f, "config"),
            LogName::Offsets => write!(f, "offsets"),
            LogName::Status => write!(f, "status"),
            LogName::Txn => write!(f, "transactions"),
            LogName::Batches => write!(f, "batches"),
        }
    }
}

/// A producer's transactional id in a group (KIP-618).
#[derive(Clone, Copy, Drop)]
struct TidText<'a> {
    group: &'a Name,
    tid: &'a Tid,
}

impl fmt::Display for TidText<'_> {
    ghost use Rattle.std.specs.Prelude.{Some};
    ghost use Rattle.cw_types.specs.Text.{tid_text};

    ghost output = { λ text. Some (tid_text text.group.now text.tid.now) };

    fn fmt<W: fmt::Write>(&self, f: &mut fmt::Formatter<W>) -> fmt::Result {
        let group = text_of_name(self.group);
        match self.tid {
            Tid::Lead => write!(f, "connect-cluster-{group}"),
            Tid::Task(TaskId { connector, index }) => {
                let name = text_of_name(connector);
                write!(f, "{group}-{name}-{index}")
            }
            Tid::Raw(number) => write!(f, "raw-{number}"),
        }
    }
}

/// How a transaction ended.
#[derive(Clone, Copy, Drop)]
struct EndText {
    committed: bool,
}

impl fmt::Display for EndText {
    ghost use Rattle.std.specs.Prelude.{Some};
    ghost use Rattle.cw_model.specs.TickText.{end_text};

    ghost output = { λ text. Some (end_text text.committed) };

    fn fmt<W: fmt::Write>(&self, f: &mut fmt::Formatter<W>) -> fmt::Result {
        if self.committed {
            return write!(f, "commit");
        }
        write!(f, "abort")
    }
}

/// A marker that a worker wrote, and of which transaction.
#[derive(Clone, Copy, Drop)]
struct MarkText<'a> {
    group: &'a Name,
    log: LogName,
    tag: &'a Tag,
    committed: bool,
}

impl fmt::Display for MarkText<'_> {
    ghost use Rattle.std.specs.Prelude.{Some};
    ghost use Rattle.cw_model.specs.declared.tick.Tick.TheVariants.{Mark};
    ghost use Rattle.cw_model.specs.TickText.{tick_text};

    ghost output = { λ text. Some (tick_text text.group.now (Mark text.log text.tag.now text.committed)) };

    fn fmt<W: fmt::Write>(&self, f: &mut fmt::Formatter<W>) -> fmt::Result {
        let log = LogText { log: self.log };
        let tid = TidText {
            group: self.group,
            tid: &self.tag.tid,
        };
        let (epoch, number) = (self.tag.epoch.0, self.tag.number);
        let end = EndText {
            committed: self.committed,
        };
        write!(f, "mark {log} {tid} {epoch} {number} {end}")
    }
}

/// What a worker's tick did in a group.
#[derive(Clone, Copy, Drop)]
pub(crate) struct TickText<'a> {
    pub(crate) group: &'a Name,
    pub(crate) tick: &'a Tick,
}

impl fmt::Display for TickText<'_> {
    ghost use Rattle.std.specs.Prelude.{Some};
    ghost use Rattle.cw_model.specs.TickText.{tick_text};

    ghost output = { λ text. Some (tick_text text.group.now text.tick.now) };

    fn fmt<W: fmt::Write>(&self, f: &mut fmt::Formatter<W>) -> fmt::Result {
        match self.tick {
            Tick::Read(prefix) => write!(f, "read {prefix}"),
            Tick::Stop(item) => {
                let item = ItemText { item };
                write!(f, "stop {item}")
            }
            Tick::Join(round) => write!(f, "join {round}"),
            Tick::Close(round) => write!(f, "close {round}"),
            Tick::Planned(round) => write!(f, "plan {round}"),
            Tick::Sync(round) => write!(f, "sync {round}"),
            Tick::Lead(epoch) => write!(f, "lead {epoch}"),
            Tick::Propose(name, count) => {
                let name = text_of_name(name);
                write!(f, "propose {name} {count}")
            }
            Tick::Commit(name, offset) => {
                let name = text_of_name(name);
                write!(f, "commit {name} {offset}")
            }
            Tick::Fence(task, epoch) => {
                let task = TaskText { task };
                write!(f, "fence {task} {epoch}")
            }
            Tick::FenceRecord(name, offset) => {
                let name = text_of_name(name);
                write!(f, "fenced {name} {offset}")
            }
            Tick::Mark(log, tag, committed) => {
                let mark = MarkText {
                    group: self.group,
                    log: *log,
                    tag,
                    committed: *committed,
                };
                write!(f, "{mark}")
            }
            Tick::Start(item, number) => {
                let item = ItemText { item };
                write!(f, "start {item} {number}")
            }
            Tick::Report(item, state) => {
                let item = ItemText { item };
                let state = state.name();
                write!(f, "report {item} {state}")
            }
            Tick::Idle => write!(f, "idle"),
            Tick::LostLead { own, current } => write!(f, "lostlead {own} {current}"),
            Tick::Dead => write!(f, "dead"),
        }
    }
}
