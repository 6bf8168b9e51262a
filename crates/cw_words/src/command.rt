//! The commands of the program, and why words are none.
ghost use Rattle.std.specs.Prelude.{◌≡◌};

use cw_types::Name;
use std::alloc::AllocError;
use thiserror::Error;

/// What every command takes.
#[derive(Debug, PartialEq, Eq, Drop)]
pub struct Options {
    /// The name of the group that the workers form, Kafka Connect's `group.id`.
    pub group: Name,
    /// How many milliseconds a departed worker's items wait for it, Kafka Connect's
    /// `scheduled.rebalance.max.delay.ms` (KIP-415).
    pub delay: u64,
}

/// What `gen` takes: which script is made, and what every command takes.
#[derive(Debug, PartialEq, Eq, Drop)]
pub struct GenOptions {
    /// The number that the script is made from.
    pub start: u64,
    /// How many directives it has, from 1 to 1,000,000.
    pub count: u64,
    /// What every command takes.
    pub shared: Options,
}

/// What `serve` takes: how large the server is, and what every command takes.
#[derive(Debug, PartialEq, Eq, Drop)]
pub struct ServeOptions {
    /// How many workers the cluster has, from 1 to 64.
    pub workers: u32,
    /// How many threads run tasks, from 1 to 64.
    pub runners: u32,
    /// How many threads serve connections, from 1 to 64.
    pub handlers: u32,
    /// How many connections are accepted before the server ends, from 1 to 10,000.
    pub conns: u32,
    /// What every command takes.
    pub shared: Options,
}

/// A command of the program.
#[derive(Debug, PartialEq, Eq, Drop)]
pub enum Command {
    /// Plays the directives of the standard input.
    Drive(Options),
    /// Says what the logs of a stopped cluster hold.
    Audit(Options),
    /// Plays a script that is made from a number, and says what it came to.
    Gen(GenOptions),
    /// Serves Connect's REST API over a cluster of workers.
    Serve(ServeOptions),
}

/// Why words give no command.
#[derive(Clone, Copy, Debug, PartialEq, Eq, Drop, Error)]
pub enum WordsFault {
    /// The words are none of the commands, or ask for help, or a value is out of its range.
    #[error("the words are none of the program's commands")]
    Usage,
    /// There was no memory for reading them.
    #[error("out of memory")]
    Memory,
}

impl From<AllocError> for WordsFault {
    ghost use Rattle.cw_words.specs.declared.command.WordsFault.TheVariants.{Memory};

    ghost from_gives = { λ _ fault. fault ≡ Memory };

    fn from(_: AllocError) -> WordsFault {
        WordsFault::Memory
    }
}
