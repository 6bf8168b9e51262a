//! Why a line of a script asks for nothing.
ghost use Rattle.std.specs.Prelude.{◌≡◌};

use std::alloc::AllocError;
use std::error::Error;
use std::fmt;

/// Why a line asks for nothing, the first that holds in this order: its word, the number of its words,
/// then its words from left to right (`Number` or `BadName`), then whom it names.
#[derive(Clone, Copy, Debug, PartialEq, Eq, Drop)]
pub enum LineKind {
    /// The first word is no directive's.
    NoWord,
    /// Another number of words stands behind the directive's word.
    Count,
    /// A word is no number in its range, or names a part for the second time.
    Number,
    /// No worker has that number. The reader of lines never says this.
    NoWorker,
    /// No instance has that number. The reader of lines never says this.
    NoInstance,
    /// A word is no name, or no log that can be compacted.
    BadName,
}

impl LineKind {
    ghost use Rattle.cw_script.specs.Faults.{kind_text};

    /// The kind's name, as an answer tells it.
    pub fn name(&self) -> &'static str
        ensures { result.now ≡ kind_text self.now }
    {
        match self {
            LineKind::NoWord => "NoWord",
            LineKind::Count => "Count",
            LineKind::Number => "Number",
            LineKind::NoWorker => "NoWorker",
            LineKind::NoInstance => "NoInstance",
            LineKind::BadName => "BadName",
        }
    }
}

impl fmt::Display for LineKind {
    ghost use Rattle.std.specs.Prelude.{Some};
    ghost use Rattle.cw_script.specs.Faults.{kind_text};

    ghost output = { λ kind. Some (kind_text kind) };

    fn fmt<W: fmt::Write>(&self, f: &mut fmt::Formatter<W>) -> fmt::Result {
        f.write_str(self.name())
    }
}

impl Error for LineKind {}

/// Why a line wasn't read.
#[derive(Debug, Drop, thiserror::Error)]
pub enum ScriptFault {
    /// The line is no directive.
    #[error("line {number}: {kind}")]
    BadLine {
        /// The line's number, as the caller gave it.
        number: u64,
        /// The first fault that it has.
        kind: LineKind,
    },
    /// There was no memory for what the line says.
    #[error("out of memory")]
    Memory,
}

impl From<AllocError> for ScriptFault {
    ghost use Rattle.cw_script.specs.declared.fault.ScriptFault.TheVariants.{Memory};

    ghost from_gives = { λ _ fault. fault ≡ Memory };

    fn from(_: AllocError) -> ScriptFault {
        ScriptFault::Memory
    }
}
