//! The words that stand for kinds and verdicts in answers.

use cw_group::Phase;
use cw_keys::Target;
use cw_plugin::Class;
use cw_types::{LogName, Verdict};

/// The word of a target state.
pub fn target_word(target: Target) -> &'static str {
    match target {
        Target::Started => "Started",
        Target::Paused => "Paused",
        Target::Stopped => "Stopped",
    }
}

/// The word of a connector class.
pub fn class_word(class: Class) -> &'static str {
    match class {
        Class::FileStreamSource => "FileStreamSource",
        Class::FileSetSource => "FileSetSource",
        Class::SequenceSource => "SequenceSource",
        Class::FileStreamSink => "FileStreamSink",
    }
}

/// The word of a group's phase.
pub fn phase_word(phase: Phase) -> &'static str {
    match phase {
        Phase::Open => "Open",
        Phase::Closed => "Closed",
        Phase::Planned => "Planned",
    }
}

/// The word of a verdict.
pub fn verdict_word(verdict: Verdict) -> &'static str {
    match verdict {
        Verdict::Committed => "Committed",
        Verdict::Aborted => "Aborted",
        Verdict::Open => "Open",
    }
}

/// The word of a log in scripts.
pub fn log_word(log: LogName) -> &'static str {
    match log {
        LogName::Config => "config",
        LogName::Offsets => "offsets",
        LogName::Status => "status",
        LogName::Txn => "transactions",
        LogName::Batches => "batches",
    }
}
