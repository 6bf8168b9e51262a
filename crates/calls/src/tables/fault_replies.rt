//! Replies to faults that a call of the REST interface met.

use crate::answer::Answer;
use crate::fault::Fault;
use crate::fields::Fields;
use crate::kinds::log_word;
use cw_reply::{failed_reply, full_reply, memory_reply};
use cw_types::LogName;
use std::alloc::Global;

const LOGS: [LogName; 5] = [
    LogName::Config,
    LogName::Offsets,
    LogName::Status,
    LogName::Txn,
    LogName::Batches,
];

/// `fault memory`, `fault failed` or `fault full LOG`: the code and the body of the reply.
pub fn reply_to(alloc: Global, fields: &mut Fields<'_>, answer: &mut Answer) -> Result<(), Fault> {
    let reply = match fields.word()? {
        "memory" => memory_reply(alloc)?,
        "failed" => failed_reply(alloc)?,
        "full" => full_reply(alloc, log_of(fields.word()?)?)?,
        _ => return Err(Fault::NoCall),
    };
    answer.long(u64::from(reply.code))?;
    answer.text(reply.body.as_slice())
}

// The log of a word.
fn log_of(word: &str) -> Result<LogName, Fault> {
    for log in LOGS {
        if log_word(log) == word {
            return Ok(log);
        }
    }
    Err(Fault::NoCall)
}
