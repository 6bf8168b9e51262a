//! When two entries of the journal are the same.
ghost use Rattle.std.specs.Prelude.{◌≡◌, ◌≢◌, MatchBool};

use cw_model::JournalEntry;
use cw_route::{Call, Reply};
use cw_types::{Listed, Name, TaskId};

/// Whether two entries are the same.
pub(crate) fn is_same_entry(a: &JournalEntry, b: &JournalEntry) -> bool
    ensures { MatchBool result (a.now ≡ b.now) (a.now ≢ b.now) }
{
    a.worker == b.worker
        && a.board == b.board
        && a.prefix == b.prefix
        && a.statuses == b.statuses
        && a.entries == b.entries
        && is_same_call(&a.call, &b.call)
        && is_same_reply(&a.reply, &b.reply)
}

// Whether two calls are the same.
fn is_same_call(a: &Call, b: &Call) -> bool
    ensures { MatchBool result (a.now ≡ b.now) (a.now ≢ b.now) }
{
    match a {
        Call::Refused(fault) => matches!(b, Call::Refused(other) if *fault == *other),
        Call::Connectors => matches!(b, Call::Connectors),
        Call::Create(body) => matches!(b, Call::Create(other) if is_same_text(body, other)),
        Call::Info(name) => matches!(b, Call::Info(other) if is_same_name(name, other)),
        Call::Delete(name) => matches!(b, Call::Delete(other) if is_same_name(name, other)),
        Call::Config(name) => matches!(b, Call::Config(other) if is_same_name(name, other)),
        Call::PutConfig(name, body) => {
            matches!(b, Call::PutConfig(other, text) if is_same_name(name, other) && is_same_text(body, text))
        }
        Call::Status(name) => matches!(b, Call::Status(other) if is_same_name(name, other)),
        Call::Tasks(name) => matches!(b, Call::Tasks(other) if is_same_name(name, other)),
        Call::TaskStatus(id) => matches!(b, Call::TaskStatus(other) if is_same_task(id, other)),
        Call::Pause(name) => matches!(b, Call::Pause(other) if is_same_name(name, other)),
        Call::Resume(name) => matches!(b, Call::Resume(other) if is_same_name(name, other)),
        Call::Stop(name) => matches!(b, Call::Stop(other) if is_same_name(name, other)),
        Call::Restart(name) => matches!(b, Call::Restart(other) if is_same_name(name, other)),
        Call::RestartTask(id) => matches!(b, Call::RestartTask(other) if is_same_task(id, other)),
        Call::Offsets(name) => matches!(b, Call::Offsets(other) if is_same_name(name, other)),
        Call::Alter(name, body) => {
            matches!(b, Call::Alter(other, text) if is_same_name(name, other) && is_same_text(body, text))
        }
        Call::Reset(name) => matches!(b, Call::Reset(other) if is_same_name(name, other)),
        Call::Plugins => matches!(b, Call::Plugins),
    }
}

fn is_same_reply(a: &Reply, b: &Reply) -> bool
    ensures { MatchBool result (a.now ≡ b.now) (a.now ≢ b.now) }
{
    a.code == b.code && is_same_text(&a.body, &b.body)
}

fn is_same_task(a: &TaskId, b: &TaskId) -> bool
    ensures { MatchBool result (a.now ≡ b.now) (a.now ≢ b.now) }
{
    is_same_name(&a.connector, &b.connector) && a.index == b.index
}

fn is_same_name(a: &Name, b: &Name) -> bool
    ensures { MatchBool result (a.now ≡ b.now) (a.now ≢ b.now) }
{
    a.as_bytes() == b.as_bytes()
}

fn is_same_text(a: &Listed<u8>, b: &Listed<u8>) -> bool
    ensures { MatchBool result (a.now ≡ b.now) (a.now ≢ b.now) }
{
    a.as_slice() == b.as_slice()
}
