//! What a line asks for, and its answer.
use crate::line::Line;
use crate::refusal::{Made, Refusal};
use crate::stage::{Stage, Trial};
use crate::{calls, items, logs, producers, tasks, workers};
use std::alloc::AllocError;

/// A line with its answer behind it, and a comment as it is.
pub(crate) fn answered(stage: &mut Stage, text: &str) -> Result<String, AllocError> {
    let alloc = stage.alloc;
    if text.is_empty() || text.starts_with('#') {
        return format!(in alloc; "{text}\n");
    }
    let mut line = Line::of(alloc, text);
    match make(stage, &mut line) {
        Ok(()) => {
            let answer = line.answer.as_str();
            format!(in alloc; "{text} -> Ok{answer}\n")
        }
        Err(Refusal::NoEvent) => format!(in alloc; "{text} -> NoEvent\n"),
        Err(Refusal::NotNow) => format!(in alloc; "{text} -> NotNow\n"),
        Err(Refusal::Unopened(cause)) => format!(in alloc; "{text} -> {cause:?}\n"),
        Err(Refusal::Fault(fault)) => format!(in alloc; "{text} -> {fault:?}\n"),
    }
}

// Makes what a line asks for.
fn make(stage: &mut Stage, line: &mut Line<'_>) -> Made {
    match line.word() {
        "open" => stage.open(line),
        "open-failing" => stage.open_failing(line),
        "open-image" => stage.open_image(line),
        "reopen" => stage.reopen(line),
        word => match &mut stage.world {
            Some(world) => make_event(world, word, line),
            None => Err(Refusal::NotNow),
        },
    }
}

// Makes an event of a world.
fn make_event(world: &mut Trial, word: &str, line: &mut Line<'_>) -> Made {
    match word {
        "spawn" => workers::spawn(world, line),
        "kill" => workers::kill(world, line),
        "deaf" => workers::deaf(world, line),
        "hear" => workers::hear(world, line),
        "expire" => workers::expire(world, line),
        "clock" => workers::clock(world, line),
        "tick" => workers::tick(world, line),
        "start_item" => items::start_item(world, line),
        "restart" => items::restart(world, line),
        "fail" => items::fail(world, line),
        "raw_init" => producers::raw_init(world, line),
        "raw_commit" => producers::raw_commit(world, line),
        "sizes" => logs::sizes(world, line),
        "mark" => logs::mark(world, line),
        "compact" => logs::compact(world, line),
        "put" => calls::put(world, line),
        "stop" => calls::stop(world, line),
        "reset" => calls::reset(world, line),
        word => make_step(world, word, line),
    }
}

// Makes an event of a task.
fn make_step(world: &mut Trial, word: &str, line: &mut Line<'_>) -> Made {
    match word {
        "init" => tasks::init(world, line),
        "verify" => tasks::verify(world, line),
        "fetch" => tasks::fetch(world, line),
        "produce" => tasks::produce(world, line),
        "put_offsets" => tasks::put_offsets(world, line),
        "commit" => tasks::commit(world, line),
        "deliver" => tasks::deliver(world, line),
        "put_sink" => tasks::put_sink(world, line),
        _ => Err(Refusal::NoEvent),
    }
}
