//! Lines of scripts.

use crate::answer::Answer;
use crate::fault::Fault;
use crate::fields::Fields;
use crate::kinds::log_word;
use cw_script::{Directive, PartEnd, ScriptFault, read_line};
use std::alloc::Global;

/// `line TEXT`: the directive, `none`, or why the line is no directive. A directive is spelled and read again
/// before it is said.
pub fn read(alloc: Global, fields: &mut Fields<'_>, answer: &mut Answer) -> Result<(), Fault> {
    let line = fields.text(alloc)?;
    match read_line(alloc, &line, LINE) {
        Ok(Some(directive)) => say_line(alloc, &directive.spell(alloc)?, answer),
        _ => say_line(alloc, &line, answer),
    }
}

// The number that each line is said to have.
const LINE: u64 = 7;

fn say_line(alloc: Global, line: &[u8], answer: &mut Answer) -> Result<(), Fault> {
    match read_line(alloc, line, LINE) {
        Ok(None) => answer.word("none"),
        Ok(Some(directive)) => say_directive(&directive, answer),
        Err(ScriptFault::BadLine { number, kind }) => {
            let kind = kind.to_string(alloc)?;
            answer.word(kind.as_str())?;
            answer.long(number)
        }
        Err(ScriptFault::Memory) => Err(Fault::Memory),
    }
}

fn say_directive(directive: &Directive, answer: &mut Answer) -> Result<(), Fault> {
    match directive {
        Directive::Init(id) => say_number("init", u64::from(*id), answer),
        Directive::Commit { id, epoch, pairs } => {
            say_commit(*id, *epoch, pairs.as_slice(), answer)
        }
        Directive::Rest {
            worker,
            method,
            target,
            body,
        } => {
            say_number("rest", *worker, answer)?;
            answer.text(method.as_slice())?;
            answer.text(target.as_slice())?;
            answer.text(body.as_slice())
        }
        Directive::Take { topic, from } => {
            answer.word("take")?;
            answer.name(topic)?;
            answer.long(*from)
        }
        Directive::Compact(log) => {
            answer.word("compact")?;
            answer.word(log_word(*log))
        }
        _ => say_event(directive, answer),
    }
}

// A directive of a number alone, or of none.
fn say_event(directive: &Directive, answer: &mut Answer) -> Result<(), Fault> {
    match directive {
        Directive::Spawn => answer.word("spawn"),
        Directive::Kill(worker) => say_number("kill", *worker, answer),
        Directive::Deaf(worker) => say_number("deaf", *worker, answer),
        Directive::Hear(worker) => say_number("hear", *worker, answer),
        Directive::Expire(worker) => say_number("expire", *worker, answer),
        Directive::Clock(moment) => say_number("clock", *moment, answer),
        Directive::Tick(worker) => say_number("tick", *worker, answer),
        Directive::Step(instance) => say_number("step", *instance, answer),
        Directive::Settle(rounds) => say_number("settle", *rounds, answer),
        Directive::Held(worker) => say_number("held", *worker, answer),
        Directive::Member(worker) => say_number("member", *worker, answer),
        _ => Err(Fault::NoCall),
    }
}

fn say_number(word: &str, number: u64, answer: &mut Answer) -> Result<(), Fault> {
    answer.word(word)?;
    answer.long(number)
}

fn say_commit(id: u32, epoch: u64, pairs: &[PartEnd], answer: &mut Answer) -> Result<(), Fault> {
    say_number("commit", u64::from(id), answer)?;
    answer.long(epoch)?;
    answer.count(pairs.len())?;
    for pair in pairs {
        answer.long(u64::from(pair.part))?;
        answer.long(pair.to)?;
    }
    Ok(())
}
