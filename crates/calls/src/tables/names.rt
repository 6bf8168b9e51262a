//! Names, numbers, ids and their order.

use crate::answer::Answer;
use crate::fault::Fault;
use crate::fields::Fields;
use cw_types::{Name, NameFault, order_of_items, read_u32, read_u64, tid_text};
use std::alloc::Global;
use std::cmp::Ordering;

/// `name TEXT`: the name, or why the text is none.
pub fn read(alloc: Global, fields: &mut Fields<'_>, answer: &mut Answer) -> Result<(), Fault> {
    let text = fields.text(alloc)?;
    match Name::read(alloc, &text) {
        Ok(name) => {
            answer.word("ok")?;
            answer.name(&name.copy()?)
        }
        Err(fault) => say_fault(fault, answer),
    }
}

fn say_fault(fault: NameFault, answer: &mut Answer) -> Result<(), Fault> {
    match fault {
        NameFault::Empty => answer.word("Empty"),
        NameFault::TooLong => answer.word("TooLong"),
        NameFault::BadByte(at) => {
            answer.word("BadByte")?;
            answer.count(at)
        }
        NameFault::Memory => Err(Fault::Memory),
    }
}

/// `number TEXT`: the number below 2^64 and the one below 2^32 that it is.
pub fn number(alloc: Global, fields: &mut Fields<'_>, answer: &mut Answer) -> Result<(), Fault> {
    let text = fields.text(alloc)?;
    answer.some_long(read_u64(&text))?;
    answer.some_long(read_u32(&text).map(u64::from))
}

/// `tid GROUP ID`: the id's text.
pub fn tid(alloc: Global, fields: &mut Fields<'_>, answer: &mut Answer) -> Result<(), Fault> {
    let group = fields.name(alloc)?;
    let id = fields.tid(alloc)?;
    let text = tid_text(alloc, &group, &id)?;
    answer.text(&text)
}

/// `order ITEM ITEM`: how they are ordered.
pub fn order(alloc: Global, fields: &mut Fields<'_>, answer: &mut Answer) -> Result<(), Fault> {
    let first = fields.item(alloc)?;
    let second = fields.item(alloc)?;
    answer.word(match order_of_items(&first, &second) {
        Ordering::Less => "Less",
        Ordering::Equal => "Equal",
        Ordering::Greater => "Greater",
    })
}
