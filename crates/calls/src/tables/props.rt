//! Properties and their JSON texts.

use crate::answer::Answer;
use crate::fault::Fault;
use crate::fields::Fields;
use cw_json::{JsonFault, Props, props_of, read_props, value_of};
use std::alloc::Global;

/// `props TEXT`: the pairs and how they are written, or why the text has none.
pub fn read(alloc: Global, fields: &mut Fields<'_>, answer: &mut Answer) -> Result<(), Fault> {
    let text = fields.text(alloc)?;
    match read_props(alloc, &text) {
        Ok(props) => say_props(alloc, &props.copy()?, answer),
        Err(fault) => say_fault(&fault, answer),
    }
}

fn say_props(alloc: Global, props: &Props, answer: &mut Answer) -> Result<(), Fault> {
    answer.word("ok")?;
    answer.count(props.as_slice().len())?;
    for (key, _) in props.as_slice() {
        answer.json_text(key)?;
        answer.some_text(props.get(key.as_str()).map(|text| text.as_str().as_bytes()))?;
    }
    say_written(alloc, props, answer)
}

// The text, written behind one turn through a JSON value.
fn say_written(alloc: Global, props: &Props, answer: &mut Answer) -> Result<(), Fault> {
    let value = value_of(alloc, props)?;
    match props_of(alloc, &value) {
        Ok(again) => answer.props(&again),
        Err(fault) => say_fault(&fault, answer),
    }
}

fn say_fault(fault: &JsonFault, answer: &mut Answer) -> Result<(), Fault> {
    match fault {
        JsonFault::NotJson => answer.word("NotJson"),
        JsonFault::NotObject => answer.word("NotObject"),
        JsonFault::BadValue(key) => {
            answer.word("BadValue")?;
            answer.json_text(key)
        }
        JsonFault::Memory => Err(Fault::Memory),
    }
}
