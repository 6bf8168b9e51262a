//! Fields of the bodies of the logs: numbers, texts, ids, parts, spans, marks and lists of records.
//!
//! Its public contract says that each value has one spelling, that what is read is spelled so and what is
//! spelled so is read whatever follows, and that a refusal is the first fault from the left.
//! It stands on the ids, parts and spans of `cw_types`.
#![tactic(auto)]

mod applied;
mod body;
mod fault;
mod fields;
mod input;
mod mark;
mod numbers;
mod reader;
mod writer;
mod writing;

pub use applied::Applied;
pub use body::{BodyFault, read_record_body, write_record_body};
pub use fault::FieldFault;
pub use mark::Mark;
pub use reader::{
    Reader, read_mark, read_part, read_records, read_span, read_span_onto, read_tag, read_tid,
    spelled_fields_are_read,
};
pub use writer::Writer;
pub use writing::{write_mark, write_part, write_records, write_span, write_tag, write_tid};
