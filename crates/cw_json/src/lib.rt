//! Properties of connectors and tasks, and the JSON objects that stand for them.
//!
//! Its public contract says of each text and each JSON value which properties it stands for, or which
//! refusal comes first, and that what is written is read again.
//! It stands on `serde_json`, whose definitions say which value a text is.
#![tactic(auto)]

mod fault;
mod props;
mod read;
mod text;
mod write;

pub use fault::JsonFault;
pub use props::Props;
pub use read::{props_of, read_props, read_value};
pub use text::Text;
pub use write::{text_of, texts_are_read_again, value_of};
