//! What the program is asked for, read off the words behind its name.
//!
//! Its public contract says for each list of words just which command they are: those that the crate `clap`
//! takes for the program's definition, with the values that it finds, where the group is a name and each number
//! is in its range. All other words are no command, help words among them.
//! It stands on the names and numbers of `cw_types` and on `clap`.
#![tactic(auto)]

mod command;
mod laws;
mod program;
mod reading;

pub use command::{Command, GenOptions, Options, ServeOptions, WordsFault};
pub use laws::words_are_read;
pub use reading::read_words;
