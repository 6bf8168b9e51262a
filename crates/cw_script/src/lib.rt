//! The script language: what each line of a script asks for.
//!
//! Its public contract is one table of words with what stands behind each: a line is read exactly as
//! the table says, the fault of any other line is the first in a stated order, and the line that a
//! directive is spelled as is read as that directive again.
//! It stands on the names and decimal numbers of `cw_types` and on `memchr`.
#![tactic(auto)]

mod directive;
mod fault;
mod read;
mod spell;
mod words;

pub use directive::{Directive, PartEnd};
pub use fault::{LineKind, ScriptFault};
pub use read::read_line;
pub use spell::lines_are_directives;
