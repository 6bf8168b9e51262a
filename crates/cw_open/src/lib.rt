//! Eight disks, opened as a cluster: what the five logs hold is judged, and stands for a state, or its first harm is
//! told.
//!
//! Its public contract says of `reopen` that the world has the one state for which the files stand, that its logs hold
//! just this, and that what a stop leaves of a state is opened as that state; and of a log that nothing lacks in it, or
//! which of its frames is the first that isn't allowed at its place or isn't safe, in the words of the model.
//! It stands on the world, on the model, and on the pieces whose logs they are.
#![tactic(auto)]

mod agreeing;
mod allowed;
mod batches;
mod configs;
mod contents;
mod entries;
mod fences;
mod first_harm;
mod found;
mod frames;
mod gates;
mod judged_disks;
mod leaving;
mod marks;
mod offsets;
mod opening;
mod read_logs;
mod reading;
mod reopen_fault;
mod reopening;
mod rising;
mod safety;
mod spans;
mod stamps;
mod statuses;
mod tags;
mod transactions;
mod waiting;

pub use agreeing::feeds_agree;
pub use batches::first_batches_not_allowed;
pub use configs::first_configs_not_allowed;
pub use entries::EntryList;
pub use first_harm::{FirstHarm, FramePlace, judge};
pub use frames::FramesRead;
pub use judged_disks::{JudgedDisks, judge_disks};
pub use leaving::{files_open_one_way, given_disks_leave_what_was_stored};
pub use offsets::first_offsets_not_allowed;
pub use reopen_fault::{ReopenCause, ReopenFault};
pub use reopening::reopen;
pub use safety::first_entries_unsafe;
pub use stamps::first_configs_not_stamped;
pub use statuses::first_statuses_not_allowed;
pub use transactions::first_entries_not_allowed;
