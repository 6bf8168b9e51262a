//! The words of the whole project: names, ids, items, parts, spans, the logs and the disks.
//!
//! Its public contract says which bytes are a name and which fault other bytes have, how ids are
//! ordered and hashed, and which decimal text is which number, both ways.
//! It stands on std alone, and everything else stands on it.
#![tactic(auto)]

mod decimal;
mod ids;
mod listed;
mod logs;
mod name;
mod part_order;
mod past;
mod verdict;

pub use decimal::{numbers_are_decimals, read_u32, read_u64};
pub use ids::{Epoch, Item, PartKey, Span, Tag, TaskId, Tid, order_of_items, tid_text};
pub use listed::Listed;
pub use logs::{DiskName, LogName};
pub use name::{Name, NameFault};
pub use past::Past;
pub use verdict::{Decided, Verdict};

/// Want of memory, where it stands alone.
pub type Memory = std::alloc::AllocError;
