//! Connector classes: which config a connector may have, which tasks it has, and what a task reads or
//! writes.
//!
//! Its public contract says of each config which class it has or which refusal comes first, which
//! properties its tasks have, of which no two share a part and all together have the config's, and which parts a
//! task's properties name.
//! It stands on the names and numbers of `cw_types` and the properties of `cw_json`.
#![tactic(auto)]

mod check;
mod class;
mod configs;
mod fault;
mod lists;
mod numbers;
mod shares;
mod task;

pub use check::{check_config, is_faultless};
pub use class::Class;
pub use configs::task_configs;
pub use fault::PluginFault;
pub use task::{TaskSpec, task_of};
