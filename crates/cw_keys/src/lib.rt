//! Keys and values of the config, status and offset logs, as Connect's internal topics have them.
//!
//! Its public contract says for each key and each value what it stands for, when BadKey and when
//! BadValue comes, and that what is written is read again.
//! It stands on the names and numbers of `cw_types`, the properties of `cw_json`, and `serde_json`.
#![tactic(auto)]

mod config;
mod config_key;
mod config_value;
mod fault;
mod laws;
mod members;
mod names;
mod offset;
mod part;
mod state;
mod status;
mod target;
mod trace;

pub use config::{read_config, write_config};
pub use config_key::{ConfigKey, read_config_key};
pub use config_value::ConfigValue;
pub use fault::KeyFault;
pub use laws::{keys_are_their_texts, values_are_read_again};
pub use members::{count_at, name_at, u64_at};
pub use names::text_of_name;
pub use offset::{offset_name, read_offset, write_offset};
pub use part::{read_part, write_part};
pub use state::State;
pub use status::{StatusValue, read_status, write_status};
pub use target::Target;
pub use trace::{fenced_trace, long_line_trace};
