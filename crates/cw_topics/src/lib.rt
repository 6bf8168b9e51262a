//! The logs as they are kept in memory: their frames, and what follows from these: the configs, the latest statuses,
//! the transactions, the data, and which transactions wait for a marker.
//!
//! A frame that is to be written takes all its memory first, in `ready_..`, which changes nothing that is told of the
//! logs; once its bytes stand in its log, `put_..` hangs it to the log's frames and can't fail.
//! It stands on the pieces whose states it keeps, and on the model's words for the bodies of the logs.
#![tactic(auto)]

mod compacting;
mod config_frame;
mod config_topic;
mod configs;
mod data_frame;
mod data_log;
mod entries;
mod frame;
mod left_offsets;
mod offset_frame;
mod offset_log;
mod offset_topic;
mod opened;
mod replaying;
mod status_frame;
mod status_log;
mod status_topic;
mod topics;

pub use config_frame::{ConfigFrame, applied_of, frame_from};
pub use configs::copies_from;
pub use data_frame::DataFrame;
pub use entries::tid_of;
pub use frame::{EntryFrame, spans_of};
pub use left_offsets::LeftOffsetLog;
pub use offset_frame::OffsetFrame;
pub use offset_log::OffsetLog;
pub use status_frame::StatusFrame;
pub use topics::{Sides, Topics};
