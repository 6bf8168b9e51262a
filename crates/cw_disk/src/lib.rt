//! Disks: rows of bytes of which a stop of the machine may leave less than a read gives.
//!
//! The trait `Disk` says what each call does to the content, to the images that a stop may leave, to the
//! count of faults and to the reserved length; `MemDisk` is proved to be such a disk, and `FileDisk`
//! is the trusted edge over a real file. It stands on std and on the names of the disks in cw_types.
#![tactic(auto)]

mod device;
mod disks;
mod file;
mod held;
mod memory;

pub use device::{Disk, Failed, Memory};
pub use disks::Disks;
pub use file::{FileDisk, path_of, paths_differ};
pub use held::Held;
pub use memory::{MemDisk, Way};
