//! One file on a disk: what was written to it, and what a crash may leave of it.
#![tactic(auto)]

mod disk;
mod disk_call;
mod file_disk;
mod law;
mod mem_disk;
mod synced;

pub use disk::{Disk, DiskError};
pub use disk_call::{DiskCall, DiskCalls};
pub use file_disk::FileDisk;
pub use law::reads_are_left;
pub use mem_disk::MemDisk;
pub use synced::write_synced;
