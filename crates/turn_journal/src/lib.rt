//! A journal on a disk, of which no crash takes a record that was added.
#![tactic(auto)]

mod append;
mod begin;
mod fault;
mod file;
mod load;

pub use begin::begin_on;
pub use fault::JournalFault;
pub use file::JournalFile;
pub use load::load_on;
